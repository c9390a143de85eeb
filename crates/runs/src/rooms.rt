// What a search is lent, and what became of it.

// What every work room is filled with before a search: no search leaves it by chance.
const FILLER: u8 = 7;

// What every journey room is filled with: no leg has this number.
const BLANK: u16 = 9999;

#[derive(Drop)]
pub struct Rooms<'a> {
    pub journey: &'a mut [u16],
    pub wide: &'a mut [u64],
    pub narrow: &'a mut [u32],
}

// Whether a room holds one value throughout.
fn holds<T: From<u8> + PartialEq + Drop>(room: &[T], value: u8) -> bool {
    room.iter().all(|number| *number == value.into())
}

impl<'a> Rooms<'a> {
    pub(crate) fn filled(
        journey: &'a mut [u16],
        wide: &'a mut [u64],
        narrow: &'a mut [u32],
    ) -> Rooms<'a> {
        journey.fill(BLANK);
        wide.fill(FILLER.into());
        narrow.fill(FILLER.into());
        Rooms {
            journey,
            wide,
            narrow,
        }
    }

    // Both work rooms, all of them, hold one value throughout.
    fn work_holds(&self, value: u8) -> bool {
        holds(self.wide, value) && holds(self.narrow, value)
    }

    pub(crate) fn work(&self) -> &'static str {
        if self.work_holds(0) {
            "zero"
        } else if self.work_holds(FILLER) {
            "untouched"
        } else {
            "MIXED"
        }
    }

    // The journey room behind the first `written` places.
    pub(crate) fn rest(&self, written: usize) -> &'static str {
        if self.journey.iter().skip(written).all(|leg| *leg == BLANK) {
            "untouched"
        } else {
            "TOUCHED"
        }
    }
}
