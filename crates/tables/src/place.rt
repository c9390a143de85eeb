// A place in the stored input.
ghost use Rattle.std.specs.Prelude.{◌+◌, ◌<◌};

use columns::at;

// No input is longer: what is announced to stand past it stands in its front again.
const MOST: usize = 65536;

#[derive(Clone, Copy)]
pub struct Place<'a> {
    pub input: &'a [u8],
    pub at: usize,
}

impl<'a> Place<'a> {
    // So many bytes further.
    pub fn behind(self, bytes: u32) -> Place<'a>
        ensures { result.at < 65536 + bytes }
    {
        Place {
            input: self.input,
            at: self.at % MOST + bytes as usize,
        }
    }

    // The byte that stands so many further, counted out of the input; 0 there.
    pub fn byte(self, further: u16) -> u8 {
        at(self.input, self.at % MOST + further as usize)
    }

    // The number of two bytes that stands here, big-endian.
    pub fn word(self) -> u16 {
        u16::from_be_bytes([self.byte(0), self.byte(1)])
    }
}
