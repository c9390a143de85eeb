// The stored bytes that are not read yet. Behind the last of them come zeroes, so no reader owes a length.
ghost use Rattle.std.specs.Prelude.{◌≡◌, ◌+◌, ◌*◌, ◌==◌, get_or, take, drop, position};
ghost use Rattle.stored.specs.Names.{name_length};

#[derive(Clone, Copy)]
pub struct Cursor<'a> {
    pub rest: &'a [u8],
}

fn line_feed(bytes: &[u8]) -> Option<usize>
    ensures { result ≡ position (λ byte. byte == 10) bytes.now }
{
    bytes.iter().position(|byte| *byte == b'\n')
}

// How many bytes a name takes with its line feed: where there is none, all.
fn name_length(bytes: &[u8]) -> usize
    ensures { result ≡ name_length bytes.now }
{
    match line_feed(bytes) {
        Some(feed) => feed + 1,
        None => bytes.len(),
    }
}

impl<'a> Cursor<'a> {
    pub fn byte(&mut self) -> u8
        ensures value { result ≡ get_or self.old.rest.now 0 0 }
        ensures rest { self.new.rest.now ≡ drop 1 self.old.rest.now }
    {
        match self.rest {
            [] => 0,
            [first, rest @ ..] => {
                self.rest = rest;
                *first
            }
        }
    }

    // A number of two bytes, big-endian.
    pub fn word(&mut self) -> u16
        ensures value { result ≡ 256 * get_or self.old.rest.now 0 0 + get_or self.old.rest.now 1 0 }
        ensures rest { self.new.rest.now ≡ drop 2 self.old.rest.now }
    {
        let high = self.byte();
        let low = self.byte();
        u16::from_be_bytes([high, low])
    }

    // A name, with its line feed.
    pub fn name(&mut self) -> &'a [u8]
        ensures value { result.now ≡ take (name_length self.old.rest.now) self.old.rest.now }
        ensures rest { self.new.rest.now ≡ drop (name_length self.old.rest.now) self.old.rest.now }
    {
        let (name, behind) = self.rest.split_at(name_length(self.rest));
        self.rest = behind;
        name
    }
}
