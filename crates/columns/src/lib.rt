// Reads and writes of lent columns: past the end a read gives 0 and a write changes nothing, so no caller owes an index.
#![tactic(auto)]

ghost use Rattle.std.specs.Prelude.{◌≡◌, ◌<◌, get_or, set, take};

pub mod rooms;

// What a column holds: a number of some width, with the 0 that is read past the column's end.
pub trait Entry: Copy {
    ghost zero: { Self };

    fn zero() -> Self
        ensures { result ≡ zero };

    // A copy is made without fail, and is the number itself.
    ghost clones: { (x : Self) → Self.is_infallible x };

    ghost copies: { (x y : Self) → Self.is_clone x y → y ≡ x };
}

// The same four times over: `rt ci` takes no impl from a macro.
impl Entry for u8 {
    ghost zero = { 0 };

    fn zero() -> u8 {
        0
    }

    ghost clones = { λ _. tt };

    ghost copies = { λ _ _ same. same };
}

impl Entry for u16 {
    ghost zero = { 0 };

    fn zero() -> u16 {
        0
    }

    ghost clones = { λ _. tt };

    ghost copies = { λ _ _ same. same };
}

impl Entry for u32 {
    ghost zero = { 0 };

    fn zero() -> u32 {
        0
    }

    ghost clones = { λ _. tt };

    ghost copies = { λ _ _ same. same };
}

impl Entry for u64 {
    ghost zero = { 0 };

    fn zero() -> u64 {
        0
    }

    ghost clones = { λ _. tt };

    ghost copies = { λ _ _ same. same };
}

// The entry at i.
pub fn at<T: Entry>(column: &[T], i: usize) -> T
    ensures { result ≡ get_or column.now i T.zero }
{
    if column.len() <= i {
        return T::zero();
    }
    column[i]
}

// A 16-bit entry as a node's number, or a row's.
pub fn node_at(shorts: &[u16], i: usize) -> usize
    ensures { (result ≡ get_or shorts.now i 0) × (result < 65536) }
{
    at(shorts, i) as usize
}

// Writes the entry at i.
pub fn put<T: Entry>(column: &mut [T], i: usize, value: T)
    ensures { column.new ≡ set column.old i value }
{
    if i < column.len() {
        column[i] = value;
    }
}

// The front of a column: n entries, or all where there are fewer.
pub fn front<T>(column: &[T], n: usize) -> &[T]
    ensures { result.now ≡ take n column.now }
{
    if n < column.len() {
        &column[..n]
    } else {
        column
    }
}
