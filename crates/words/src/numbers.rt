// Little-endian numbers in a byte slice. One that does not lie wholly within is read as 0 and is not written.
#![tactic(auto, using(crate::proofs::Reading::read_whole, crate::proofs::Reading::read_short, crate::proofs::Reading::read_long, crate::proofs::Reading::read_part), unfolding(crate::specs::Numbers::value, crate::specs::Numbers::le, crate::specs::Numbers::put, crate::proofs::Widths::each))]

ghost use Rattle.std.specs.Prelude.{◌≡◌, ℕ};
ghost use Rattle.words.specs.Numbers.{read, get, put};

use crate::parts::{overwrite, part};

// A number of so many bytes.
pub trait Word: Copy {
    const SIZE: usize;

    ghost SIZE: { ℕ };

    ghost number: { Self → ℕ };

    // The number that exactly so many bytes write; 0 for any others, and no `Option`: whatever the engine reads lies within, and a
    // caller that knows it would have to say what it does otherwise.
    fn read(bytes: &[u8]) -> Self
        ensures little_endian { number result ≡ read SIZE bytes.now };

    fn write(word: Self, bytes: &mut [u8], at: usize)
        ensures little_endian { bytes.new ≡ put SIZE bytes.old at (number word) };
}

// Three impls and not one: only a macro could write them from one text, and none of our own may write an impl.
impl Word for u16 {
    const SIZE: usize = 2;

    ghost SIZE = { 2 };

    ghost number = { λ n. n };

    fn read(bytes: &[u8]) -> u16 {
        match bytes {
            [a, b] => u16::from_le_bytes([*a, *b]),
            _ => 0,
        }
    }

    fn write(half: u16, bytes: &mut [u8], at: usize) {
        overwrite(bytes, at, &half.to_le_bytes());
    }
}

impl Word for u32 {
    const SIZE: usize = 4;

    ghost SIZE = { 4 };

    ghost number = { λ n. n };

    fn read(bytes: &[u8]) -> u32 {
        match bytes {
            [a, b, c, d] => u32::from_le_bytes([*a, *b, *c, *d]),
            _ => 0,
        }
    }

    fn write(word: u32, bytes: &mut [u8], at: usize) {
        overwrite(bytes, at, &word.to_le_bytes());
    }
}

impl Word for u64 {
    const SIZE: usize = 8;

    ghost SIZE = { 8 };

    ghost number = { λ n. n };

    fn read(bytes: &[u8]) -> u64 {
        match bytes {
            [a, b, c, d, e, f, g, h] => u64::from_le_bytes([*a, *b, *c, *d, *e, *f, *g, *h]),
            _ => 0,
        }
    }

    fn write(wide: u64, bytes: &mut [u8], at: usize) {
        overwrite(bytes, at, &wide.to_le_bytes());
    }
}

// The number in the bytes from `at` on.
pub fn get<W: Word>(bytes: &[u8], at: usize) -> W
    ensures little_endian { W.number result ≡ get W.SIZE bytes.now at }
{
    W::read(part(bytes, at, W::SIZE))
}

// Writes the number from `at` on.
pub fn put<W: Word>(bytes: &mut [u8], at: usize, word: W)
    ensures little_endian { bytes.new ≡ put W.SIZE bytes.old at (W.number word) }
{
    W::write(word, bytes, at);
}
