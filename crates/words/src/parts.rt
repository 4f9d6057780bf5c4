// A part that does not lie wholly within the bytes is read as empty and is not written, so no call asks anything of its caller.
ghost use Rattle.std.specs.Prelude.{◌≡◌, ◌+◌, replicate, nat_le};
ghost use Rattle.words.specs.Bytes.{part, overwrite};

// Whether `count` bytes lie within `len` from `at` on, without a sum that could overflow.
pub(crate) fn within(len: usize, at: usize, count: usize) -> bool
    ensures exactly_when_within { result ≡ nat_le (at + count) len }
{
    at <= len && count <= len - at
}

// The `count` bytes from `at` on, or none where they are not all there.
#[tactic(auto, using(crate::proofs::Laid::part_sliced, crate::proofs::Laid::part_not_read))]
pub fn part(bytes: &[u8], at: usize, count: usize) -> &[u8]
    ensures those_bytes { result.now ≡ part at count bytes.now }
{
    if within(bytes.len(), at, count) {
        &bytes[at..at + count]
    } else {
        &bytes[0..0]
    }
}

// Writes `new` from `at` on; nothing where it does not all fit.
#[tactic(auto, using(crate::proofs::Laid::slice_written, crate::proofs::Laid::slice_not_written))]
pub fn overwrite(bytes: &mut [u8], at: usize, new: &[u8])
    ensures later_bytes { bytes.new ≡ overwrite at new.now bytes.old }
{
    if within(bytes.len(), at, new.len()) {
        bytes[at..at + new.len()].copy_from_slice(new);
    }
}

// Writes `count` zeroes from `at` on; nothing where they do not all fit.
#[tactic(auto, using(crate::proofs::Laid::slice_written, crate::proofs::Laid::zeroes_not_written))]
pub fn zero(bytes: &mut [u8], at: usize, count: usize)
    ensures later_bytes { bytes.new ≡ overwrite at (replicate count 0) bytes.old }
{
    if within(bytes.len(), at, count) {
        bytes[at..at + count].fill(0);
    }
}
