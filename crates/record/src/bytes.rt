// Little-endian numbers in the bytes of a record.

ghost use Rattle.std.specs.Prelude.{ℕ, List, ◌≡◌, ◌+◌, ◌*◌, ◌≤◌, ◌<◌, length, slice_index_or, take, drop};
ghost use Rattle.record.specs.Bytes.{byte_at, u32_at, u64_at};

pub fn byte_at(bytes: &[u8], at: usize) -> u32
    requires { at < length bytes.now }
    ensures { (result ≡ byte_at bytes.now at) × (result < 256) }
{
    u32::from(bytes[at])
}

// The N bytes at a place.
fn array_at<const N: usize>(bytes: &[u8], at: usize) -> [u8; N]
    requires { at + N ≤ length bytes.now }
    ensures { result ≡ take N (drop at bytes.now) }
{
    <[u8; N]>::try_from(&bytes[at..at + N]).unwrap()
}

// This and `u64_at` share `array_at`. A trait for the two widths, with its law, would be longer than both.
#[tactic(auto, using(crate::proofs::Numbers::u32_read, crate::proofs::Numbers::u32_listed))]
pub fn u32_at(bytes: &[u8], at: usize) -> u32
    requires { at + 4 ≤ length bytes.now }
    ensures { result ≡ u32_at bytes.now at }
{
    u32::from_le_bytes(array_at(bytes, at))
}

#[tactic(auto, using(crate::proofs::Numbers::u64_read), unfolding(crate::specs::Bytes::u64_at))]
pub fn u64_at(bytes: &[u8], at: usize) -> u64
    requires { at + 8 ≤ length bytes.now }
    ensures { result ≡ u64_at bytes.now at }
{
    u64::from_le_bytes(array_at(bytes, at))
}

// The part of a record that holds so many numbers of N bytes, one behind another.
pub fn numbers_at<const N: usize>(bytes: &[u8], at: usize, count: usize) -> &[[u8; N]]
    requires nonempty { 0 < N }
    requires in_bounds { at + N * count ≤ length bytes.now }
    ensures len { length result.now ≡ count }
    ensures number { (i : ℕ) (d : List ℕ) → i < count → slice_index_or result.now i d ≡ take N (drop (at + N * i) bytes.now) }
{
    let (numbers, _) = bytes[at..at + N * count].as_chunks();
    numbers
}
