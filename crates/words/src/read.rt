// Numbers read from lent bytes, the lowest byte first. A byte past the end counts as 0, so that no length is asked for; of the wider ones a place
// is asked that does not wrap.
ghost use Rattle.std.specs.Prelude.{◌≡◌, ◌+◌, ◌<◌, ◌≤◌, map};
ghost use Rattle.std.specs.List.{range_with_len};
ghost use Rattle.words.specs.Words.{oneAt, twoAt, fourAt, eightAt};
ghost use Rattle.words.specs.Joins.{Joins};

// The byte at a place.
fn byte_at(bytes: &[u8], at: usize) -> u8
    ensures { result ≡ oneAt bytes.now at }
{
    bytes.get(at).copied().unwrap_or(0)
}

// N bytes from a place on, as the number's type takes them. Nearly always all of them are there.
fn bytes_at<const N: usize>(bytes: &[u8], at: usize) -> [u8; N]
    requires { at + N ≤ 18446744073709551615 }
    ensures { result ≡ map (λ i. oneAt bytes.now (at + i)) (range_with_len 0 N) }
{
    if let Some(rest) = bytes.get(at..)
        && let Some(found) = rest.first_chunk()
    {
        return *found;
    }
    let mut found = [0; N];
    for (i, x) in found.iter_mut().enumerate() {
        *x = byte_at(bytes, at + i);
    }
    found
}

/// The number of one byte.
pub fn one(bytes: &[u8], at: usize) -> u64
    ensures value { result ≡ oneAt bytes.now at }
    ensures upper_bound { result < 256 }
{
    u64::from(byte_at(bytes, at))
}

/// Of two bytes.
#[tactic(auto, using(crate::proofs::Readings::readings))]
pub fn two(bytes: &[u8], at: usize) -> u64
    requires { at + 2 ≤ 18446744073709551615 }
    ensures value { result ≡ twoAt bytes.now at }
    ensures upper_bound { result < 65536 }
{
    u64::from(u16::from_le_bytes(bytes_at(bytes, at)))
}

/// Of four bytes.
#[tactic(auto, using(crate::proofs::Readings::readings))]
pub fn four(bytes: &[u8], at: usize) -> u64
    requires { at + 4 ≤ 18446744073709551615 }
    ensures value { result ≡ fourAt bytes.now at }
    ensures upper_bound { result < 4294967296 }
{
    u64::from(u32::from_le_bytes(bytes_at(bytes, at)))
}

/// Of eight bytes. The last clause is of all widths: reading undoes writing, and writing undoes reading.
#[tactic(auto, using(crate::proofs::Readings::readings))]
pub fn eight(bytes: &[u8], at: usize) -> u64
    requires { at + 8 ≤ 18446744073709551615 }
    ensures value { result ≡ eightAt bytes.now at }
    ensures upper_bound { result < 18446744073709551616 }
    ensures joins { Joins }
{
    u64::from_le_bytes(bytes_at(bytes, at))
}
