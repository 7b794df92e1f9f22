// Stores into lent bytes. Each says what the whole buffer is afterwards, so that a caller knows too that no other byte changed.
ghost use Rattle.std.specs.Prelude.{◌≡◌, ◌+◌, ◌≤◌, length, take};
ghost use Rattle.std.proofs.lemmas.List.Edits.{sets};
ghost use Rattle.words.specs.Words.{le4, le8, blockOf};

/// The lowest four bytes of a number.
pub fn put4(out: &mut [u8], w: usize, x: usize)
    requires { w + 4 ≤ length out.old }
    ensures { out.new ≡ sets out.old w (le4 x) }
{
    let bytes = x.to_le_bytes();
    out[w..w + 4].copy_from_slice(&bytes[..4]);
}

/// All eight bytes, by halves: where these come as two numbers, one store of eight is slower.
pub fn put8(out: &mut [u8], w: usize, x: u64)
    requires { w + 8 ≤ length out.old }
    ensures { out.new ≡ sets out.old w (le8 x) }
{
    put4(out, w, x as usize);
    put4(out, w + 4, (x >> 32) as usize);
}

/// The first n bytes of a buffer into another. The count stands beside them, since both are lent and may be longer.
#[tactic(auto, using(crate::proofs::Stores::copied))]
pub fn copy(out: &mut [u8], src: &[u8], n: usize)
    requires room { n ≤ length out.old }
    requires there { n ≤ length src.now }
    ensures { out.new ≡ sets out.old 0 (take n src.now) }
{
    out[..n].copy_from_slice(&src[..n]);
}

/// Four numbers of four bytes, from w on.
pub fn put_numbers(
    out: &mut [u8],
    w: usize,
    first: usize,
    second: usize,
    third: usize,
    fourth: usize,
)
    requires { w + 16 ≤ length out.old }
    ensures { out.new ≡ sets out.old w (blockOf first second third fourth) }
{
    put4(out, w, first);
    put4(out, w + 4, second);
    put4(out, w + 8, third);
    put4(out, w + 12, fourth);
}

/// The answer block, whole: refusal, place, token count, record bytes.
pub fn put_block(out: &mut [u8], number: usize, place: usize, count: usize, bytes: usize)
    requires { length out.old ≡ 16 }
    ensures { out.new ≡ blockOf number place count bytes }
{
    put_numbers(out, 0, number, place, count, bytes);
}

/// The block of a refusal: its number and its place, and zeros. Gives the number.
pub fn put_refused(answer: &mut [u8], number: u32, place: usize) -> u32
    requires { length answer.old ≡ 16 }
    ensures value { result ≡ number }
    ensures answer_after { answer.new ≡ blockOf number place 0 0 }
{
    put_block(answer, number as usize, place, 0, 0);
    number
}
