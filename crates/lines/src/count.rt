// Bytes of a range, counted. Line ends are the bytes 0x0A, characters are the bytes but 0x80 to 0xBF.
ghost use Rattle.std.specs.Prelude.{◌≡◌, if◌then◌else◌, ◌≤◌, length};
ghost use Rattle.chars.specs.paper.Quoted.{between};
ghost use Rattle.lines.specs.computed.Lines.{countIn};

// So many bytes are counted in a byte, so that the compiler adds sixteen or thirty-two at once: the most thirty-twos that a byte has room for.
const BLOCK: usize = 224;

const _: () = prove!(
    BLOCK % 32 == 0 && BLOCK <= u8::MAX as usize && (u8::MAX as usize) < BLOCK + 32
);

fn one_in(b: u8, low: u8, high: u8) -> u8
    ensures value { result ≡ (if between low high b then 1 else 0) }
    ensures upper_bound { result ≤ 1 }
{
    (low..=high).contains(&b) as u8
}

// Of at most 255 bytes.
#[inline(always)]
#[tactic(auto, using(crate::proofs::count::Laws::counting))]
fn count_block(block: &[u8], low: u8, high: u8) -> u8
    requires { length block.now ≤ 255 }
    ensures { result ≡ countIn low high block.now }
{
    let mut n: u8 = 0;
    for b in block {
        n += one_in(*b, low, high);
    }
    n
}

// The same. It is called twice since in the first call the compiler knows the length, and lays the loop out without tests.
fn count_chunk(block: &[u8], low: u8, high: u8) -> u8
    requires { length block.now ≤ 255 }
    ensures { result ≡ countIn low high block.now }
{
    if block.len() == BLOCK {
        return count_block(block, low, high);
    }
    count_block(block, low, high)
}

/// How many bytes lie in the range from low to high.
#[tactic(auto, using(crate::proofs::count::Laws::counting))]
pub fn count_in(s: &[u8], low: u8, high: u8) -> usize
    ensures { result ≡ countIn low high s.now }
{
    let mut n: usize = 0;
    for block in s.chunks(BLOCK) {
        n += count_chunk(block, low, high) as usize;
    }
    n
}
