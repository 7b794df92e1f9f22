// The listing program. RULES (docs/RULES.md), "Listing": it takes up to 3,000 bytes on standard input (more prints `long`) and prints kind,
// start, end, cut and values, or `refused N at P`. `rt ci` runs it on `stdin`, the example there, and holds what it prints to
// `stdout`, the lines that stand there.
#![tactic(auto)]

use std::io;
use std::io::Read;

// One byte more than a listing takes.
const SCRIPT_BYTES: u64 = listing_text::MOST_BYTES as u64 + 1;

// It reads and writes, and no contract can say what; the text is `listing_text::listing`'s.
fn main(rt: HostRuntime) -> io::Result<()> {
    let mut script = Vec::new(rt.alloc());
    let n = rt.reader().take(SCRIPT_BYTES).read_to_end(&mut script)?;
    let mut text = Vec::with_capacity(rt.alloc(), listing_text::MOST_TEXT)?;
    listing_text::listing(&mut text, &script[..n])?;
    rt.write_all(&text)
}
