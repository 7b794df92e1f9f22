// Every function that hosts call, for C and Rust to link, and nothing else: each is one call, with its callee's contract. `include/ergo_token.h`
// declares them.
#![tactic(auto)]

ghost use Rattle.std.specs.Prelude.{◌≡◌};
ghost use Rattle.words.specs.Words.{told};
ghost use Rattle.entry.specs.paper.Host.{seen};
ghost use Rattle.entry.specs.paper.Limits.{compiler, contact};
ghost use Rattle.entry.specs.computed.Host.{hostFor, hostOf};
ghost use Rattle.entry.specs.computed.Measure.{measureTold};
ghost use Rattle.entry.specs.paper.TokenText.{textNumber};
ghost use Rattle.entry.specs.Theorems.{CompilerTheorems, ContactTheorems, HostTheorems, MeasureTheorems};
ghost use Rattle.rolls.specs.computed.Host.{rollTold, recordTold};
ghost use Rattle.rolls.specs.Theorems.{RollTheorems};
ghost use Rattle.lines.specs.computed.Host.{indexSeen, positionTold};
ghost use Rattle.lines.specs.Theorems.{LineTheorems};

#[unsafe(no_mangle)]
pub extern "C" fn ergo_tokenize(script: &[u8], records: &mut [u8], answer: &mut [u8]) -> u32
    ensures answer_after { seen result records.new answer.new ≡ hostOf script.now records.old answer.old }
    ensures host_theorems { HostTheorems compiler script.now records.old answer.old }
    ensures compiler_theorems { CompilerTheorems script.now records.old answer.old }
{
    entry::host::tokenize(script, records, answer)
}

#[unsafe(no_mangle)]
pub extern "C" fn ergo_tokenize_contact(script: &[u8], records: &mut [u8], answer: &mut [u8]) -> u32
    ensures answer_after { seen result records.new answer.new ≡ hostFor contact script.now records.old answer.old }
    ensures host_theorems { HostTheorems contact script.now records.old answer.old }
    ensures contact_theorems { ContactTheorems script.now records.old answer.old }
{
    entry::host::tokenize_contact(script, records, answer)
}

#[unsafe(no_mangle)]
pub extern "C" fn ergo_measure(script: &[u8], answer: &mut [u8]) -> u32
    ensures answer_after { told result answer.new ≡ measureTold script.now answer.old }
    ensures measure_theorems { MeasureTheorems script.now answer.old }
{
    entry::measure::measure(script, answer)
}

#[unsafe(no_mangle)]
pub extern "C" fn ergo_token_text(script: &[u8], start: u32, end: u32) -> u32
    ensures { result ≡ textNumber script.now start end }
{
    entry::text::text_number(script, start, end)
}

#[unsafe(no_mangle)]
pub extern "C" fn ergo_read_roll(roll: &[u8], answer: &mut [u8]) -> u32
    ensures answer_after { told result answer.new ≡ rollTold roll.now answer.old }
    ensures roll_theorems { RollTheorems roll.now }
{
    rolls::host::answer_roll(roll, answer)
}

#[unsafe(no_mangle)]
pub extern "C" fn ergo_read_record(roll: &[u8], at: u32, previous: u32, answer: &mut [u8]) -> u32
    ensures answer_after { told result answer.new ≡ recordTold roll.now at previous answer.old }
    ensures roll_theorems { RollTheorems roll.now }
{
    rolls::host::answer_record(roll, at, previous, answer)
}

#[unsafe(no_mangle)]
pub extern "C" fn ergo_index_lines(script: &[u8], index: &mut [u32], answer: &mut [u8]) -> u32
    ensures answer_after { seen result index.new answer.new ≡ indexSeen script.now index.old answer.old }
    ensures line_theorems { LineTheorems script.now }
{
    lines::host::index_lines(script, index, answer)
}

#[unsafe(no_mangle)]
pub extern "C" fn ergo_line_column(
    script: &[u8],
    index: &[u32],
    place: u32,
    answer: &mut [u8],
) -> u32
    ensures answer_after { told result answer.new ≡ positionTold script.now index.now place answer.old }
    ensures line_theorems { LineTheorems script.now }
{
    lines::host::line_column(script, index, place, answer)
}

#[cfg(test)]
mod tests;
