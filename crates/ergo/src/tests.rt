// Each export once where it succeeds, where it refuses a block of another length, and with nothing lent. What is expected is as the pages for hosts
// have it: docs/RECORDS.md, docs/HOSTS.md and the header.
use super::*;

// The records of the script `7`: an IntLit and Eof.
const SEVEN: [u8; 30] = [
    0x11, 0, 4, 0, 0, 0, 0, 0, 1, 0, 0, 0, 0, 7, 0, 0, 0, 0x0D, 0, 0x12, 0, 1, 0, 0, 0, 1, 0, 0, 0,
    0,
];

// `a` CR LF `b` LF: three lines.
const TWO_ENDS: [u8; 5] = *b"a\r\nb\n";

#[test]
fn tokenizes(rt: HostRuntime) {
    let mut records = [9u8; 31];
    let mut answer = [9u8; 16];
    assert_eq!(rt; ergo_tokenize(b"7", &mut records, &mut answer), 0);
    assert_eq!(rt; answer, [0, 0, 0, 0, 0, 0, 0, 0, 2, 0, 0, 0, 30, 0, 0, 0]);
    // One more was lent, and keeps its value.
    assert_eq!(rt;
        records,
        [
            0x11, 0, 4, 0, 0, 0, 0, 0, 1, 0, 0, 0, 0, 7, 0, 0, 0, 0x0D, 0, 0x12, 0, 1, 0, 0, 0, 1,
            0, 0, 0, 0, 9,
        ]
    );
}

#[test]
fn needs_more(rt: HostRuntime) {
    let mut answer = [9u8; 16];
    assert_eq!(rt; ergo_tokenize(b"a", &mut [], &mut answer), 19);
    assert_eq!(rt; answer, [19, 0, 0, 0, 0, 0, 0, 0, 2, 0, 0, 0, 26, 0, 0, 0]);
}

// `7 8L "a"` and a line end: with Eof five tokens, of which four have values. The block keeps nothing that it had.
#[test]
fn measures(rt: HostRuntime) {
    let script = b"7 8L \"a\"\n";
    let mut records = [9u8; 86];
    let mut need = [9u8; 32];
    let mut answer = [9u8; 16];
    assert_eq!(rt; ergo_measure(script, &mut need), 0);
    assert_eq!(rt;
        need,
        [
            0, 0, 0, 0, 0, 0, 0, 0, 5, 0, 0, 0, 86, 0, 0, 0, 1, 0, 0, 0, 1, 0, 0, 0, 1, 0, 0, 0, 1,
            0, 0, 0,
        ]
    );
    assert_eq!(rt; ergo_tokenize(script, &mut records[..85], &mut answer), 19);
    assert_eq!(rt; ergo_tokenize(script, &mut records, &mut answer), 0);
}

#[test]
fn measures_refused(rt: HostRuntime) {
    let mut need = [9u8; 32];
    assert_eq!(rt; ergo_measure(b"7 \"", &mut need), 7);
    assert_eq!(rt;
        need,
        [
            7, 0, 0, 0, 3, 0, 0, 0, 0, 0, 0, 0, 0, 0, 0, 0, 0, 0, 0, 0, 0, 0, 0, 0, 0, 0, 0, 0, 0,
            0, 0, 0,
        ]
    );
    let mut short = [9u8; 31];
    assert_eq!(rt; ergo_measure(b"7", &mut short), 20);
    assert_eq!(rt; short, [9u8; 31]);
}

#[test]
fn tokenizes_nothing(rt: HostRuntime) {
    let mut records = [9u8; 13];
    let mut answer = [9u8; 16];
    assert_eq!(rt; ergo_tokenize(&[], &mut [], &mut answer), 19);
    assert_eq!(rt; answer, [19, 0, 0, 0, 0, 0, 0, 0, 1, 0, 0, 0, 13, 0, 0, 0]);
    assert_eq!(rt; ergo_tokenize(&[], &mut records, &mut answer), 0);
    assert_eq!(rt; answer, [0, 0, 0, 0, 0, 0, 0, 0, 1, 0, 0, 0, 13, 0, 0, 0]);
    assert_eq!(rt; records, [0x0D, 0, 0x12, 0, 0, 0, 0, 0, 0, 0, 0, 0, 0]);
}

// `//` and U+202E, a direction mark: refused by all that tokenize or measure, and its line can be told.
#[test]
fn refuses_mark(rt: HostRuntime) {
    let script = b"//\xE2\x80\xAE";
    let told = [29, 0, 0, 0, 2, 0, 0, 0, 0, 0, 0, 0, 0, 0, 0, 0];
    let mut records = [9u8; 26];
    let mut answer = [9u8; 16];
    assert_eq!(rt; ergo_tokenize(script, &mut records, &mut answer), 29);
    assert_eq!(rt; answer, told);
    assert_eq!(rt;
        ergo_tokenize_contact(script, &mut records, &mut answer),
        29
    );
    assert_eq!(rt; answer, told);
    assert_eq!(rt; records, [9u8; 26]);
    let mut need = [9u8; 32];
    assert_eq!(rt; ergo_measure(script, &mut need), 29);
    assert_eq!(rt; &need[..16], &told[..]);
    let mut index = [9u32; 1];
    assert_eq!(rt; ergo_index_lines(script, &mut index, &mut answer), 0);
    assert_eq!(rt; index, [0u32; 1]);
}

// A contact may have 512 tokens, Eof included, and 4,096 bytes.
#[test]
fn tokenizes_contact(rt: HostRuntime) {
    let commas = [b','; 511];
    let mut records = [9u8; 6670];
    let mut answer = [9u8; 16];
    assert_eq!(rt; ergo_tokenize_contact(&commas, &mut [], &mut answer), 19);
    assert_eq!(rt;
        ergo_tokenize_contact(&commas, &mut records, &mut answer),
        0
    );
    assert_eq!(rt; answer, [0, 0, 0, 0, 0, 0, 0, 0, 0, 2, 0, 0, 0, 26, 0, 0]);
    // Eof, and the 14 bytes more that were lent.
    assert_eq!(rt;
        &records[6643..6656],
        &[0x0D, 0, 0x12, 0, 0xFF, 1, 0, 0, 0xFF, 1, 0, 0, 0][..]
    );
    assert_eq!(rt; &records[6656..], &[9u8; 14][..]);
    assert_eq!(rt;
        ergo_tokenize_contact(&[b' '; 4096], &mut records, &mut answer),
        0
    );
}

// With one more of either it is refused, and the compiler takes it.
#[test]
fn refuses_contact(rt: HostRuntime) {
    let commas = [b','; 512];
    let spaces = [b' '; 4097];
    let mut records = [9u8; 6670];
    let mut answer = [9u8; 16];
    assert_eq!(rt;
        ergo_tokenize_contact(&commas, &mut records, &mut answer),
        28
    );
    assert_eq!(rt; answer, [28, 0, 0, 0, 0, 0, 0, 0, 0, 0, 0, 0, 0, 0, 0, 0]);
    assert_eq!(rt; ergo_tokenize_contact(&commas, &mut [], &mut answer), 28);
    assert_eq!(rt;
        ergo_tokenize_contact(&spaces, &mut records, &mut answer),
        27
    );
    assert_eq!(rt; answer, [27, 0, 0, 0, 0, 0, 0, 0, 0, 0, 0, 0, 0, 0, 0, 0]);
    assert_eq!(rt; ergo_tokenize_contact(&commas, &mut records, &mut []), 20);
    assert_eq!(rt; records, [9; 6670]);
    assert_eq!(rt; ergo_tokenize(&spaces, &mut records, &mut answer), 0);
    assert_eq!(rt; ergo_tokenize(&commas, &mut records, &mut answer), 0);
}

#[test]
fn encloses_text(rt: HostRuntime) {
    assert_eq!(rt; ergo_token_text(b"ab", 1, 2), 0);
    assert_eq!(rt; ergo_token_text(b"ab", 1, 3), 21);
    assert_eq!(rt; ergo_token_text(&[], 0, 0), 0);
    assert_eq!(rt; ergo_token_text(&[], 0, 1), 21);
}

#[test]
fn reads_roll(rt: HostRuntime) {
    let mut answer = [9u8; 16];
    assert_eq!(rt; ergo_read_roll(&SEVEN, &mut answer), 0);
    assert_eq!(rt; answer, [0, 0, 0, 0, 0, 0, 0, 0, 2, 0, 0, 0, 30, 0, 0, 0]);
    assert_eq!(rt; ergo_read_roll(&[], &mut answer), 24);
    assert_eq!(rt; answer, [24, 0, 0, 0, 0, 0, 0, 0, 0, 0, 0, 0, 0, 0, 0, 0]);
}

#[test]
fn reads_record(rt: HostRuntime) {
    let mut answer = [9u8; 40];
    assert_eq!(rt; ergo_read_record(&SEVEN, 0, 0, &mut answer), 0);
    assert_eq!(rt;
        answer,
        [
            0, 0, 0, 0, 0, 0, 0, 0, 4, 0, 0, 0, 0, 0, 0, 0, 1, 0, 0, 0, 0, 0, 0, 0, 0, 0, 0, 0, 17,
            0, 0, 0, 7, 0, 0, 0, 0, 0, 0, 0,
        ]
    );
    assert_eq!(rt; ergo_read_record(&SEVEN, 17, 1, &mut answer), 0);
    assert_eq!(rt;
        answer,
        [
            0, 0, 0, 0, 0, 0, 0, 0, 18, 0, 0, 0, 1, 0, 0, 0, 1, 0, 0, 0, 0, 0, 0, 0, 0, 0, 0, 0,
            30, 0, 0, 0, 0, 0, 0, 0, 0, 0, 0, 0,
        ]
    );
    assert_eq!(rt; ergo_read_record(&[], 0, 0, &mut answer), 24);
    assert_eq!(rt; answer[0], 24);
    assert_eq!(rt; &answer[1..], &[0u8; 39][..]);
}

#[test]
fn indexes_lines(rt: HostRuntime) {
    let mut index = [9u32; 4];
    let mut answer = [9u8; 16];
    assert_eq!(rt; ergo_index_lines(&TWO_ENDS, &mut index, &mut answer), 0);
    assert_eq!(rt; answer, [0, 0, 0, 0, 0, 0, 0, 0, 3, 0, 0, 0, 0, 0, 0, 0]);
    assert_eq!(rt; index, [0, 3, 5, 9]);
    assert_eq!(rt; ergo_index_lines(&[], &mut [], &mut answer), 26);
    assert_eq!(rt; answer, [26, 0, 0, 0, 0, 0, 0, 0, 1, 0, 0, 0, 0, 0, 0, 0]);
}

#[test]
fn finds_positions(rt: HostRuntime) {
    let mut answer = [9u8; 16];
    assert_eq!(rt; ergo_line_column(&TWO_ENDS, &[0, 3, 5], 2, &mut answer), 0);
    assert_eq!(rt; answer, [0, 0, 0, 0, 0, 0, 0, 0, 1, 0, 0, 0, 3, 0, 0, 0]);
    assert_eq!(rt; ergo_line_column(&TWO_ENDS, &[0, 3, 5], 5, &mut answer), 0);
    assert_eq!(rt; answer, [0, 0, 0, 0, 0, 0, 0, 0, 3, 0, 0, 0, 1, 0, 0, 0]);
    assert_eq!(rt; ergo_line_column(&[], &[0], 0, &mut answer), 0);
    assert_eq!(rt; answer, [0, 0, 0, 0, 0, 0, 0, 0, 1, 0, 0, 0, 1, 0, 0, 0]);
    assert_eq!(rt; ergo_line_column(&[], &[], 0, &mut answer), 26);
    assert_eq!(rt; answer, [26, 0, 0, 0, 0, 0, 0, 0, 0, 0, 0, 0, 0, 0, 0, 0]);
}

// 20: everything that is lent keeps its values.
#[test]
fn refuses_blocks(rt: HostRuntime) {
    let mut records = [9u8; 30];
    let mut index = [9u32; 3];
    let mut short = [9u8; 15];
    let mut long = [9u8; 39];
    assert_eq!(rt; ergo_tokenize(b"7", &mut records, &mut short), 20);
    assert_eq!(rt; ergo_read_roll(&SEVEN, &mut short), 20);
    assert_eq!(rt; ergo_read_record(&SEVEN, 0, 0, &mut long), 20);
    assert_eq!(rt; ergo_index_lines(&TWO_ENDS, &mut index, &mut short), 20);
    assert_eq!(rt; ergo_line_column(&TWO_ENDS, &[0, 3, 5], 2, &mut short), 20);
    assert_eq!(rt; ergo_tokenize(b"7", &mut records, &mut []), 20);
    assert_eq!(rt; records, [9; 30]);
    assert_eq!(rt; index, [9; 3]);
    assert_eq!(rt; short, [9; 15]);
    assert_eq!(rt; long, [9; 39]);
}
