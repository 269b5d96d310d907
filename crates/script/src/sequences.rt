// Byte sequences of a table, and how far they follow one another.
ghost use Rattle.std.specs.Prelude.{◌≡◌, ℕ, ◌+◌, ◌<◌, ◌≤◌, ◌||◌, List, ◌∷◌, length, replicate, if◌then◌else◌};
ghost use Rattle.script.specs.Sequences.{Row, ◌⋯◌, holds, stands, sequence, run_end};
ghost use Rattle.script.specs.Utf8Table.{continuing, utf8};
ghost use Rattle.script.specs.WhiteTable.{white};

// A table of byte sequences.
pub(crate) trait Table {
    ghost rows: { Self → List Row };

    // The length of the sequence that begins at the place, or 0.
    fn sequence_len(&self, bytes: &[u8], at: usize) -> usize
        ensures { result ≡ sequence (rows self.now) bytes.now at };
}

// The well-formed sequences of UTF-8.
#[derive(Clone, Copy)]
pub(crate) struct Utf8;

impl Table for Utf8 {
    ghost rows = { λ _. utf8 };

    fn sequence_len(&self, bytes: &[u8], at: usize) -> usize {
        match bytes.get(at) {
            Some(0x00..=0x7F) => 1,
            Some(0xC2..=0xDF) => led::<0>(bytes, at + 1, 0x80, 0xBF),
            Some(0xE0) => led::<1>(bytes, at + 1, 0xA0, 0xBF),
            Some(0xE1..=0xEC) => led::<1>(bytes, at + 1, 0x80, 0xBF),
            Some(0xED) => led::<1>(bytes, at + 1, 0x80, 0x9F),
            Some(0xEE..=0xEF) => led::<1>(bytes, at + 1, 0x80, 0xBF),
            Some(0xF0) => led::<2>(bytes, at + 1, 0x90, 0xBF),
            Some(0xF1..=0xF3) => led::<2>(bytes, at + 1, 0x80, 0xBF),
            Some(0xF4) => led::<2>(bytes, at + 1, 0x80, 0x8F),
            _ => 0,
        }
    }
}

// The white-space characters.
#[derive(Clone, Copy)]
pub(crate) struct White;

impl Table for White {
    ghost rows = { λ _. white };

    fn sequence_len(&self, bytes: &[u8], at: usize) -> usize {
        match bytes.get(at) {
            Some(0x09..=0x0D | 0x20) => 1,
            Some(0xC2) => led::<0>(bytes, at + 1, 0x85, 0x85),
            Some(0xE2) if in_range(bytes, at + 1, 0x80, 0x80) => white_mark(bytes, at + 2),
            _ => 0,
        }
    }
}

// The length of the characters U+200E, U+200F, U+2028 and U+2029, whose last byte stands at `last`; else 0.
fn white_mark(bytes: &[u8], last: usize) -> usize
    ensures { result ≡ (if holds (0x8E ⋯ 0x8F) bytes.now last || holds (0xA8 ⋯ 0xA9) bytes.now last then 3 else 0) }
{
    match bytes.get(last) {
        Some(0x8E..=0x8F | 0xA8..=0xA9) => 3,
        _ => 0,
    }
}

// Where the sequences of the table that follow one another from `from` on end. Each step is as long as what was found,
// and no iterator of the library steps so.
pub(crate) fn run_end<T: Table>(table: &T, bytes: &[u8], from: usize) -> usize
    ensures { result ≡ run_end (T.rows table.now) bytes.now from }
{
    let mut at = from;
    loop {
        let len = table.sequence_len(bytes, at);
        if len == 0 {
            return at;
        }
        at += len;
    }
}

// Whether a byte of the range stands at the place.
fn in_range(bytes: &[u8], at: usize, low: u8, high: u8) -> bool
    ensures { result ≡ holds (low ⋯ high) bytes.now at }
{
    bytes
        .get(at)
        .is_some_and(|byte| (low..=high).contains(byte))
}

// The length of the sequence whose first byte stands before `next`: there follow a byte of the range and then
// MORE that continue the sequence; else 0.
fn led<const MORE: usize>(bytes: &[u8], next: usize, low: u8, high: u8) -> usize
    requires { (next ≤ length bytes.now) × (MORE < 3) }
    ensures { result ≡ (if stands ((low ⋯ high) ∷ replicate MORE continuing) bytes.now next then MORE + 2 else 0) }
{
    if !in_range(bytes, next, low, high) {
        return 0;
    }
    for i in 0..MORE {
        if !in_range(bytes, next + 1 + i, 0x80, 0xBF) {
            return 0;
        }
    }
    MORE + 2
}
