// Reads the oracle's edit files, from standard input: the paper's own, every rule broken, numbers of 1 to 40 digits, every size at its
// limit and one past it. A case is seven lines: the file; the answer `0 items points` or `8 line`; the text; the items; originals' lengths,
// each with 1 where the file is believed for it and 0 where not; the line charged to each proper beginning of the file, and to the file with
// each of its bits flipped, 0 where that is accepted. File, text and items are in pieces; the last two lines are empty in most cases.
#![tactic(auto)]

use item_records::Counts;
use marked::Mark;
use refusal::Refusal;
use vectors::{Due, Tally};

fn main() {
    let mut space = [0u8; 262144];
    let n = io::read_full(0, &mut space);
    run(&space[..n]);
}

// The four kinds of cases.
#[derive(Clone, Copy, Default)]
struct Tallies {
    read: Tally,
    believed: Tally,
    beginnings: Tally,
    flips: Tally,
}

fn run(bytes: &[u8]) {
    let mut file = [0u8; 327680];
    let mut text = [0u32; 131072];
    let mut items = [0i64; 327680];
    let mut tallies = Tallies::default();
    vectors::each_case(bytes.len(), |at| {
        let turn = turn_at(bytes, at, tallies, &mut file, &mut text, &mut items);
        tallies = turn.tallies;
        turn.next
    });
    tell(tallies);
}

fn tell(tallies: Tallies) {
    vectors::report(b"edit files", tallies.read);
    vectors::report(b"believed", tallies.believed);
    vectors::report(b"beginnings", tallies.beginnings);
    vectors::report(b"flipped bits", tallies.flips);
}

// The counts with a case's, and the offset behind it.
#[derive(Clone, Copy)]
struct Turn {
    tallies: Tallies,
    next: usize,
}

fn turn_at(
    bytes: &[u8],
    at: usize,
    tallies: Tallies,
    file: &mut [u8],
    text: &mut [u32],
    items: &mut [i64],
) -> Turn {
    let case = edit_vectors::case_at(bytes, at, file, text, items);
    let agrees = reads(case.file, case.due, case.items, case.text);
    let tallies = Tallies {
        read: tallies.read.with(agrees),
        ..tallies
    };
    more_at(bytes, case.next, tallies, case.file)
}

// The three lines after the first four.
fn more_at(bytes: &[u8], at: usize, tallies: Tallies, file: &[u8]) -> Turn {
    let mut lengths = [0usize; 1024];
    let lengths_line = vectors::numbers(bytes, at, &mut lengths);
    let mut ends = [0usize; 1024];
    let ends_line = vectors::numbers(bytes, lengths_line.next, &mut ends);
    let mut bits = [0usize; 1024];
    let bits_line = vectors::numbers(bytes, ends_line.next, &mut bits);
    Turn {
        tallies: Tallies {
            believed: believes(file, lengths_line.numbers, tallies.believed),
            beginnings: begins(file, ends_line.numbers, tallies.beginnings),
            flips: flips(file, bits_line.numbers, tallies.flips),
            ..tallies
        },
        next: bits_line.next,
    }
}

// Whether the calls give what is due, in rooms that are longer, just long enough and one short.
fn reads(file: &[u8], due: Due, items: &[i64], text: &[u32]) -> bool {
    let i = items.len();
    let t = text.len();
    if !is_due(edit_read::read_lengths(file), due) {
        return false;
    }
    if !leaves(file, i, t, due, items, text) {
        return false;
    }
    if i > 24576 || t > 131070 {
        return false;
    }
    if !leaves(file, i + 3, t + 1, due, items, text) {
        return false;
    }
    if due.is_refusal() {
        return true;
    }
    let short = Due::from(Refusal::Room);
    if i > 0 && !leaves(file, i - 1, t, short, &[], &[]) {
        return false;
    }
    t == 0 || leaves(file, i, t - 1, short, &[], &[])
}

// Whether reading into rooms of these lengths gives what is due, and leaves these items and this text and nothing else.
fn leaves(
    file: &[u8],
    items_lent: usize,
    text_lent: usize,
    due: Due,
    items: &[i64],
    text: &[u32],
) -> bool {
    let mut items_room = [i64::MARK; 24584];
    let mut text_room = [u32::MARK; 131080];
    let answer = lend(file, items_lent, text_lent, &mut items_room, &mut text_room);
    is_due(answer, due) && marked::holds(&items_room, items) && marked::holds(&text_room, text)
}

// Reading into the beginnings of rooms.
fn lend(
    file: &[u8],
    items_lent: usize,
    text_lent: usize,
    items: &mut [i64],
    text: &mut [u32],
) -> Result<Counts, Refusal> {
    match (items.get_mut(..items_lent), text.get_mut(..text_lent)) {
        (Some(items), Some(text)) => edit_read::read(file, items, text),
        _ => Ok(Counts { items: 0, text: 0 }),
    }
}

fn is_due(answer: Result<Counts, Refusal>, due: Due) -> bool {
    due.is_answer(answer.map(|read| [read.items, read.text]))
}

fn believes(file: &[u8], lengths: &[usize], tally: Tally) -> Tally {
    let mut now = tally;
    for pair in lengths.chunks_exact(2) {
        if let [length, due] = pair {
            now = now.with(edit_read::believed(file, *length) == (*due == 1));
        }
    }
    now
}

// Whether a file is charged the line, with both rooms as they were; or, where the line is 0, accepted.
fn is_charged(file: &[u8], line: usize) -> bool {
    if line == 0 {
        return edit_read::read_lengths(file).is_ok();
    }
    reads(file, Due::from(Refusal::Line { line }), &[], &[])
}

fn begins(file: &[u8], lines: &[usize], tally: Tally) -> Tally {
    let mut now = tally;
    for (i, line) in lines.iter().enumerate() {
        let Some(beginning) = file.get(..i) else {
            return now;
        };
        now = now.with(is_charged(beginning, *line));
    }
    now
}

// The bits of the first byte come first, the lowest first.
fn flips(file: &[u8], lines: &[usize], tally: Tally) -> Tally {
    let mut now = tally;
    for (i, line) in lines.iter().enumerate() {
        now = now.with(is_flipped(file, i, *line));
    }
    now
}

// Whether a small file with one of its bits flipped is charged the line.
fn is_flipped(file: &[u8], i: usize, line: usize) -> bool {
    let place = i / 8;
    let mut room = [0u8; 128];
    let size = file.len();
    if size > 128 || size <= place {
        return false;
    }
    let flipped = &mut room[..size];
    flipped.copy_from_slice(file);
    flipped[place] ^= 1 << (i % 8);
    is_charged(flipped, line)
}
