// Reads every string of one byte and then every string of two, each in the order of its numbers, and compares with
// the oracle's answers, from standard input. These stand there as runs of three lines: how many strings, the answer
// `0 count` or `10 offset`, and the code points of the first; from each string to the next the last one goes up by one.
#![tactic(auto)]

use vectors::{Due, Tally};

fn main() {
    let mut space = io::large_buffer();
    let n = io::read_full(0, &mut space);
    replay(b"utf8 pairs", &space[..n]);
}

fn replay(name: &[u8], bytes: &[u8]) {
    let mut tally = Tally::default();
    let mut index: usize = 0;
    vectors::each_case(bytes.len(), |at| {
        let run = run_at(bytes, at, index, tally);
        tally = run.tally;
        index = run.index;
        run.next
    });
    vectors::report(name, tally);
}

// The count with the strings of a run, the index of the string behind it, and the offset behind its lines.
#[derive(Clone, Copy)]
struct Run {
    tally: Tally,
    index: usize,
    next: usize,
}

fn run_at(bytes: &[u8], at: usize, index: usize, tally: Tally) -> Run {
    let mut strings = [0usize; 1];
    let strings_line = vectors::numbers(bytes, at, &mut strings);
    let answer = vectors::due_at(bytes, strings_line.next);
    let mut points = [0u32; 2];
    let points_line = vectors::numbers(bytes, answer.next, &mut points);
    let count = points_line.numbers.len();
    let next = points_line.next;
    let none = Run { tally, index, next };
    run_of(none, strings[0], answer.due, &mut points[..count])
}

// A run with so many strings more.
fn run_of(before: Run, strings: usize, due: Due, points: &mut [u32]) -> Run {
    let mut run = before;
    'strings: for _ in 0..strings {
        run.tally = run.tally.with(string_agrees(run.index, due, points));
        raise(points);
        run.index = run.index.wrapping_add(1);
    }
    run
}

// The last code point becomes the next one.
fn raise(points: &mut [u32]) {
    if let Some(last) = points.last_mut() {
        *last = last.wrapping_add(1);
    }
}

fn low(n: usize) -> u8 {
    (n % 256) as u8
}

// Whether the string of an index, 256 of one byte being first, is read as it should be.
fn string_agrees(index: usize, due: Due, points: &[u32]) -> bool {
    if index < 256 {
        let one = [low(index)];
        return agrees(&one, due, points);
    }
    let string = index - 256;
    let two = [low(string / 256), low(string)];
    agrees(&two, due, points)
}

fn agrees(bytes: &[u8], due: Due, points: &[u32]) -> bool {
    let mut room = [0u32; 2];
    due.is_answer(utf8::read_length(bytes).map(|n| [n]))
        && due.is_answer(utf8::read(bytes, &mut room).map(|n| [n]))
        && room.starts_with(points)
}
