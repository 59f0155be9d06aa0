// Runs the bench sheets of the overlap and the oracle's overlaps, which it reads from standard input: accepted ones, then refused ones. A
// case is three lines: old keys, new keys, and the answer, `0 start end` or a refusal's number. Each is run with a work room that is
// ample, with the one asked, and with one a number too short.
#![tactic(auto)]

use marked::Mark;
use overlap::find_longest_prefix_contained_within::find_longest_prefix_contained_within;
use refusal::Refusal;
use vectors::{Case, Due};

fn main() {
    replay(
        b"overlap sheets",
        b"0 1 9 0 2 5\n9 0 2 5 1\n0 2 6\n0 1 9 0 2 5\n0 2\n0 3 5\n0 1 9 0 2 5\n0 4\n0 0 1\n0 1 9 0 2 5\n\n0 0 0\n",
    );
    let mut space = io::large_buffer();
    let n = io::read_full(0, &mut space);
    replay(b"overlap", &space[..n]);
}

fn replay(name: &[u8], bytes: &[u8]) {
    vectors::replay(name, bytes.len(), |at| case_at(bytes, at));
}

// The rooms have one key more than a refused case.
fn case_at(bytes: &[u8], at: usize) -> Case {
    let mut old = [0u32; 8194];
    let mut new = [0u32; 8194];
    let old_line = vectors::numbers(bytes, at, &mut old);
    let new_line = vectors::numbers(bytes, old_line.next, &mut new);
    let answer = vectors::due_at(bytes, new_line.next);
    Case {
        agrees: agrees(old_line.numbers, new_line.numbers, answer.due),
        next: answer.next,
    }
}

// Refusal 3 comes with a work room of any length, refusal 7 with one that is a number too short, and one as long as new is enough.
fn agrees(old: &[u32], new: &[u32], due: Due) -> bool {
    if !gives(old, new, 8194, due) {
        return false;
    }
    if due.is_refusal() {
        return gives(old, new, 0, due);
    }
    if !gives(old, new, new.len(), due) {
        return false;
    }
    new.len() == 0
        || gives(
            old,
            new,
            new.len().saturating_sub(1),
            Due::from(Refusal::Room),
        )
}

// Whether the call with a work room of this length gives what is due.
fn gives(old: &[u32], new: &[u32], lent: usize, due: Due) -> bool {
    let mut work = [u32::MARK; 8194];
    let w = std::cmp::min(lent, 8194);
    gives_in(old, new, due, &mut work[..w])
}

// Of the work room only a refusal promises what it holds.
fn gives_in(old: &[u32], new: &[u32], due: Due, work: &mut [u32]) -> bool {
    let found = find_longest_prefix_contained_within(old, new, work);
    due.is_answer(found.map(|range| [range.start, range.end]))
        && (!due.is_refusal() || marked::holds(work, &[]))
}
