// Merges the oracle's lists, which it reads from standard input: accepted ones, then refused ones. A case
// is eleven lines: original, inserted text, spans, keys, left operations, right operations, left cursors,
// right cursors, the answer, and what the rooms for operations and cursors then begin with. The answer is
// `0 operations cursors`, or a refusal's number and values. Past what is due a room keeps its marks.
#![tactic(auto)]

use records::{Lent, List, Tokens};
use vectors::Case;

mod rooms;

use rooms::Pair;

fn main() {
    let mut space = [0u8; 393216];
    let n = io::read_full(0, &mut space);
    let bytes = &space[..n];
    vectors::replay(b"merge", n, |at| case_at(bytes, at));
}

fn case_at(bytes: &[u8], at: usize) -> Case {
    let mut original = [0u32; 1024];
    let mut text = [0u32; 1024];
    let mut spans = [0u32; 1024];
    let mut keys = [0u32; 1024];
    let original_line = vectors::numbers(bytes, at, &mut original);
    let text_line = vectors::numbers(bytes, original_line.next, &mut text);
    let spans_line = vectors::numbers(bytes, text_line.next, &mut spans);
    let keys_line = vectors::numbers(bytes, spans_line.next, &mut keys);
    let lent = Lent {
        original: original_line.numbers,
        text: text_line.numbers,
        tokens: Tokens {
            spans: spans_line.numbers,
            keys: keys_line.numbers,
        },
    };
    lists_at(bytes, keys_line.next, lent)
}

fn lists_at(bytes: &[u8], at: usize, lent: Lent) -> Case {
    let mut left = [0usize; 1024];
    let mut right = [0usize; 1024];
    let mut left_cursors = [0usize; 1024];
    let mut right_cursors = [0usize; 1024];
    let left_line = vectors::numbers(bytes, at, &mut left);
    let right_line = vectors::numbers(bytes, left_line.next, &mut right);
    let left_cursors_line = vectors::numbers(bytes, right_line.next, &mut left_cursors);
    let right_cursors_line = vectors::numbers(bytes, left_cursors_line.next, &mut right_cursors);
    let pair = Pair {
        lent,
        left: List {
            operations: left_line.numbers,
            cursors: left_cursors_line.numbers,
        },
        right: List {
            operations: right_line.numbers,
            cursors: right_cursors_line.numbers,
        },
    };
    answer_at(bytes, right_cursors_line.next, pair)
}

fn answer_at(bytes: &[u8], at: usize, pair: Pair) -> Case {
    let mut operations = [0usize; 2048];
    let mut cursors = [0usize; 1024];
    let answer = vectors::due_at(bytes, at);
    let operations_line = vectors::numbers(bytes, answer.next, &mut operations);
    let cursors_line = vectors::numbers(bytes, operations_line.next, &mut cursors);
    let merged = List {
        operations: operations_line.numbers,
        cursors: cursors_line.numbers,
    };
    Case {
        agrees: pair.agrees(answer.due, merged),
        next: cursors_line.next,
    }
}
