// Checks the oracle's lists, which it reads from standard input: accepted ones, and every refusal at
// every position of small lists. A case is ten lines: 2 for the two lists of a merge or 1 for one list
// otherwise, original, inserted text, spans, keys, left operations, right operations, left cursors,
// right cursors, and the verdict: 0, or a refusal's number and values.
#![tactic(auto)]

use records::{Lent, List, Tokens};
use vectors::Case;

fn main() {
    let mut space = [0u8; 131072];
    let n = io::read_full(0, &mut space);
    let bytes = &space[..n];
    vectors::replay(b"checks", n, |at| case_at(bytes, at));
}

fn case_at(bytes: &[u8], at: usize) -> Case {
    let mut lists = [0usize; 1];
    let mut original = [0u32; 64];
    let mut text = [0u32; 64];
    let mut spans = [0u32; 64];
    let mut keys = [0u32; 64];
    let lists_line = vectors::numbers(bytes, at, &mut lists);
    let original_line = vectors::numbers(bytes, lists_line.next, &mut original);
    let text_line = vectors::numbers(bytes, original_line.next, &mut text);
    let spans_line = vectors::numbers(bytes, text_line.next, &mut spans);
    let keys_line = vectors::numbers(bytes, spans_line.next, &mut keys);
    let lent = Lent {
        original: original_line.numbers,
        text: text_line.numbers,
        tokens: Tokens {
            spans: spans_line.numbers,
            keys: keys_line.numbers,
        },
    };
    lists_at(bytes, keys_line.next, lists[0] == 2, lent)
}

fn lists_at(bytes: &[u8], at: usize, merging: bool, lent: Lent) -> Case {
    let mut left = [0usize; 64];
    let mut right = [0usize; 64];
    let mut left_cursors = [0usize; 64];
    let mut right_cursors = [0usize; 64];
    let left_line = vectors::numbers(bytes, at, &mut left);
    let right_line = vectors::numbers(bytes, left_line.next, &mut right);
    let left_cursors_line = vectors::numbers(bytes, right_line.next, &mut left_cursors);
    let right_cursors_line = vectors::numbers(bytes, left_cursors_line.next, &mut right_cursors);
    let left_list = List {
        operations: left_line.numbers,
        cursors: left_cursors_line.numbers,
    };
    let right_list = List {
        operations: right_line.numbers,
        cursors: right_cursors_line.numbers,
    };
    let answer = vectors::due_at(bytes, right_cursors_line.next);
    let verdict = if merging {
        checks::check_lists(sizes::merging_limits(), lent, left_list, right_list)
    } else {
        checks::check_list(sizes::other_limits(), lent, left_list)
    };
    Case {
        agrees: answer.due.is_answer(verdict.map(|_| [])),
        next: answer.next,
    }
}
