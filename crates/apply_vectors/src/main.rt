// Runs the oracle's texts and histories of lists, which it reads from standard input: accepted lists, lent and merged, and every
// refusal at every position of small lists. A case is fifteen lines: original, inserted text, spans, keys, operations, cursors; the
// answer of `apply`, its text and its cursors; the answer of `apply_with_history`, its spans and their text; and the three of the
// diff, which are passed over. `apply_with_all` must give what both give. Each is run in rooms that are ample, in those asked, and in
// those asked with one of them a number too short.
#![tactic(auto)]

use records::{Lent, List, Tokens};
use vectors::Tally;

mod all;
mod history;
mod rooms;
mod text;

use history::History;
use text::Text;

fn main() {
    let mut space = [0u8; 196608];
    let n = io::read_full(0, &mut space);
    replay(&space[..n]);
}

fn replay(bytes: &[u8]) {
    let mut text = Tally::default();
    let mut history = Tally::default();
    let mut all = Tally::default();
    vectors::each_case(bytes.len(), |at| {
        let case = case_at(bytes, at);
        text = text.with(case.text);
        history = history.with(case.history);
        all = all.with(case.all);
        case.next
    });
    vectors::report(b"apply", text);
    vectors::report(b"apply_with_history", history);
    vectors::report(b"apply_with_all", all);
}

// Whether each call gives the case's answer, and the offset behind the case.
#[derive(Clone, Copy)]
struct Case {
    text: bool,
    history: bool,
    all: bool,
    next: usize,
}

fn case_at(bytes: &[u8], at: usize) -> Case {
    let mut original = [0u32; 1280];
    let mut text = [0u32; 1280];
    let mut spans = [0u32; 1280];
    let mut keys = [0u32; 1280];
    let original_line = vectors::numbers(bytes, at, &mut original);
    let text_line = vectors::numbers(bytes, original_line.next, &mut text);
    let spans_line = vectors::numbers(bytes, text_line.next, &mut spans);
    let keys_line = vectors::numbers(bytes, spans_line.next, &mut keys);
    let lent = Lent {
        original: original_line.numbers,
        text: text_line.numbers,
        tokens: Tokens {
            spans: spans_line.numbers,
            keys: keys_line.numbers,
        },
    };
    list_at(bytes, keys_line.next, lent)
}

fn list_at(bytes: &[u8], at: usize, lent: Lent) -> Case {
    let mut operations = [0usize; 1280];
    let mut cursors = [0usize; 1280];
    let operations_line = vectors::numbers(bytes, at, &mut operations);
    let cursors_line = vectors::numbers(bytes, operations_line.next, &mut cursors);
    let list = List {
        operations: operations_line.numbers,
        cursors: cursors_line.numbers,
    };
    answers_at(bytes, cursors_line.next, lent, list)
}

fn answers_at(bytes: &[u8], at: usize, lent: Lent, list: List) -> Case {
    let mut words = [0u32; 1280];
    let mut moved = [0usize; 1280];
    let mut spans = [0usize; 1280];
    let mut told = [0u32; 1280];
    let applied = vectors::due_at(bytes, at);
    let words_line = vectors::numbers(bytes, applied.next, &mut words);
    let moved_line = vectors::numbers(bytes, words_line.next, &mut moved);
    let counted = vectors::due_at(bytes, moved_line.next);
    let spans_line = vectors::numbers(bytes, counted.next, &mut spans);
    let told_line = vectors::numbers(bytes, spans_line.next, &mut told);
    let text = Text {
        due: applied.due,
        words: words_line.numbers,
        moved: moved_line.numbers,
    };
    let history = History {
        due: counted.due,
        spans: spans_line.numbers,
        told: told_line.numbers,
    };
    Case {
        text: text::agrees(lent, list, text),
        history: history::agrees(lent, list.operations, history),
        all: all::agrees(lent, list, text, history),
        next: vectors::behind(bytes, told_line.next, 3),
    }
}
