// Runs the oracle's diffs of lists, which it reads from standard input: accepted lists, lent and merged, and every refusal at every
// position of small lists. A case is fifteen lines: original, inserted text, spans, keys, operations; seven on cursors, text and
// history, which are passed over; the answer of `to_diff`, its items and their text. Each is run in rooms that are ample, in those
// asked, and in those asked with one of them a number too short.
#![tactic(auto)]

use item_records::Counts;
use marked::Mark;
use records::{Lent, Tokens};
use refusal::Refusal;
use vectors::{Case, Due};

const AMPLE: usize = 2048;

// What is due of a call: its answer, and what its rooms begin with.
#[derive(Clone, Copy)]
struct Diff<'a> {
    due: Due,
    items: &'a [i64],
    words: &'a [u32],
}

// A list's operations over what is lent.
#[derive(Clone, Copy)]
struct Edit<'a> {
    lent: Lent<'a>,
    operations: &'a [usize],
}

fn main() {
    let mut space = [0u8; 196608];
    let n = io::read_full(0, &mut space);
    let bytes = &space[..n];
    vectors::replay(b"to_diff", n, |at| case_at(bytes, at));
}

fn case_at(bytes: &[u8], at: usize) -> Case {
    let mut original = [0u32; 1024];
    let mut text = [0u32; 1024];
    let mut spans = [0u32; 1024];
    let mut keys = [0u32; 1024];
    let original_line = vectors::numbers(bytes, at, &mut original);
    let text_line = vectors::numbers(bytes, original_line.next, &mut text);
    let spans_line = vectors::numbers(bytes, text_line.next, &mut spans);
    let keys_line = vectors::numbers(bytes, spans_line.next, &mut keys);
    let lent = Lent {
        original: original_line.numbers,
        text: text_line.numbers,
        tokens: Tokens {
            spans: spans_line.numbers,
            keys: keys_line.numbers,
        },
    };
    edit_at(bytes, keys_line.next, lent)
}

fn edit_at(bytes: &[u8], at: usize, lent: Lent) -> Case {
    let mut operations = [0usize; 2048];
    let mut items = [0i64; 1024];
    let mut words = [0u32; 2048];
    let operations_line = vectors::numbers(bytes, at, &mut operations);
    let answer = vectors::due_at(bytes, vectors::behind(bytes, operations_line.next, 7));
    let items_line = vectors::numbers(bytes, answer.next, &mut items);
    let words_line = vectors::numbers(bytes, items_line.next, &mut words);
    let edit = Edit {
        lent,
        operations: operations_line.numbers,
    };
    let diff = Diff {
        due: answer.due,
        items: items_line.numbers,
        words: words_line.numbers,
    };
    Case {
        agrees: edit.agrees(diff),
        next: words_line.next,
    }
}

impl<'a> Edit<'a> {
    // Refusals 3, 4, 1 and 2 come with rooms of any length, refusal 7 with a room that is one number too short, and rooms of the lengths
    // asked are enough. A refused case asks none.
    fn agrees(self, diff: Diff) -> bool {
        let items = diff.items.len();
        let words = diff.words.len();
        is_due(
            to_diff::to_diff_lengths(self.lent, self.operations),
            diff.due,
        ) && self.gives(AMPLE, AMPLE, diff)
            && self.gives(items, words, diff)
            && (items == 0 || self.refuses(items.saturating_sub(1), words))
            && (words == 0 || self.refuses(items, words.saturating_sub(1)))
    }

    fn refuses(self, items: usize, words: usize) -> bool {
        let nothing = Diff {
            due: Due::from(Refusal::Room),
            items: &[],
            words: &[],
        };
        self.gives(items, words, nothing)
    }

    // Whether the call in rooms of these lengths gives what is due.
    fn gives(self, items: usize, words: usize, diff: Diff) -> bool {
        let mut items_room = [i64::MARK; AMPLE];
        let mut words_room = [u32::MARK; AMPLE];
        let items_lent = &mut items_room[..items.min(AMPLE)];
        let words_lent = &mut words_room[..words.min(AMPLE)];
        let answer = to_diff::to_diff(self.lent, self.operations, items_lent, words_lent);
        is_due(answer, diff.due)
            && marked::holds(items_lent, diff.items)
            && marked::holds(words_lent, diff.words)
    }
}

fn is_due(answer: Result<Counts, Refusal>, due: Due) -> bool {
    due.is_answer(answer.map(|n| [n.items, n.text]))
}
