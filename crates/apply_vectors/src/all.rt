// One list's text, cursors and history by one call.
use crate::history::History;
use crate::rooms::{self, AMPLE, Lengths};
use crate::text::Text;
use apply::WithAll;
use marked::Mark;
use records::{Lent, List};
use refusal::Refusal;
use vectors::Due;

// What is due of `apply_with_all`: the answers of both calls, and what its rooms begin with.
#[derive(Clone, Copy)]
struct All<'a> {
    applied: Due,
    counted: Due,
    words: &'a [u32],
    moved: &'a [usize],
    spans: &'a [usize],
    told: &'a [u32],
}

// Refusals 3, 4, 1, 2 and 5 come with rooms of any length, refusal 7 with a room that is one number too short, and rooms of the lengths
// asked are enough. A refused case asks none.
pub fn agrees<'a>(lent: Lent, list: List, text: Text<'a>, history: History<'a>) -> bool {
    let all = both(text, history);
    let asked = [
        all.words.len(),
        all.moved.len(),
        all.spans.len(),
        all.told.len(),
    ];
    all.is_answer(apply::apply_with_all_lengths(lent, list))
        && rooms::agrees(asked, |lengths, short| {
            if short {
                gives(lent, list, lengths, refused(Due::from(Refusal::Room)))
            } else {
                gives(lent, list, lengths, all)
            }
        })
}

// Where `apply` refuses, by a cursor perhaps, so does `apply_with_all`, and writes no history.
fn both<'a>(text: Text<'a>, history: History<'a>) -> All<'a> {
    let written = if text.due.is_refusal() {
        History {
            spans: &[],
            told: &[],
            ..history
        }
    } else {
        history
    };
    All {
        applied: text.due,
        counted: history.due,
        words: text.words,
        moved: text.moved,
        spans: written.spans,
        told: written.told,
    }
}

// A refusal, with nothing in the rooms.
fn refused<'a>(due: Due) -> All<'a> {
    All {
        applied: due,
        counted: due,
        words: &[],
        moved: &[],
        spans: &[],
        told: &[],
    }
}

// Whether the call in rooms of these lengths gives what is due.
fn gives(lent: Lent, list: List, lengths: Lengths, all: All) -> bool {
    let mut words_room = [u32::MARK; AMPLE];
    let mut moved_room = [usize::MARK; AMPLE];
    let mut spans_room = [usize::MARK; AMPLE];
    let mut told_room = [u32::MARK; AMPLE];
    let [words, moved, spans, told] = lengths;
    let words = &mut words_room[..words.min(AMPLE)];
    let moved = &mut moved_room[..moved.min(AMPLE)];
    let spans = &mut spans_room[..spans.min(AMPLE)];
    let told = &mut told_room[..told.min(AMPLE)];
    all.is_answer(apply::apply_with_all(lent, list, words, moved, spans, told))
        && marked::holds(words, all.words)
        && marked::holds(moved, all.moved)
        && marked::holds(spans, all.spans)
        && marked::holds(told, all.told)
}

impl<'a> All<'a> {
    // Of the history's line its counts alone are asked, as `apply`'s line says whether there is a refusal.
    fn is_answer(self, answer: Result<WithAll, Refusal>) -> bool {
        match answer {
            Ok(n) => {
                self.applied.is_answer(Ok([n.text, n.cursors]))
                    && self.counted.begins_with(&[n.spans, n.history_text])
            }
            Err(why) => self.applied == Due::from(why),
        }
    }
}
