// One list's text and its cursors.
use crate::rooms::{self, AMPLE, Lengths};
use apply::Applied;
use marked::Mark;
use records::{Lent, List};
use refusal::Refusal;
use vectors::Due;

// What is due of `apply`: its answer, and what its rooms begin with.
#[derive(Clone, Copy)]
pub struct Text<'a> {
    pub due: Due,
    pub words: &'a [u32],
    pub moved: &'a [usize],
}

// Refusals 3, 4, 1, 2 and 5 come with rooms of any length, refusal 7 with a room that is one number too short, and rooms of the lengths
// asked are enough. A refused case asks none.
pub fn agrees(lent: Lent, list: List, text: Text) -> bool {
    let nothing = Text {
        due: Due::from(Refusal::Room),
        words: &[],
        moved: &[],
    };
    let asked = [text.words.len(), text.moved.len(), 0, 0];
    is_due(apply::apply_lengths(lent, list), text.due)
        && rooms::agrees(asked, |lengths, short| {
            gives(lent, list, lengths, if short { nothing } else { text })
        })
}

// Whether the call in rooms of these lengths gives what is due.
fn gives(lent: Lent, list: List, lengths: Lengths, text: Text) -> bool {
    let mut words_room = [u32::MARK; AMPLE];
    let mut moved_room = [usize::MARK; AMPLE];
    let [words, moved, _, _] = lengths;
    let words = &mut words_room[..words.min(AMPLE)];
    let moved = &mut moved_room[..moved.min(AMPLE)];
    is_due(apply::apply(lent, list, words, moved), text.due)
        && marked::holds(words, text.words)
        && marked::holds(moved, text.moved)
}

fn is_due(answer: Result<Applied, Refusal>, due: Due) -> bool {
    due.is_answer(answer.map(|n| [n.text, n.cursors]))
}
