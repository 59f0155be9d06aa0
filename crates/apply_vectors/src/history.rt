// One list's history and its text.
use crate::rooms::{self, AMPLE, Lengths};
use apply::WithHistory;
use marked::Mark;
use records::Lent;
use refusal::Refusal;
use vectors::Due;

// What is due of `apply_with_history`: its answer, and what its rooms begin with.
#[derive(Clone, Copy)]
pub struct History<'a> {
    pub due: Due,
    pub spans: &'a [usize],
    pub told: &'a [u32],
}

// Refusals 3, 4, 1 and 2 come with rooms of any length, refusal 7 with a room that is one number too short, and rooms of the lengths
// asked are enough. A refused case asks none.
pub fn agrees(lent: Lent, operations: &[usize], history: History) -> bool {
    let nothing = History {
        due: Due::from(Refusal::Room),
        spans: &[],
        told: &[],
    };
    let asked = [0, 0, history.spans.len(), history.told.len()];
    is_due(
        apply::apply_with_history_lengths(lent, operations),
        history.due,
    ) && rooms::agrees(asked, |lengths, short| {
        gives(
            lent,
            operations,
            lengths,
            if short { nothing } else { history },
        )
    })
}

// Whether the call in rooms of these lengths gives what is due.
fn gives(lent: Lent, operations: &[usize], lengths: Lengths, history: History) -> bool {
    let mut spans_room = [usize::MARK; AMPLE];
    let mut told_room = [u32::MARK; AMPLE];
    let [_, _, spans, told] = lengths;
    let spans = &mut spans_room[..spans.min(AMPLE)];
    let told = &mut told_room[..told.min(AMPLE)];
    is_due(
        apply::apply_with_history(lent, operations, spans, told),
        history.due,
    ) && marked::holds(spans, history.spans)
        && marked::holds(told, history.told)
}

fn is_due(answer: Result<WithHistory, Refusal>, due: Due) -> bool {
    due.is_answer(answer.map(|n| [n.spans, n.text]))
}
