// One pair of lists, merged in rooms of several lengths: ample ones, those asked, and those asked with
// one of them a number too short.
ghost use Rattle.std.specs.Prelude.{◌≤◌};

use marked::Mark;
use records::each::Records;
use records::{Cursors, INSERT, Lent, List, Operations};
use refusal::Refusal;
use vectors::Due;

// Two lists over what is lent.
#[derive(Clone, Copy)]
pub struct Pair<'a> {
    pub lent: Lent<'a>,
    pub left: List<'a>,
    pub right: List<'a>,
}

// The lengths of the rooms that are lent.
#[derive(Clone, Copy)]
struct Rooms {
    operations: usize,
    cursors: usize,
    work: usize,
}

const AMPLE: usize = 2048;

impl<'a> Pair<'a> {
    // Refusals 3, 4, 1, 2 and 5 come with rooms of any length, refusal 7 with a room that is one number too
    // short, and rooms of the lengths asked are enough.
    pub fn agrees(self, due: Due, merged: List) -> bool {
        let ample = Rooms {
            operations: AMPLE,
            cursors: AMPLE,
            work: AMPLE,
        };
        if !self.gives(ample, due, merged) {
            return false;
        }
        if due.is_refusal() {
            let none = Rooms {
                operations: 0,
                cursors: 0,
                work: 0,
            };
            return self.gives(none, due, merged);
        }
        let asked = self.asked();
        self.gives(asked, due, merged) && self.refuses_short(asked)
    }

    // The rooms that two accepted lists ask.
    fn asked(self) -> Rooms {
        let operations = operations_of(self.left) + operations_of(self.right);
        let cursors = cursors_of(self.left) + cursors_of(self.right);
        let tokens = tokens_of(self.left) + tokens_of(self.right);
        Rooms {
            operations: operations * 6,
            cursors: cursors * 2,
            work: tokens * 2,
        }
    }

    // Whether refusal 7 comes with each room in turn one number shorter than asked; a room of none cannot be.
    fn refuses_short(self, asked: Rooms) -> bool {
        let operations = Rooms {
            operations: asked.operations.saturating_sub(1),
            ..asked
        };
        let cursors = Rooms {
            cursors: asked.cursors.saturating_sub(1),
            ..asked
        };
        let work = Rooms {
            work: asked.work.saturating_sub(1),
            ..asked
        };
        (asked.operations == 0 || self.refuses(operations))
            && (asked.cursors == 0 || self.refuses(cursors))
            && (asked.work == 0 || self.refuses(work))
    }

    fn refuses(self, rooms: Rooms) -> bool {
        let nothing = List {
            operations: &[],
            cursors: &[],
        };
        self.gives(rooms, Due::from(Refusal::Room), nothing)
    }

    // Whether the call in rooms of these lengths gives what is due. Of the work room only a refusal promises what it holds.
    fn gives(self, rooms: Rooms, due: Due, merged: List) -> bool {
        let mut operation_room = [usize::MARK; AMPLE];
        let mut cursor_room = [usize::MARK; AMPLE];
        let mut work_room = [u32::MARK; AMPLE];
        let operations = &mut operation_room[..rooms.operations.min(AMPLE)];
        let cursors = &mut cursor_room[..rooms.cursors.min(AMPLE)];
        let work = &mut work_room[..rooms.work.min(AMPLE)];
        let answer = edited_text::merge(
            self.lent, self.left, self.right, operations, cursors, work,
        );
        due.is_answer(answer.map(|n| [n.operations, n.cursors]))
            && marked::holds(operations, merged.operations)
            && marked::holds(cursors, merged.cursors)
            && (!due.is_refusal() || marked::holds(work, &[]))
    }
}

// The operations of a list, up to 170.
fn operations_of(list: List) -> usize
    ensures { result ≤ 170 }
{
    Operations(list.operations).count().min(170)
}

// The cursors of a list, up to 512.
fn cursors_of(list: List) -> usize
    ensures { result ≤ 512 }
{
    Cursors(list.cursors).count().min(512)
}

// The insert tokens of a list, up to 512.
fn tokens_of(list: List) -> usize
    ensures { result ≤ 512 }
{
    let (operations, _) = list.operations.as_chunks::<6>();
    operations
        .iter()
        .filter(|operation| operation[0] == INSERT)
        .fold(0usize, |sum, operation| sum.wrapping_add(operation[5]))
        .min(512)
}
