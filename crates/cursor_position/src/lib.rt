// What a turn does to the cursors of its side. A side's cursors are sorted by index; those that have
// moved stand in the room, the others are still to come.
#![tactic(auto)]

ghost use Rattle.std.specs.Prelude.{◌≡◌, ◌+◌, ◌≤◌, ℕ, Option, [], length};
ghost use Rattle.merging.specs.Cursors.{moved_index, moved, behind, moved_by, behind_of, ended};
ghost use Rattle.cursor_position.specs.Moves.{Fits, left_of, waits, Places, gone, stayed, Spacious, Went};

use merging::{Op, Shift};
use records::each::Records;
use records::{Cursors, put_cursor};
use std::cmp::min;

// The new index of a cursor that moves with an operation.
#[tactic(auto, unfolding(merging::specs::Cursors::moved_index))]
pub fn moved_index(t: Shift, index: usize) -> usize
    requires { Fits t × (index ≤ t.seen + t.length) }
    ensures { result ≡ moved_index t index }
{
    let offset = index.saturating_sub(t.seen);
    if offset <= t.removed {
        t.start + min(offset, t.shared)
    } else {
        t.merged + offset - t.removed
    }
}

// How many cursors of a side have moved, and how many the room holds.
#[derive(Clone, Copy)]
pub struct Progress {
    pub next: usize,
    pub count: usize,
}

// Whether a cursor of a side from p.next on stands at or before an operation's end. Where none does,
// none moves.
pub fn is_awaited(cursors: &[usize], p: Progress, end: usize) -> bool
    ensures { result ≡ waits end (left_of cursors.now p) }
{
    let list = Cursors(cursors);
    p.next < list.count() && list.at(p.next).index <= end
}

// The cursors of a side from p.next on go into the room from p.count on, each to the index that it is
// given, up to the first that is given none.
fn put_on<F: Fn(usize) -> Option<usize>>(
    cursors: &[usize],
    p: Progress,
    out: &mut [usize],
    place: F,
) -> Progress
    requires callable { F.IsAlwaysCallable place }
    requires spacious { Spacious cursors.now p out.old }
    ensures { (f : ℕ → Option ℕ) → Places F.post place f → Went cursors.now (gone f (left_of cursors.now p)) (stayed f (left_of cursors.now p)) out.old out.new p result }
{
    let list = Cursors(cursors);
    let mut gone = p;
    'going: for c in list.between(p.next, list.count()) {
        let Some(index) = place(c.index) else {
            return gone;
        };
        put_cursor(out, gone.count, c.with_index(index));
        gone = Progress {
            next: gone.next + 1,
            count: gone.count + 1,
        };
    }
    gone
}

// The cursors of a side from p.next on move with an operation, up to its end, into the room from
// p.count on.
pub fn move_cursors(cursors: &[usize], p: Progress, t: Shift, out: &mut [usize]) -> Progress
    requires { Fits t × Spacious cursors.now p out.old }
    ensures { Went cursors.now (moved t (left_of cursors.now p)) (behind t (left_of cursors.now p)) out.old out.new p result }
{
    put_on(cursors, p, out, |index| {
        if index <= t.seen + t.length {
            Some(moved_index(t, index))
        } else {
            None
        }
    })
}

// With a delete no cursor moves.
pub fn move_with(a: Op, cursors: &[usize], p: Progress, t: Shift, out: &mut [usize]) -> Progress
    requires { Fits t × Spacious cursors.now p out.old }
    ensures { Went cursors.now (moved_by a t (left_of cursors.now p)) (behind_of a t (left_of cursors.now p)) out.old out.new p result }
{
    match a {
        Op::Delete { .. } => p,
        Op::Insert { .. } | Op::Retain { .. } => move_cursors(cursors, p, t, out),
    }
}

// The cursors of a side from p.next on go to the end of the merged text.
pub fn end_cursors(cursors: &[usize], p: Progress, end: usize, out: &mut [usize]) -> Progress
    requires { Spacious cursors.now p out.old }
    ensures { Went cursors.now (ended end (left_of cursors.now p)) [] out.old out.new p result }
{
    put_on(cursors, p, out, |_| Some(end))
}
