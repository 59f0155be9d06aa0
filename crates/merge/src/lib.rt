// The turns of a merge.
#![tactic(auto)]

ghost use Rattle.std.specs.Prelude.{◌≡◌, ◌+◌, ◌≤◌};
ghost use Rattle.merging.specs.Lent.{lent_in};
ghost use Rattle.merging.specs.Operations.{length_of};
ghost use Rattle.merging.specs.Cursors.{moved_by, behind_of};
ghost use Rattle.operation.specs.Views.{Lies, Placeable, size, of_spans};
ghost use Rattle.cursor_position.specs.Moves.{Fits, left_of, waits, Spacious, Went};
ghost use Rattle.turns.specs.Looking.{list_from, FirstFits, Looks};
ghost use Rattle.merge.specs.Meetings.{Shifted, Facing, Meets};
ghost use Rattle.merge.specs.Turning.{Turnable, Turns};
ghost use Rattle.merge.specs.Choosing.{NextReadable, choice_of, of_which, number_of};
ghost use Rattle.merge.specs.Running.{starting, Runnable, Ran};

use cursor_position::{Progress, end_cursors};
use merging::{Op, Shift};
use operation::{Last, Memory, Met, Place};
use records::{Lent, List, Tokens};
use std::cmp::Ordering;
use turns::Ahead;

// An operation that is taken, its retain already cut: its text of this length stands in its side's own
// text behind what was seen; whether a cursor of the side waits for it; and the merged text's length.
#[derive(Clone, Copy)]
pub struct Taken {
    pub op: Op,
    pub seen: usize,
    pub length: usize,
    pub awaited: bool,
    pub merged: usize,
}

// What a turn does to the cursors of its side, memory being the other side's. The place of an overlap
// is a sum over what is remembered, so it is left out where no cursor waits for it.
pub fn shift_of(
    spans: &[u32],
    a: Taken,
    met: Met,
    memory: Memory,
    work: &[u32],
    half: usize,
) -> Shift
    requires { Lies spans.now a.op × (met.lost ≤ size a.op) × Placeable work.now half memory.fill memory.last met }
    ensures { Shifted spans.now work.now half memory.fill a.op memory.last met a.awaited a.seen a.length a.merged result }
{
    let removed = operation::removed_of(spans, a.op, met.lost);
    let place = if a.awaited {
        operation::place_of(a.op, met, memory, work, half, a.merged)
    } else {
        Place {
            start: a.merged,
            shared: 0,
        }
    };
    Shift {
        seen: a.seen,
        length: a.length,
        removed,
        start: place.start,
        shared: place.shared,
        merged: a.merged,
    }
}

// What a taken operation meets: how much it loses, what becomes of the cursors of its side, and what
// stays remembered of the other side.
#[derive(Clone, Copy)]
pub struct Meeting {
    pub lost: usize,
    pub shift: Shift,
    pub last: Last,
}

// The side that takes a has filled the work room up to table; memory is the other side's.
pub fn meet(
    tokens: Tokens,
    a: Taken,
    memory: Memory,
    work: &mut [u32],
    half: usize,
    table: usize,
) -> Meeting
    requires { Facing tokens.spans.now tokens.keys.now work.old half memory.fill table a.op memory.last × (a.length ≡ length_of (of_spans tokens.spans.now) a.op) }
    ensures { Meets tokens.entry.spans.now tokens.entry.keys.now work.old work.new half memory.fill table a.op memory.last a.awaited a.seen a.merged result }
{
    let met = operation::merge_operations_consuming_insert(tokens.keys, a.op, memory, work, table);
    Meeting {
        lost: met.lost,
        shift: shift_of(tokens.spans, a, met, memory, work, half),
        last: operation::used_up(a.op, met, memory),
    }
}

// A side between two turns: what is ahead, what is remembered, how much of its own text was taken,
// and how many of its cursors have moved.
#[derive(Clone, Copy)]
pub struct Side {
    pub ahead: Ahead,
    pub memory: Memory,
    pub seen: usize,
    pub cursor: usize,
}

// What the merge has so far: its text's length, the original text it consumed, its operations and its
// cursors.
#[derive(Clone, Copy)]
pub struct Totals {
    pub merged: usize,
    pub consumed: usize,
    pub operations: usize,
    pub cursors: usize,
}

// A merge between two turns, as the side that takes sees it.
#[derive(Clone, Copy)]
pub struct Sides {
    pub own: Side,
    pub other: Side,
    pub totals: Totals,
}

// Which of the two sides.
#[derive(Clone, Copy)]
pub enum Which {
    Left,
    Right,
}

impl Which {
    // The side's number in a record.
    pub fn number(self) -> usize
        ensures { result ≡ number_of self }
    {
        match self {
            Which::Left => 0,
            Which::Right => 1,
        }
    }
}

// The side of a turn, with the operation that it takes.
#[derive(Clone, Copy)]
pub struct Choice {
    pub side: Which,
    pub op: Op,
}

// Whether a cursor of a side waits for an operation that ends there.
fn is_side_awaited(side: Which, left: &[usize], right: &[usize], p: Progress, end: usize) -> bool
    ensures { result ≡ waits end (left_of (of_which side left.now right.now) p) }
{
    match side {
        Which::Left => cursor_position::is_awaited(left, p, end),
        Which::Right => cursor_position::is_awaited(right, p, end),
    }
}

// What is next on a side.
fn advance_side(
    side: Which,
    left: &[usize],
    right: &[usize],
    tail: Option<Op>,
    behind: usize,
    at: usize,
) -> Ahead
    requires { FirstFits at (list_from (of_which side left.now right.now) behind at) }
    ensures { Looks (of_which side left.now right.now) tail behind at result }
{
    match side {
        Which::Left => turns::advance(left, tail, behind, at),
        Which::Right => turns::advance(right, tail, behind, at),
    }
}

// The cursors of a side move with an operation, if one waits for it.
fn move_side(
    side: Which,
    a: Op,
    left: &[usize],
    right: &[usize],
    awaited: bool,
    p: Progress,
    t: Shift,
    out: &mut [usize],
) -> Progress
    requires { Fits t × Spacious (of_which side left.now right.now) p out.old × (awaited ≡ waits (t.seen + t.length) (left_of (of_which side left.now right.now) p)) }
    ensures { Went (of_which side left.now right.now) (moved_by a t (left_of (of_which side left.now right.now) p)) (behind_of a t (left_of (of_which side left.now right.now) p)) out.old out.new p result }
{
    if awaited {
        return match side {
            Which::Left => cursor_position::move_with(a, left, p, t, out),
            Which::Right => cursor_position::move_with(a, right, p, t, out),
        };
    }
    p
}

// A turn of the side `own`, as it was chosen; what it emits has the side's number, which may be any. The lists are
// those of both sides. Kept so: tried, and slower: a list of one side, picked at each turn, is held on the stack.
pub fn turn(
    tokens: Tokens,
    left: List,
    right: List,
    choice: Choice,
    number: usize,
    sides: Sides,
    work: &mut [u32],
    half: usize,
    out: &mut [usize],
    moved: &mut [usize],
) -> Sides
    requires { Turnable tokens.spans.now tokens.keys.now (of_which choice.side left.operations.now right.operations.now) (of_which choice.side left.cursors.now right.cursors.now) work.old half choice.op sides.own sides.other sides.totals number out.old moved.old }
    ensures { Turns tokens.entry.spans.now tokens.entry.keys.now (of_which choice.side left.entry.operations.now right.entry.operations.now) (of_which choice.side left.entry.cursors.now right.entry.cursors.now) work.old work.new half choice.op sides.own sides.other sides.totals number out.old out.new moved.old moved.new result }
{
    let Sides { own, other, totals } = sides;
    let split = operation::split_retain_before(choice.op, other.ahead.next);
    let length = operation::length_of(tokens.spans, split.front);
    let p = Progress {
        next: own.cursor,
        count: totals.cursors,
    };
    let awaited = is_side_awaited(
        choice.side,
        left.cursors,
        right.cursors,
        p,
        own.seen + length,
    );
    let taken = Taken {
        op: split.front,
        seen: own.seen,
        length,
        awaited,
        merged: totals.merged,
    };
    let meeting = meet(tokens, taken, other.memory, work, half, own.memory.fill);
    let shift = meeting.shift;
    let progress = move_side(
        choice.side,
        split.front,
        left.cursors,
        right.cursors,
        awaited,
        p,
        shift,
        moved,
    );
    let result = operation::shortened(split.front, meeting.lost);
    let kept = turns::remember_operation(tokens, result, own.memory, work, half);
    let text = shift.length - shift.removed;
    let place = turns::emit(
        out,
        totals.operations,
        number,
        totals.consumed,
        result,
        text,
    );
    let coming = advance_side(
        choice.side,
        left.operations,
        right.operations,
        split.tail,
        own.ahead.behind,
        own.ahead.at,
    );
    Sides {
        own: Side {
            ahead: coming,
            memory: kept,
            seen: own.seen + shift.length,
            cursor: progress.next,
        },
        other: Side {
            ahead: other.ahead,
            memory: Memory {
                last: meeting.last,
                fill: other.memory.fill,
            },
            seen: other.seen,
            cursor: other.cursor,
        },
        totals: Totals {
            merged: totals.merged + text,
            consumed: totals.consumed + result.span(),
            operations: place,
            cursors: progress.count,
        },
    }
}

// The smaller of the two next operations; ties use the priority of the streams, and what is not less
// goes right.
#[tactic(auto, unfolding(crate::specs::Choosing::choice_of, merging::specs::OrderRule::goes_left))]
pub fn choose(lent: Lent, left: Option<Op>, right: Option<Op>, priority: Ordering) -> Option<Choice>
    requires { NextReadable lent.text.now lent.tokens.spans.now lent.tokens.keys.now left × NextReadable lent.text.now lent.tokens.spans.now lent.tokens.keys.now right }
    ensures { result ≡ choice_of (lent_in lent.entry) priority left right }
{
    match (left, right) {
        (None, None) => None,
        (Some(op), None) => Some(Choice {
            side: Which::Left,
            op,
        }),
        (None, Some(op)) => Some(Choice {
            side: Which::Right,
            op,
        }),
        (Some(a), Some(b)) => match order::cmp_priority(lent, a, b).then(priority) {
            Ordering::Less => Some(Choice {
                side: Which::Left,
                op: a,
            }),
            Ordering::Equal | Ordering::Greater => Some(Choice {
                side: Which::Right,
                op: b,
            }),
        },
    }
}

// Of two sides this one.
fn side_of(which: Which, left: Side, right: Side) -> Side
    ensures { result ≡ of_which which left right }
{
    match which {
        Which::Left => fresh(left),
        Which::Right => fresh(right),
    }
}

// The same side, taken apart and made again. A copy of an enum takes the unused bytes behind its tag
// along, and one that goes round the loop keeps them, and so the side, out of the registers.
// Kept so: tried, and slower: what the derived copy costs is said above.
fn fresh(side: Side) -> Side
    ensures { result ≡ side }
{
    let ahead = side.ahead;
    let memory = side.memory;
    Side {
        ahead: Ahead {
            next: fresh_next(ahead.next),
            behind: ahead.behind,
            at: ahead.at,
        },
        memory: Memory {
            last: fresh_last(memory.last),
            fill: memory.fill,
        },
        seen: side.seen,
        cursor: side.cursor,
    }
}

fn fresh_next(next: Option<Op>) -> Option<Op>
    ensures { result ≡ next }
{
    match next {
        Some(a) => Some(fresh_op(a)),
        None => None,
    }
}

fn fresh_op(a: Op) -> Op
    ensures { result ≡ a }
{
    match a {
        Op::Delete { order, length } => Op::Delete { order, length },
        Op::Insert {
            order,
            first,
            count,
        } => Op::Insert {
            order,
            first,
            count,
        },
        Op::Retain { order, length } => Op::Retain { order, length },
    }
}

fn fresh_last(last: Last) -> Last
    ensures { result ≡ last }
{
    match last {
        Last::Nothing => Last::Nothing,
        Last::Deleted { order, length } => Last::Deleted { order, length },
        Last::Retained { order, length } => Last::Retained { order, length },
        Last::Inserted { order, from } => Last::Inserted { order, from },
    }
}

// A side before the first turn, which fills the work room from a place on.
fn start(ahead: Ahead, fill: usize) -> Side
    ensures { result ≡ starting ahead fill }
{
    Side {
        ahead,
        memory: Memory {
            last: Last::Nothing,
            fill,
        },
        seen: 0,
        cursor: 0,
    }
}

// Turns until both sides are done; what is left of the cursors goes to the end, left before right.
// The left side's part of the work room ends at mid. Both sides go through one call of `turn`, which
// halves the time: it is made part of the loop then, and the sides stay in registers.
// Kept so, here and above: rooms apart, since a struct that holds `&mut` wants clauses on which room it still is; that is no plainer.
pub fn run(
    lent: Lent,
    left: List,
    right: List,
    priority: Ordering,
    work: &mut [u32],
    mid: usize,
    half: usize,
    out: &mut [usize],
    moved: &mut [usize],
) -> Totals
    requires { Runnable lent.original.now lent.text.now lent.tokens.spans.now lent.tokens.keys.now left.operations.now right.operations.now left.cursors.now right.cursors.now priority work.old mid half out.old moved.old }
    ensures { Ran lent.entry.original.now lent.entry.text.now lent.entry.tokens.spans.now lent.entry.tokens.keys.now left.entry.operations.now right.entry.operations.now left.entry.cursors.now right.entry.cursors.now priority out.old out.new moved.old moved.new result }
{
    let mut left_side = start(turns::ahead_of(left.operations, 0, 0), 0);
    let mut right_side = start(turns::ahead_of(right.operations, 0, 0), mid);
    let mut totals = Totals {
        merged: 0,
        consumed: 0,
        operations: 0,
        cursors: 0,
    };
    'turns: while let Some(choice) = choose(
        lent,
        left_side.ahead.next,
        right_side.ahead.next,
        priority,
    ) {
        let side = choice.side;
        let sides = Sides {
            own: side_of(side, left_side, right_side),
            other: side_of(side, right_side, left_side),
            totals,
        };
        let t = turn(
            lent.tokens,
            left,
            right,
            choice,
            side.number(),
            sides,
            work,
            half,
            out,
            moved,
        );
        left_side = side_of(side, t.own, t.other);
        right_side = side_of(side, t.other, t.own);
        totals = t.totals;
    }
    let first = end_cursors(
        left.cursors,
        Progress {
            next: left_side.cursor,
            count: totals.cursors,
        },
        totals.merged,
        moved,
    );
    let second = end_cursors(
        right.cursors,
        Progress {
            next: right_side.cursor,
            count: first.count,
        },
        totals.merged,
        moved,
    );
    Totals {
        merged: totals.merged,
        consumed: totals.consumed,
        operations: totals.operations,
        cursors: second.count,
    }
}
