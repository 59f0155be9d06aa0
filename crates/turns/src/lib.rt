// The steps of a merge's turn over one side: what is next, what is remembered, what is emitted.
#![tactic(auto)]

ghost use Rattle.std.specs.Prelude.{◌≡◌, ◌+◌, ◌*◌, ◌≤◌, length};
ghost use Rattle.room.specs.Placed.{placed};
ghost use Rattle.merging.specs.Lent.{lengths_of};
ghost use Rattle.merging.specs.Operations.{empty_op};
ghost use Rattle.merging.specs.Turn.{emitted};
ghost use Rattle.operation.specs.Views.{of_spans};
ghost use Rattle.turns.specs.Looking.{list_from, FirstFits, Looks};
ghost use Rattle.turns.specs.Remembering.{Writable, Written, kept_from, Rememberable, Remembers};
ghost use Rattle.turns.specs.Emitting.{record_by, Emits};

use merging::Op;
use operation::{Last, Lengths, Memory};
use records::each::Records;
use records::{DELETE, INSERT, Operation, Operations, RETAIN, Tokens};

// What is next on a side, the place of the record behind it, and the original text that the list
// consumed before that one.
#[derive(Clone, Copy)]
pub struct Ahead {
    pub next: Option<Op>,
    pub behind: usize,
    pub at: usize,
}

// The record at a place of a list, when the list consumed `at` of the original before it.
pub fn ahead_of(operations: &[usize], behind: usize, at: usize) -> Ahead
    requires { FirstFits at (list_from operations.now behind at) }
    ensures { Looks operations.now None behind at result }
{
    let list = Operations(operations);
    if behind < list.count() {
        let op = merging::op_of(at, list.at(behind));
        Ahead {
            next: Some(op),
            behind: behind + 1,
            at: at + op.span(),
        }
    } else {
        Ahead {
            next: None,
            behind,
            at,
        }
    }
}

// What is next after a taken operation, of which a tail may stay.
pub fn advance(operations: &[usize], tail: Option<Op>, behind: usize, at: usize) -> Ahead
    requires { FirstFits at (list_from operations.now behind at) }
    ensures { Looks operations.now tail behind at result }
{
    match tail {
        Some(_) => Ahead {
            next: tail,
            behind,
            at,
        },
        None => ahead_of(operations, behind, at),
    }
}

// The lengths of tokens into the work room at a place.
pub fn put_lengths(spans: &[u32], first: usize, count: usize, work: &mut [u32], at: usize)
    requires { ((first + count) * 2 ≤ length spans.now) × (at + count ≤ length work.old) }
    ensures { work.new ≡ placed work.old at (lengths_of (of_spans spans.now) first count) }
{
    'lengths: for (i, length) in Lengths(spans).between(first, first + count).enumerate() {
        work[at + i] = length;
    }
}

// The keys of tokens into the work room, behind what the side remembers there, and their lengths
// `half` after them.
pub fn remember_tokens(
    tokens: Tokens,
    first: usize,
    count: usize,
    work: &mut [u32],
    fill: usize,
    half: usize,
)
    requires { Writable tokens.spans.now tokens.keys.now work.old first count fill half }
    ensures { Written tokens.entry.spans.now tokens.entry.keys.now work.old work.new first count fill half }
{
    room::put_short(&tokens.keys[first..first + count], work, fill);
    put_lengths(tokens.spans, first, count, work, half + fill);
}

// Where the remembered tokens start once those of an insert of this order are behind them: an insert
// after a remembered insert of the same order is appended.
pub fn kept_from(last: Last, order: usize, fill: usize) -> usize
    ensures { result ≡ kept_from last order fill }
{
    match last {
        Last::Inserted { order: o, from } if o == order => from,
        _ => fill,
    }
}

// The result of a turn is remembered, even when empty.
pub fn remember_operation(
    tokens: Tokens,
    res: Op,
    memory: Memory,
    work: &mut [u32],
    half: usize,
) -> Memory
    requires { Rememberable tokens.spans.now tokens.keys.now work.old half memory res }
    ensures { Remembers tokens.entry.spans.now tokens.entry.keys.now work.old work.new half memory res result }
{
    let fill = memory.fill;
    match res {
        Op::Delete { order, length } => Memory {
            last: Last::Deleted { order, length },
            fill,
        },
        Op::Insert {
            order,
            first,
            count,
        } => {
            remember_tokens(tokens, first, count, work, fill, half);
            Memory {
                last: Last::Inserted {
                    order,
                    from: kept_from(memory.last, order, fill),
                },
                fill: fill + count,
            }
        }
        Op::Retain { order, length } => Memory {
            last: Last::Retained { order, length },
            fill,
        },
    }
}

// Whether an operation has no code points or no tokens.
pub fn is_empty(a: Op) -> bool
    ensures { result ≡ empty_op a }
{
    match a {
        Op::Insert { count, .. } => count == 0,
        Op::Delete { length, .. } | Op::Retain { length, .. } => length == 0,
    }
}

// The record of an operation, text being the length of its text. An insert stands where `consumed` of
// the original is consumed. Fields that mean nothing are 0.
pub fn record_of(side: usize, consumed: usize, a: Op, text: usize) -> Operation
    ensures { result ≡ record_by side consumed text a }
{
    match a {
        Op::Delete { order, length } => Operation {
            kind: DELETE,
            order,
            length,
            side,
            first: 0,
            count: 0,
        },
        Op::Insert { first, count, .. } => Operation {
            kind: INSERT,
            order: consumed,
            length: text,
            side,
            first,
            count,
        },
        Op::Retain { order, length } => Operation {
            kind: RETAIN,
            order,
            length,
            side,
            first: 0,
            count: 0,
        },
    }
}

// The result of a turn as a record of the room, unless it is empty; text is the length of its text.
pub fn emit(
    out: &mut [usize],
    place: usize,
    side: usize,
    consumed: usize,
    res: Op,
    text: usize,
) -> usize
    requires { (place + length (emitted side consumed res)) * 6 ≤ length out.old }
    ensures { Emits out.old out.new place side consumed res text result }
{
    if is_empty(res) {
        return place;
    }
    records::put_operation(out, place, record_of(side, consumed, res, text));
    place + 1
}
