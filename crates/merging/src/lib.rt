// What the merge's definitions and its code both speak of: operations as the merge takes them, and what a turn does to the
// cursors of its side. The merge itself is a definition here, see specs/ and proofs/.
#![tactic(auto)]

ghost use Rattle.std.specs.Prelude.{◌≡◌};
ghost use Rattle.merging.specs.Operations.{kind_of, order_of, span_of, op_of};

use records::{DELETE, INSERT, RETAIN};

// An insert is a range of the lent tokens.
#[derive(Clone, Copy)]
pub enum Op {
    Delete {
        order: usize,
        length: usize,
    },
    Insert {
        order: usize,
        first: usize,
        count: usize,
    },
    Retain {
        order: usize,
        length: usize,
    },
}

impl Op {
    // The kind's number, as in a record.
    pub fn kind(self) -> usize
        ensures { result ≡ kind_of self }
    {
        match self {
            Op::Delete { .. } => DELETE,
            Op::Insert { .. } => INSERT,
            Op::Retain { .. } => RETAIN,
        }
    }

    // The original text consumed before the operation.
    pub fn order(self) -> usize
        ensures { result ≡ order_of self }
    {
        match self {
            Op::Delete { order, .. } | Op::Insert { order, .. } | Op::Retain { order, .. } => order,
        }
    }

    // How much of the original the operation consumes.
    pub fn span(self) -> usize
        ensures { result ≡ span_of self }
    {
        match self {
            Op::Insert { .. } => 0,
            Op::Delete { length, .. } | Op::Retain { length, .. } => length,
        }
    }
}

// The operation of a record, when the list consumed `at` of the original before it.
pub fn op_of(at: usize, operation: records::Operation) -> Op
    ensures { result ≡ op_of at operation }
{
    match operation.kind {
        INSERT => Op::Insert {
            order: at,
            first: operation.first,
            count: operation.count,
        },
        DELETE => Op::Delete {
            order: operation.order,
            length: operation.length,
        },
        _ => Op::Retain {
            order: operation.order,
            length: operation.length,
        },
    }
}

// What a turn does to the cursors of its side. The operation covers `length` of the side's own text after `seen`. It lost
// `removed` at its front, which stands in the merged text from `start` on, `shared` long; the rest goes to the end of the merged
// text, at `merged`.
#[derive(Clone, Copy)]
pub struct Shift {
    pub seen: usize,
    pub length: usize,
    pub removed: usize,
    pub start: usize,
    pub shared: usize,
    pub merged: usize,
}
