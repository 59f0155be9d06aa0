// Raw operations made into a checked list: deletes before inserts in each stretch between retains,
// neighbours joined where their tokens let them, then cooked: order, length, and the place of the
// tokens in their room.
#![tactic(auto)]

ghost use Rattle.std.specs.Prelude.{◌≡◌, ◌+◌, ◌*◌, ◌/◌, ◌≤◌, ◌&&◌, not, length, eqb, leb};
ghost use Rattle.raw_lists.specs.Raws.{raws_of, pieces_from};
ghost use Rattle.elongate.specs.Elongated.{arranged, consumes};
ghost use Rattle.elongate.specs.Currents.{extended, fresh, closed};
ghost use Rattle.elongate.specs.Verdicts.{Elongates, verdict_on};
ghost use Rattle.elongate.specs.Writes.{Fits, Appended, Closed, Ready, Wrote};
ghost use Rattle.elongate.specs.Places.{kind_of, Lies, Stepped};
ghost use Rattle.elongate.specs.declared.Place.TheVariants.{Deletes, Inserts};

use raw_lists::{Raw, RawOperations, RawTokens};
use records::each::Records;
use records::{DELETE, INSERT, RETAIN};
use refusal::Refusal;

// A place in the walk through a raw list. Each stretch is walked twice: for its deletes, up to its
// end, and for its inserts, which the retain at its end follows.
#[derive(Clone, Copy)]
pub enum Place {
    Deletes { start: usize, at: usize },
    Inserts { at: usize, end: usize },
}

// A step of the walk: an operation to take; or none at this place.
// Kept so: an Option is no plainer, since a step without an operation and the end are two cases.
#[derive(Clone, Copy)]
pub enum Step {
    Take(Raw, Place),
    Skip(Place),
    End,
}

impl Place {
    #[tactic(auto, using(crate::proofs::Walks::ends_stretch, crate::proofs::Walks::meets_retain, crate::proofs::Walks::takes_delete, crate::proofs::Walks::skips_insert))]
    fn step_deletes(raw: &[usize], start: usize, at: usize) -> Step
        requires { (start ≤ at) × (at ≤ length raw.now / 3) }
        ensures { Stepped raw.now (Deletes start at) result }
    {
        let raw = RawOperations(raw);
        if raw.count() <= at {
            return Step::Skip(Place::Inserts { at: start, end: at });
        }
        let r = raw.at(at);
        match r.kind {
            RETAIN => Step::Skip(Place::Inserts { at: start, end: at }),
            DELETE => Step::Take(r, Place::Deletes { start, at: at + 1 }),
            _ => Step::Skip(Place::Deletes { start, at: at + 1 }),
        }
    }

    #[tactic(auto, using(crate::proofs::Walks::skips_delete, crate::proofs::Walks::takes_insert, crate::proofs::Walks::takes_retain, crate::proofs::Walks::gives_none))]
    fn step_inserts(raw: &[usize], at: usize, end: usize) -> Step
        requires { (at ≤ end) × (end ≤ length raw.now / 3) }
        ensures { Stepped raw.now (Inserts at end) result }
    {
        let raw = RawOperations(raw);
        if at < end {
            let r = raw.at(at);
            let next = Place::Inserts { at: at + 1, end };
            if r.kind == DELETE {
                Step::Skip(next)
            } else {
                Step::Take(r, next)
            }
        } else if end < raw.count() {
            let start = end + 1;
            Step::Take(raw.at(end), Place::Deletes { start, at: start })
        } else {
            Step::End
        }
    }

    fn step(self, raw: &[usize]) -> Step
        requires { Lies (length raw.now / 3) self }
        ensures { Stepped raw.now self result }
    {
        match self {
            Place::Deletes { start, at } => Place::step_deletes(raw, start, at),
            Place::Inserts { at, end } => Place::step_inserts(raw, at, end),
        }
    }
}

// The operation that is being joined: what is known of it, and whether its last token is right
// joinable. With no tokens it is none.
// Kept so: with an Option, each sum over what went before would have to match it; here none has zeros.
#[derive(Clone, Copy)]
pub struct Current {
    pub kind: usize,
    pub order: usize,
    pub length: usize,
    pub first: usize,
    pub count: usize,
    pub right: bool,
}

impl Current {
    // Whether the run behind it joins it.
    fn joins(self, kind: usize, left: bool) -> bool
        ensures { result ≡ (eqb self.kind kind && not (eqb self.kind 2)) && (self.right && left) }
    {
        self.kind == kind && self.kind != RETAIN && self.right && left
    }

    // With one run more.
    fn extended(self, length: usize, count: usize, right: bool) -> Current
        requires { (self.length + length ≤ 1000000) × (self.count + count ≤ 1000000) }
        ensures { result ≡ extended self length count right }
    {
        Current {
            length: self.length + length,
            count: self.count + count,
            right,
            ..self
        }
    }

    // What it consumes of the original.
    fn consumed(self) -> usize
        ensures { result ≡ consumes self.kind self.length }
    {
        if self.kind == INSERT { 0 } else { self.length }
    }

    // The run behind it, which does not join it.
    fn next(self, kind: usize, length: usize, count: usize, right: bool) -> Current
        requires { (self.order + self.length ≤ 1000000) × (self.first + self.count ≤ 1000000) }
        ensures { result ≡ fresh self kind length count right }
    {
        Current {
            kind,
            order: self.order + self.consumed(),
            length,
            first: self.first + self.count,
            count,
            right,
        }
    }

    // It, into its room, where there is one.
    #[tactic(auto, using(crate::proofs::Cooking::closes_none, crate::proofs::Cooking::closes_some, crate::proofs::Cooking::closes_fits))]
    fn close(self, operations: &mut [usize], at: usize) -> usize
        requires { (at + length (closed self)) * 6 ≤ length operations.old }
        ensures { Closed self at operations.old operations.new result }
    {
        if self.count == 0 {
            return at;
        }
        let operation = records::Operation {
            kind: self.kind,
            order: self.order,
            length: self.length,
            side: 0,
            first: self.first,
            count: self.count,
        };
        records::put_operation(operations, at, operation);
        at + 1
    }
}

// The tokens of a raw operation into their rooms.
// Kept so: a struct of the three rooms is no plainer, since it needs a clause for each that it is still the same room.
fn append(
    lent: RawTokens,
    r: Raw,
    spanned: &mut [u32],
    keyed: &mut [u32],
    joined: &mut [u8],
    at: usize,
)
    requires { Fits lent.tokens.spans.now lent.tokens.keys.now lent.joins.now r spanned.old keyed.old joined.old at }
    ensures { Appended (pieces_from lent.entry.tokens.spans.now lent.entry.tokens.keys.now lent.entry.joins.now r.first r.count) at spanned.old keyed.old joined.old spanned.new keyed.new joined.new }
{
    let first = r.first;
    let end = first + r.count;
    room::put_short(&lent.tokens.spans[first * 2..end * 2], spanned, at * 2);
    room::put_short(&lent.tokens.keys[first..end], keyed, at);
    room::put_short(&lent.joins[first..end], joined, at);
}

// How many operations and tokens were written.
#[derive(Clone, Copy)]
pub struct Written {
    pub operations: usize,
    pub tokens: usize,
}

// All operations, elongated and cooked, and their tokens, into their rooms.
fn write(
    raw: &[usize],
    lent: RawTokens,
    n: usize,
    operations: &mut [usize],
    spanned: &mut [u32],
    keyed: &mut [u32],
    joined: &mut [u8],
) -> Written
    requires { Ready lent.tokens.spans.now lent.tokens.keys.now lent.joins.now n (arranged kind_of (raws_of raw.now)) operations.old spanned.old keyed.old joined.old }
    ensures { Wrote lent.entry.tokens.spans.now lent.entry.tokens.keys.now lent.entry.joins.now (arranged kind_of (raws_of raw.now)) operations.old spanned.old keyed.old joined.old operations.new spanned.new keyed.new joined.new result }
{
    let mut place = Place::Deletes { start: 0, at: 0 };
    let mut current = Current {
        kind: 3,
        order: 0,
        length: 0,
        first: 0,
        count: 0,
        right: false,
    };
    let mut written = 0;
    // Kept so: a `loop`, since a stretch is walked twice; no range counts the places.
    'walk: loop {
        match place.step(raw) {
            Step::End => {
                let count = current.close(operations, written);
                return Written {
                    operations: count,
                    tokens: current.first + current.count,
                };
            }
            Step::Skip(next) => {
                place = next;
            }
            Step::Take(r, next) => {
                let at = current.first + current.count;
                append(lent, r, spanned, keyed, joined, at);
                let length = sizes::run_text(lent.tokens, n, r.first, r.count);
                let left = lent.left_joinable(r.first);
                let last = r.first + r.count - 1;
                let right = lent.right_joinable(last);
                if current.joins(r.kind, left) {
                    current = current.extended(length, r.count, right);
                } else {
                    written = current.close(operations, written);
                    current = current.next(r.kind, length, r.count, right);
                }
                place = next;
            }
        }
    }
}

// Whether the rooms are as long as asked for so many operations and tokens.
fn rooms_fit(
    count: usize,
    tokens: usize,
    operations: usize,
    spanned: usize,
    keyed: usize,
    joined: usize,
) -> bool
    ensures { result ≡ leb (count * 6) operations && (leb (tokens * 2) spanned && (leb tokens keyed && leb tokens joined)) }
{
    count <= operations / 6 && tokens <= spanned / 2 && tokens <= keyed && tokens <= joined
}

// Raw operations, elongated and cooked, into a room, and their tokens into three.
pub fn elongate(
    raw: &[usize],
    lent: RawTokens,
    text: &[u32],
    operations: &mut [usize],
    spanned: &mut [u32],
    keyed: &mut [u32],
    joined: &mut [u8],
) -> Result<Written, Refusal>
    ensures { Elongates raw.now lent.entry.tokens.spans.now lent.entry.tokens.keys.now lent.entry.joins.now text.now operations.old spanned.old keyed.old joined.old operations.new spanned.new keyed.new joined.new (verdict_on raw.now lent.entry.tokens.spans.now lent.entry.tokens.keys.now lent.entry.joins.now text.now operations.old spanned.old keyed.old joined.old) result }
{
    let n = text.len();
    if !raw_lists::raw_fits(raw, lent, n) {
        return Err(Refusal::Size);
    }
    verdict::check_text(text)?;
    raw_lists::check_raws(raw, lent, n)?;
    let tokens = raw_lists::claimed(raw);
    if !rooms_fit(
        RawOperations(raw).count(),
        tokens,
        operations.len(),
        spanned.len(),
        keyed.len(),
        joined.len(),
    ) {
        return Err(Refusal::Room);
    }
    Ok(write(raw, lent, n, operations, spanned, keyed, joined))
}
