// Text, history and sorted cursors of an accepted list, measured and put into rooms, one operation at a time. A history span is
// four numbers: kind (0 unchanged, 1 added, 2 removed), side, and where its text stands in the text of all spans, start and length.
#![tactic(auto)]

ghost use Rattle.std.specs.Prelude.{◌≡◌, ◌&&◌, ◌+◌, ◌*◌, ◌<◌, ◌≤◌, min, leb, length};
ghost use Rattle.room.specs.Placed.{answered, Put};
ghost use Rattle.records.specs.Operations.{operations_of};
ghost use Rattle.records.specs.Cursors.{cursors_of, flat_cursors};
ghost use Rattle.merging.specs.Lent.{lent_in};
ghost use Rattle.cursors.specs.Sorted.{sorted};
ghost use Rattle.sizes.specs.Texts.{total};
ghost use Rattle.merging.specs.Outputs.{history_text as text_of_history};
ghost use Rattle.written_lists.specs.Parts.{words_by, given_by, text_by, span_by, history_by, removed_by, side_of, Lies, AllLie, Told, Wrote};

use records::each::Records;
use records::{Cursors, DELETE, INSERT, Lent, Operation, Operations, RETAIN};

// The words of an operation: a range of the original, or what its tokens spell.
fn put_words(lent: &Lent, o: Operation, out: &mut [u32], at: usize) -> usize
    requires { Lies (lent_in lent.now) o × (at + length (words_by (lent_in lent.now) o) ≤ length out.old) }
    ensures { Put (words_by (lent_in lent.now) o) out.old at out.new result }
{
    if o.kind == INSERT {
        words::put_tokens(lent.text, lent.tokens, o.first, o.count, out, at)
    } else {
        words::put_original(lent.original, o.order, o.length, out, at)
    }
}

// What an operation gives to the text: its words, or nothing where it deletes.
fn put_text(lent: &Lent, o: Operation, out: &mut [u32], at: usize) -> usize
    requires { Lies (lent_in lent.now) o × (at + length (given_by (lent_in lent.now) o) ≤ length out.old) }
    ensures { Put (given_by (lent_in lent.now) o) out.old at out.new result }
{
    if o.kind == DELETE {
        at
    } else {
        put_words(lent, o, out, at)
    }
}

// The side of what is unchanged means nothing.
fn side_of(o: Operation) -> usize
    ensures { result ≡ side_of o }
{
    if o.kind == RETAIN { 0 } else { o.side }
}

// An operation's span and its words, each into its room. Kinds of spans are those of operations,
// counted the other way. Laid out in each loop over operations: a call for each would hand it on through the stack.
#[inline(always)]
fn tell(
    lent: &Lent,
    o: Operation,
    i: usize,
    history: &mut [usize],
    out: &mut [u32],
    at: usize,
) -> usize
    requires { Lies (lent_in lent.now) o × ((i * 4 + 4 ≤ length history.old) × (at + length (words_by (lent_in lent.now) o) ≤ length out.old)) }
    ensures { Told (span_by (lent_in lent.now) o) history.old out.old i at history.new out.new result }
{
    let next = put_words(lent, o, out, at);
    room::put(
        &[RETAIN - o.kind, side_of(o), at, next - at],
        history,
        i * 4,
    );
    next
}

// The text of a list.
// Kept so: one loop for this, the history and both, over a closure that writes through the rooms it holds, is no plainer.
pub fn write_text(lent: Lent, operations: &[usize], out: &mut [u32])
    requires { AllLie (lent_in lent) (operations_of operations.now) × (length (text_by (lent_in lent) (operations_of operations.now)) ≤ length out.old) }
    ensures { out.new ≡ answered (text_by (lent_in lent.entry) (operations_of operations.now)) out.old }
{
    let mut at = 0;
    'text: for o in Operations(operations).each() {
        at = put_text(&lent, o, out, at);
    }
}

// The history of a list.
pub fn write_history(lent: Lent, operations: &[usize], history: &mut [usize], out: &mut [u32])
    requires { AllLie (lent_in lent) (operations_of operations.now) × ((length (operations_of operations.now) * 4 ≤ length history.old) × (length (text_of_history (history_by (lent_in lent) (operations_of operations.now))) ≤ length out.old)) }
    ensures { Wrote (history_by (lent_in lent.entry) (operations_of operations.now)) history.old out.old history.new out.new }
{
    let mut at = 0;
    'history: for (i, o) in Operations(operations).each().enumerate() {
        at = tell(&lent, o, i, history, out, at);
    }
}

// Both, in one pass.
pub fn write_all(
    lent: Lent,
    operations: &[usize],
    out: &mut [u32],
    history: &mut [usize],
    history_text: &mut [u32],
)
    requires { AllLie (lent_in lent) (operations_of operations.now) × ((length (text_by (lent_in lent) (operations_of operations.now)) ≤ length out.old) × ((length (operations_of operations.now) * 4 ≤ length history.old) × (length (text_of_history (history_by (lent_in lent) (operations_of operations.now))) ≤ length history_text.old))) }
    ensures { (out.new ≡ answered (text_by (lent_in lent.entry) (operations_of operations.now)) out.old) × Wrote (history_by (lent_in lent.entry) (operations_of operations.now)) history.old history_text.old history.new history_text.new }
{
    let mut at = 0;
    let mut told = 0;
    'all: for (i, o) in Operations(operations).each().enumerate() {
        at = put_text(&lent, o, out, at);
        told = tell(&lent, o, i, history, history_text, told);
    }
}

// The whole cursors of a slice, sorted, at the front of a room.
pub fn sort_cursors(cursors: &[usize], moved: &mut [usize])
    requires { length (cursors_of cursors.now) * 2 ≤ length moved.old }
    ensures { moved.new ≡ answered (flat_cursors (sorted (cursors_of cursors.now))) moved.old }
{
    let whole = Cursors(cursors).count() * 2;
    cursors::sort_into(&cursors[..whole], moved);
}

fn removed_by(o: Operation) -> usize
    ensures { result ≡ removed_by o }
{
    if o.kind == DELETE { o.length } else { 0 }
}

// The code points that a list's operations delete, capped.
pub fn removed(operations: &[usize]) -> usize
    ensures { result ≡ min 1000000 (total removed_by (operations_of operations.now)) }
{
    sizes::total_by(Operations(operations), removed_by)
}

// Whether two rooms are as long as asked: `room` numbers for so many records of WIDTH numbers, `out` code
// points for `length` of them.
#[tactic(auto, using(crate::proofs::Parts::room_holds, crate::proofs::Parts::room_short))]
pub fn rooms_fit<const WIDTH: usize>(count: usize, room: usize, length: usize, out: usize) -> bool
    requires { 0 < WIDTH }
    ensures { result ≡ leb (count * WIDTH) room && leb length out }
{
    count <= room / WIDTH && length <= out
}
