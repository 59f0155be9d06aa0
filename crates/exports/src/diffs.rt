// The diff of a list, and diffs replayed over an original.
// Kept so: what is lent stands slice by slice, as the C interface lends it.
ghost use Rattle.answer.specs.Tellings.{ToldBy, tell_count, tell_diff};
ghost use Rattle.replay.specs.Answers.{Replayed, covering, diff, length_of, plain};
ghost use Rattle.records.specs.Operations.{operations_of};
ghost use Rattle.refusal.specs.declared.Refusal.{Refusal};
ghost use Rattle.to_diff.specs.Answers.{Diffs, lengths_of};
ghost use Rattle.merging.specs.Lent.{lent_of};
ghost use Rattle.std.specs.Prelude.{ℕ, Result, ◌≡◌};

use answer::{Answer, Tell};

// How many items and code points the diff of a list has: what `to_diff` must be lent.
#[unsafe(no_mangle)]
pub extern "C" fn fleecelatch_to_diff_lengths(
    original: &[u32],
    text: &[u32],
    spans: &[u32],
    keys: &[u32],
    operations: &[usize],
) -> Answer
    ensures { result ≡ tell_diff (lengths_of (lent_of original.now text.now spans.now keys.now) (operations_of operations.now)) }
{
    reconcile::diffs::to_diff_lengths(original, text, spans, keys, operations).tell()
}

// The diff of a list: its items into one room, their text into another.
#[unsafe(no_mangle)]
pub extern "C" fn fleecelatch_to_diff(
    original: &[u32],
    text: &[u32],
    spans: &[u32],
    keys: &[u32],
    operations: &[usize],
    room: &mut [i64],
    out: &mut [u32],
) -> Answer
    ensures { ToldBy tell_diff (Diffs (lent_of original.now text.now spans.now keys.now) (operations_of operations.now) room.old out.old room.new out.new) result }
{
    reconcile::diffs::to_diff(original, text, spans, keys, operations, room, out).tell()
}

// The length of the replayed text, plain.
#[unsafe(no_mangle)]
pub extern "C" fn fleecelatch_from_diff_length(
    original: &[u32],
    items: &[i64],
    text: &[u32],
) -> Answer
    ensures { result ≡ tell_count (length_of plain (diff original.now items.now text.now)) }
{
    reconcile::diffs::from_diff_length(original, items, text).tell()
}

// The replayed text, plain: what the diff leaves unmentioned is dropped.
#[unsafe(no_mangle)]
pub extern "C" fn fleecelatch_from_diff(
    original: &[u32],
    items: &[i64],
    text: &[u32],
    out: &mut [u32],
) -> Answer
    ensures { ToldBy tell_count (λ (a : Result ℕ Refusal). Replayed plain (diff original.now items.now text.now) out.old a out.new) result }
{
    reconcile::diffs::from_diff(original, items, text, out).tell()
}

// The length of the replayed text, covering.
#[unsafe(no_mangle)]
pub extern "C" fn fleecelatch_from_covering_diff_length(
    original: &[u32],
    items: &[i64],
    text: &[u32],
) -> Answer
    ensures { result ≡ tell_count (length_of covering (diff original.now items.now text.now)) }
{
    reconcile::diffs::from_covering_diff_length(original, items, text).tell()
}

// The replayed text, covering: a diff that leaves some of the original unmentioned is refused.
#[unsafe(no_mangle)]
pub extern "C" fn fleecelatch_from_covering_diff(
    original: &[u32],
    items: &[i64],
    text: &[u32],
    out: &mut [u32],
) -> Answer
    ensures { ToldBy tell_count (λ (a : Result ℕ Refusal). Replayed covering (diff original.now items.now text.now) out.old a out.new) result }
{
    reconcile::diffs::from_covering_diff(original, items, text, out).tell()
}
