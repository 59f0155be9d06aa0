// Text and history of a list.
// Kept so: what is lent stands slice by slice, as the C interface lends it.
ghost use Rattle.answer.specs.Tellings.{ToldBy, tell_all, tell_applied, tell_history};
ghost use Rattle.apply.specs.Answers.{Applies, AppliesAll, Tells, applied, history_on, text_on, told, told_all, verdict_on};
ghost use Rattle.merging.specs.Lent.{lent_of};
ghost use Rattle.cursors.specs.Sorted.{sorted};
ghost use Rattle.merging.specs.Outputs.{history_text};
ghost use Rattle.records.specs.Cursors.{cursors_of};
ghost use Rattle.records.specs.Operations.{operations_of};
ghost use Rattle.std.specs.Prelude.{length, [], ◌≡◌};

use answer::{Answer, Tell};

// The code points and cursors that `apply` writes.
#[unsafe(no_mangle)]
pub extern "C" fn fleecelatch_apply_lengths(
    original: &[u32],
    text: &[u32],
    spans: &[u32],
    keys: &[u32],
    operations: &[usize],
    cursors: &[usize],
) -> Answer
    ensures { result ≡ tell_applied (applied (verdict_on (lent_of original.now text.now spans.now keys.now) (operations_of operations.now) (cursors_of cursors.now)) (length (text_on (lent_of original.now text.now spans.now keys.now) (operations_of operations.now))) (length (sorted (cursors_of cursors.now)))) }
{
    reconcile::views::apply_lengths(original, text, spans, keys, operations, cursors).tell()
}

// A list's text into a room, and its cursors, sorted, into another.
#[unsafe(no_mangle)]
pub extern "C" fn fleecelatch_apply(
    original: &[u32],
    text: &[u32],
    spans: &[u32],
    keys: &[u32],
    operations: &[usize],
    cursors: &[usize],
    out: &mut [u32],
    moved: &mut [usize],
) -> Answer
    ensures { ToldBy tell_applied (Applies (lent_of original.now text.now spans.now keys.now) (operations_of operations.now) (cursors_of cursors.now) out.old moved.old out.new moved.new) result }
{
    reconcile::views::apply(original, text, spans, keys, operations, cursors, out, moved).tell()
}

// The spans and the code points that `apply_with_history` writes.
#[unsafe(no_mangle)]
pub extern "C" fn fleecelatch_apply_with_history_lengths(
    original: &[u32],
    text: &[u32],
    spans: &[u32],
    keys: &[u32],
    operations: &[usize],
) -> Answer
    ensures { result ≡ tell_history (told (verdict_on (lent_of original.now text.now spans.now keys.now) (operations_of operations.now) []) (length (history_on (lent_of original.now text.now spans.now keys.now) (operations_of operations.now))) (length (history_text (history_on (lent_of original.now text.now spans.now keys.now) (operations_of operations.now))))) }
{
    reconcile::views::apply_with_history_lengths(original, text, spans, keys, operations).tell()
}

// A list's history: its spans into a room, their text into another.
#[unsafe(no_mangle)]
pub extern "C" fn fleecelatch_apply_with_history(
    original: &[u32],
    text: &[u32],
    spans: &[u32],
    keys: &[u32],
    operations: &[usize],
    history: &mut [usize],
    out: &mut [u32],
) -> Answer
    ensures { ToldBy tell_history (Tells (lent_of original.now text.now spans.now keys.now) (operations_of operations.now) history.old out.old history.new out.new) result }
{
    reconcile::views::apply_with_history(
        original, text, spans, keys, operations, history, out,
    ).tell()
}

// What `apply_with_all` writes: what both write.
#[unsafe(no_mangle)]
pub extern "C" fn fleecelatch_apply_with_all_lengths(
    original: &[u32],
    text: &[u32],
    spans: &[u32],
    keys: &[u32],
    operations: &[usize],
    cursors: &[usize],
) -> Answer
    ensures { result ≡ tell_all (told_all (verdict_on (lent_of original.now text.now spans.now keys.now) (operations_of operations.now) (cursors_of cursors.now)) (length (text_on (lent_of original.now text.now spans.now keys.now) (operations_of operations.now))) (length (sorted (cursors_of cursors.now))) (length (history_on (lent_of original.now text.now spans.now keys.now) (operations_of operations.now))) (length (history_text (history_on (lent_of original.now text.now spans.now keys.now) (operations_of operations.now))))) }
{
    reconcile::views::apply_with_all_lengths(
        original, text, spans, keys, operations, cursors,
    ).tell()
}

// Text, cursors and history of a list, in one pass over its operations.
#[unsafe(no_mangle)]
pub extern "C" fn fleecelatch_apply_with_all(
    original: &[u32],
    text: &[u32],
    spans: &[u32],
    keys: &[u32],
    operations: &[usize],
    cursors: &[usize],
    out: &mut [u32],
    moved: &mut [usize],
    history: &mut [usize],
    history_text: &mut [u32],
) -> Answer
    ensures { ToldBy tell_all (AppliesAll (lent_of original.now text.now spans.now keys.now) (operations_of operations.now) (cursors_of cursors.now) out.old moved.old history.old history_text.old out.new moved.new history.new history_text.new) result }
{
    reconcile::views::apply_with_all(
        original,
        text,
        spans,
        keys,
        operations,
        cursors,
        out,
        moved,
        history,
        history_text,
    )
    .tell()
}
