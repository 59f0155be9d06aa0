// Text and history of a list.
// Kept so: what is lent stands slice by slice, as the C interface lends it.
ghost use Rattle.apply.specs.Answers.{Applies, AppliesAll, Tells, applied, history_on, text_on, told, told_all, verdict_on};
ghost use Rattle.merging.specs.Lent.{lent_of};
ghost use Rattle.cursors.specs.Sorted.{sorted};
ghost use Rattle.merging.specs.Outputs.{history_text};
ghost use Rattle.records.specs.Cursors.{cursors_of};
ghost use Rattle.records.specs.Operations.{operations_of};
ghost use Rattle.std.specs.Prelude.{length, [], ◌≡◌};

use apply::{Applied, WithAll, WithHistory};
use records::{Lent, List, Tokens};
use refusal::Refusal;

// The code points and cursors that `apply` writes.
pub fn apply_lengths(
    original: &[u32],
    text: &[u32],
    spans: &[u32],
    keys: &[u32],
    operations: &[usize],
    cursors: &[usize],
) -> Result<Applied, Refusal>
    ensures { result ≡ applied (verdict_on (lent_of original.now text.now spans.now keys.now) (operations_of operations.now) (cursors_of cursors.now)) (length (text_on (lent_of original.now text.now spans.now keys.now) (operations_of operations.now))) (length (sorted (cursors_of cursors.now))) }
{
    let lent = Lent {
        original,
        text,
        tokens: Tokens { spans, keys },
    };
    let list = List {
        operations,
        cursors,
    };
    apply::apply_lengths(lent, list)
}

// A list's text into a room, and its cursors, sorted, into another.
pub fn apply(
    original: &[u32],
    text: &[u32],
    spans: &[u32],
    keys: &[u32],
    operations: &[usize],
    cursors: &[usize],
    out: &mut [u32],
    moved: &mut [usize],
) -> Result<Applied, Refusal>
    ensures { Applies (lent_of original.now text.now spans.now keys.now) (operations_of operations.now) (cursors_of cursors.now) out.old moved.old out.new moved.new result }
{
    let lent = Lent {
        original,
        text,
        tokens: Tokens { spans, keys },
    };
    let list = List {
        operations,
        cursors,
    };
    apply::apply(lent, list, out, moved)
}

// The spans and the code points that `apply_with_history` writes.
pub fn apply_with_history_lengths(
    original: &[u32],
    text: &[u32],
    spans: &[u32],
    keys: &[u32],
    operations: &[usize],
) -> Result<WithHistory, Refusal>
    ensures { result ≡ told (verdict_on (lent_of original.now text.now spans.now keys.now) (operations_of operations.now) []) (length (history_on (lent_of original.now text.now spans.now keys.now) (operations_of operations.now))) (length (history_text (history_on (lent_of original.now text.now spans.now keys.now) (operations_of operations.now)))) }
{
    let lent = Lent {
        original,
        text,
        tokens: Tokens { spans, keys },
    };
    apply::apply_with_history_lengths(lent, operations)
}

// A list's history: its spans into a room, their text into another.
pub fn apply_with_history(
    original: &[u32],
    text: &[u32],
    spans: &[u32],
    keys: &[u32],
    operations: &[usize],
    history: &mut [usize],
    out: &mut [u32],
) -> Result<WithHistory, Refusal>
    ensures { Tells (lent_of original.now text.now spans.now keys.now) (operations_of operations.now) history.old out.old history.new out.new result }
{
    let lent = Lent {
        original,
        text,
        tokens: Tokens { spans, keys },
    };
    apply::apply_with_history(lent, operations, history, out)
}

// What `apply_with_all` writes: what both write.
pub fn apply_with_all_lengths(
    original: &[u32],
    text: &[u32],
    spans: &[u32],
    keys: &[u32],
    operations: &[usize],
    cursors: &[usize],
) -> Result<WithAll, Refusal>
    ensures { result ≡ told_all (verdict_on (lent_of original.now text.now spans.now keys.now) (operations_of operations.now) (cursors_of cursors.now)) (length (text_on (lent_of original.now text.now spans.now keys.now) (operations_of operations.now))) (length (sorted (cursors_of cursors.now))) (length (history_on (lent_of original.now text.now spans.now keys.now) (operations_of operations.now))) (length (history_text (history_on (lent_of original.now text.now spans.now keys.now) (operations_of operations.now)))) }
{
    let lent = Lent {
        original,
        text,
        tokens: Tokens { spans, keys },
    };
    let list = List {
        operations,
        cursors,
    };
    apply::apply_with_all_lengths(lent, list)
}

// Text, cursors and history of a list, in one pass over its operations.
pub fn apply_with_all(
    original: &[u32],
    text: &[u32],
    spans: &[u32],
    keys: &[u32],
    operations: &[usize],
    cursors: &[usize],
    out: &mut [u32],
    moved: &mut [usize],
    history: &mut [usize],
    history_text: &mut [u32],
) -> Result<WithAll, Refusal>
    ensures { AppliesAll (lent_of original.now text.now spans.now keys.now) (operations_of operations.now) (cursors_of cursors.now) out.old moved.old history.old history_text.old out.new moved.new history.new history_text.new result }
{
    let lent = Lent {
        original,
        text,
        tokens: Tokens { spans, keys },
    };
    let list = List {
        operations,
        cursors,
    };
    apply::apply_with_all(lent, list, out, moved, history, history_text)
}
