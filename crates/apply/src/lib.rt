// What is made of any accepted list: its text with its cursors sorted, its history, and both in one
// pass. The calls on lengths say what to lend. crates/written_lists says what a history span is.
#![tactic(auto)]

ghost use Rattle.std.specs.Prelude.{◌≡◌};
ghost use Rattle.records.specs.Operations.{operations_of};
ghost use Rattle.records.specs.Cursors.{cursors_of};
ghost use Rattle.merging.specs.Lent.{lent_in};
ghost use Rattle.apply.specs.Answers.{applied_on, told_on, told_all_on, Applies, Tells, AppliesAll};

use records::each::Records;
use records::{Cursors, Lent, List, Operations};
use refusal::Refusal;

// Code points of the text and cursors.
#[derive(Clone, Copy)]
pub struct Applied {
    pub text: usize,
    pub cursors: usize,
}

// Spans of the history and code points of their text.
#[derive(Clone, Copy)]
pub struct WithHistory {
    pub spans: usize,
    pub text: usize,
}

// Both.
#[derive(Clone, Copy)]
pub struct WithAll {
    pub text: usize,
    pub cursors: usize,
    pub spans: usize,
    pub history_text: usize,
}

// The code points and cursors that `apply` writes.
pub fn apply_lengths(lent: Lent, list: List) -> Result<Applied, Refusal>
    ensures { result ≡ applied_on (lent_in lent.entry) (operations_of list.entry.operations.now) (cursors_of list.entry.cursors.now) }
{
    let lengths = checks::sum_list(sizes::other_limits(), lent, list)?;
    Ok(Applied {
        text: lengths.text,
        cursors: Cursors(list.cursors).count(),
    })
}

// The spans and the code points that `apply_with_history` writes.
pub fn apply_with_history_lengths(lent: Lent, operations: &[usize]) -> Result<WithHistory, Refusal>
    ensures { result ≡ told_on (lent_in lent.entry) (operations_of operations.now) }
{
    let list = List {
        operations,
        cursors: &[],
    };
    let lengths = checks::sum_list(sizes::other_limits(), lent, list)?;
    let gone = written_lists::removed(operations);
    Ok(WithHistory {
        spans: Operations(operations).count(),
        text: lengths.text + gone,
    })
}

// What `apply_with_all` writes: what both write.
pub fn apply_with_all_lengths(lent: Lent, list: List) -> Result<WithAll, Refusal>
    ensures { result ≡ told_all_on (lent_in lent.entry) (operations_of list.entry.operations.now) (cursors_of list.entry.cursors.now) }
{
    let lengths = checks::sum_list(sizes::other_limits(), lent, list)?;
    let gone = written_lists::removed(list.operations);
    Ok(WithAll {
        text: lengths.text,
        cursors: Cursors(list.cursors).count(),
        spans: Operations(list.operations).count(),
        history_text: lengths.text + gone,
    })
}

// A list's text into a room, and its cursors, sorted, into another.
pub fn apply(
    lent: Lent,
    list: List,
    out: &mut [u32],
    moved: &mut [usize],
) -> Result<Applied, Refusal>
    ensures { Applies (lent_in lent.entry) (operations_of list.entry.operations.now) (cursors_of list.entry.cursors.now) out.old moved.old out.new moved.new result }
{
    let lengths = apply_lengths(lent, list)?;
    if !written_lists::rooms_fit::<2>(lengths.cursors, moved.len(), lengths.text, out.len()) {
        return Err(Refusal::Room);
    }
    written_lists::write_text(lent, list.operations, out);
    written_lists::sort_cursors(list.cursors, moved);
    Ok(lengths)
}

// A list's history: its spans into a room, their text into another.
pub fn apply_with_history(
    lent: Lent,
    operations: &[usize],
    history: &mut [usize],
    out: &mut [u32],
) -> Result<WithHistory, Refusal>
    ensures { Tells (lent_in lent.entry) (operations_of operations.now) history.old out.old history.new out.new result }
{
    let lengths = apply_with_history_lengths(lent, operations)?;
    if !written_lists::rooms_fit::<4>(lengths.spans, history.len(), lengths.text, out.len()) {
        return Err(Refusal::Room);
    }
    written_lists::write_history(lent, operations, history, out);
    Ok(lengths)
}

// Text, cursors and history of a list, in one pass over its operations.
pub fn apply_with_all(
    lent: Lent,
    list: List,
    out: &mut [u32],
    moved: &mut [usize],
    history: &mut [usize],
    history_text: &mut [u32],
) -> Result<WithAll, Refusal>
    ensures { AppliesAll (lent_in lent.entry) (operations_of list.entry.operations.now) (cursors_of list.entry.cursors.now) out.old moved.old history.old history_text.old out.new moved.new history.new history_text.new result }
{
    let lengths = apply_with_all_lengths(lent, list)?;
    if !written_lists::rooms_fit::<2>(lengths.cursors, moved.len(), lengths.text, out.len()) {
        return Err(Refusal::Room);
    }
    if !written_lists::rooms_fit::<4>(
        lengths.spans,
        history.len(),
        lengths.history_text,
        history_text.len(),
    ) {
        return Err(Refusal::Room);
    }
    written_lists::write_all(lent, list.operations, out, history, history_text);
    written_lists::sort_cursors(list.cursors, moved);
    Ok(lengths)
}
