// The diff of a list, and diffs replayed over an original.
// Kept so: what is lent stands slice by slice, as the C interface lends it.
ghost use Rattle.replay.specs.Answers.{Replayed, covering, diff, length_of, plain};
ghost use Rattle.records.specs.Operations.{operations_of};
ghost use Rattle.to_diff.specs.Answers.{Diffs, lengths_of};
ghost use Rattle.merging.specs.Lent.{lent_of};
ghost use Rattle.std.specs.Prelude.{◌≡◌};

use item_records::Counts;
use records::{Lent, Tokens};
use refusal::Refusal;

// How many items and code points the diff of a list has: what `to_diff` must be lent.
pub fn to_diff_lengths(
    original: &[u32],
    text: &[u32],
    spans: &[u32],
    keys: &[u32],
    operations: &[usize],
) -> Result<Counts, Refusal>
    ensures { result ≡ lengths_of (lent_of original.now text.now spans.now keys.now) (operations_of operations.now) }
{
    let lent = Lent {
        original,
        text,
        tokens: Tokens { spans, keys },
    };
    to_diff::to_diff_lengths(lent, operations)
}

// The diff of a list: its items into one room, their text into another.
pub fn to_diff(
    original: &[u32],
    text: &[u32],
    spans: &[u32],
    keys: &[u32],
    operations: &[usize],
    room: &mut [i64],
    out: &mut [u32],
) -> Result<Counts, Refusal>
    ensures { Diffs (lent_of original.now text.now spans.now keys.now) (operations_of operations.now) room.old out.old room.new out.new result }
{
    let lent = Lent {
        original,
        text,
        tokens: Tokens { spans, keys },
    };
    to_diff::to_diff(lent, operations, room, out)
}

// The length of the replayed text, plain.
pub fn from_diff_length(original: &[u32], items: &[i64], text: &[u32]) -> Result<usize, Refusal>
    ensures { result ≡ length_of plain (diff original.now items.now text.now) }
{
    replay::from_diff_length(original, items, text)
}

// The replayed text, plain: what the diff leaves unmentioned is dropped.
pub fn from_diff(
    original: &[u32],
    items: &[i64],
    text: &[u32],
    out: &mut [u32],
) -> Result<usize, Refusal>
    ensures { Replayed plain (diff original.now items.now text.now) out.old result out.new }
{
    replay::from_diff(original, items, text, out)
}

// The length of the replayed text, covering.
pub fn from_covering_diff_length(
    original: &[u32],
    items: &[i64],
    text: &[u32],
) -> Result<usize, Refusal>
    ensures { result ≡ length_of covering (diff original.now items.now text.now) }
{
    replay::from_covering_diff_length(original, items, text)
}

// The replayed text, covering: a diff that leaves some of the original unmentioned is refused.
pub fn from_covering_diff(
    original: &[u32],
    items: &[i64],
    text: &[u32],
    out: &mut [u32],
) -> Result<usize, Refusal>
    ensures { Replayed covering (diff original.now items.now text.now) out.old result out.new }
{
    replay::from_covering_diff(original, items, text, out)
}
