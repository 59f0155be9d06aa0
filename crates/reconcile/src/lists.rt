// Raw lists elongated, and two lists merged.
// Kept so: what is lent stands slice by slice, as the C interface lends it.
ghost use Rattle.edited_text.specs.Merging.{MergedBy};
ghost use Rattle.elongate.specs.Verdicts.{Elongates, verdict_on};

use raw_lists::RawTokens;
use records::{Lent, List, Tokens};
use refusal::Refusal;

// Raw operations, elongated and cooked, into a room, and their tokens into three.
pub fn elongate(
    raw: &[usize],
    spans: &[u32],
    keys: &[u32],
    joins: &[u8],
    text: &[u32],
    operations: &mut [usize],
    spanned: &mut [u32],
    keyed: &mut [u32],
    joined: &mut [u8],
) -> Result<elongate::Written, Refusal>
    ensures { Elongates raw.now spans.now keys.now joins.now text.now operations.old spanned.old keyed.old joined.old operations.new spanned.new keyed.new joined.new (verdict_on raw.now spans.now keys.now joins.now text.now operations.old spanned.old keyed.old joined.old) result }
{
    let lent = RawTokens {
        tokens: Tokens { spans, keys },
        joins,
    };
    elongate::elongate(raw, lent, text, operations, spanned, keyed, joined)
}

// Two lists of edits of one original, with their cursors, merged into the rooms lent.
pub fn merge(
    original: &[u32],
    text: &[u32],
    spans: &[u32],
    keys: &[u32],
    left: &[usize],
    right: &[usize],
    left_cursors: &[usize],
    right_cursors: &[usize],
    operations: &mut [usize],
    cursors: &mut [usize],
    work: &mut [u32],
) -> Result<edited_text::Counts, Refusal>
    ensures { MergedBy original.now text.now spans.now keys.now left.now right.now left_cursors.now right_cursors.now operations.old operations.new cursors.old cursors.new work.old work.new result }
{
    let lent = Lent {
        original,
        text,
        tokens: Tokens { spans, keys },
    };
    let left = List {
        operations: left,
        cursors: left_cursors,
    };
    let right = List {
        operations: right,
        cursors: right_cursors,
    };
    edited_text::merge(lent, left, right, operations, cursors, work)
}
