// Raw lists elongated, and two lists merged.
// Kept so: what is lent stands slice by slice, as the C interface lends it.
ghost use Rattle.answer.specs.Tellings.{ToldBy, tell_elongated, tell_merged};
ghost use Rattle.edited_text.specs.Merging.{MergedBy};
ghost use Rattle.elongate.specs.Verdicts.{Elongates, verdict_on};

use answer::{Answer, Tell};

// Raw operations, elongated and cooked, into a room, and their tokens into three.
#[unsafe(no_mangle)]
pub extern "C" fn fleecelatch_elongate(
    raw: &[usize],
    spans: &[u32],
    keys: &[u32],
    joins: &[u8],
    text: &[u32],
    operations: &mut [usize],
    spanned: &mut [u32],
    keyed: &mut [u32],
    joined: &mut [u8],
) -> Answer
    ensures { ToldBy tell_elongated (Elongates raw.now spans.now keys.now joins.now text.now operations.old spanned.old keyed.old joined.old operations.new spanned.new keyed.new joined.new (verdict_on raw.now spans.now keys.now joins.now text.now operations.old spanned.old keyed.old joined.old)) result }
{
    reconcile::lists::elongate(
        raw, spans, keys, joins, text, operations, spanned, keyed, joined,
    )
    .tell()
}

// Two lists of edits of one original, with their cursors, merged into the rooms lent.
#[unsafe(no_mangle)]
pub extern "C" fn fleecelatch_merge(
    original: &[u32],
    text: &[u32],
    spans: &[u32],
    keys: &[u32],
    left: &[usize],
    right: &[usize],
    left_cursors: &[usize],
    right_cursors: &[usize],
    operations: &mut [usize],
    cursors: &mut [usize],
    work: &mut [u32],
) -> Answer
    ensures { ToldBy tell_merged (MergedBy original.now text.now spans.now keys.now left.now right.now left_cursors.now right_cursors.now operations.old operations.new cursors.old cursors.new work.old work.new) result }
{
    reconcile::lists::merge(
        original,
        text,
        spans,
        keys,
        left,
        right,
        left_cursors,
        right_cursors,
        operations,
        cursors,
        work,
    )
    .tell()
}
