// The merge of two lists as a call: checks, rooms, cursors sorted going in and coming out, and all
// turns between.
#![tactic(auto)]

ghost use Rattle.std.specs.Prelude.{◌≡◌, ◌+◌, ◌*◌, ◌/◌, ◌&&◌, leb, length};
ghost use Rattle.edited_text.specs.Merging.{Mergeable, Merges, MergedBy};

use records::each::Records;
use records::{Cursors, Lent, List, Operations};
use refusal::Refusal;

// How many operations and cursors a merge gave.
#[derive(Clone, Copy)]
pub struct Counts {
    pub operations: usize,
    pub cursors: usize,
}

// Whether the rooms are as long as asked: so many operations and cursors as both lists have, and so many
// tokens in each half of the work room.
fn rooms_fit(
    left: List,
    right: List,
    half: usize,
    operations: &[usize],
    cursors: &[usize],
    work: &[u32],
) -> bool
    ensures { result ≡ leb ((length left.entry.operations.now / 6 + length right.entry.operations.now / 6) * 6) (length operations.now) && (leb ((length left.entry.cursors.now / 2 + length right.entry.cursors.now / 2) * 2) (length cursors.now) && leb (half * 2) (length work.now)) }
{
    let both = Operations(left.operations).count() + Operations(right.operations).count();
    let moved = Cursors(left.cursors).count() + Cursors(right.cursors).count();
    both <= Operations(operations).count()
        && moved <= Cursors(cursors).count()
        && half <= work.len() / 2
}

// The merge of two accepted lists: mid is the insert tokens of the left one, half those of both.
// Kept so: rooms apart, since a struct that holds `&mut` wants clauses on which room it still is; that is no plainer.
fn merge_accepted(
    lent: Lent,
    left: List,
    right: List,
    mid: usize,
    half: usize,
    operations: &mut [usize],
    cursors: &mut [usize],
    work: &mut [u32],
) -> Counts
    requires { Mergeable lent.original.now lent.text.now lent.tokens.spans.now lent.tokens.keys.now left.operations.now right.operations.now left.cursors.now right.cursors.now mid half operations.old cursors.old work.old }
    ensures { Merges lent.entry.original.now lent.entry.text.now lent.entry.tokens.spans.now lent.entry.tokens.keys.now left.entry.operations.now right.entry.operations.now left.entry.cursors.now right.entry.cursors.now operations.old operations.new cursors.old cursors.new result }
{
    // 256 cursors, and a number behind them that may be lent with them
    let mut lefts = [0usize; 513];
    let mut rights = [0usize; 513];
    cursors::sort_into(left.cursors, &mut lefts);
    cursors::sort_into(right.cursors, &mut rights);
    let left_end = Cursors(left.cursors).count() * 2;
    let right_end = Cursors(right.cursors).count() * 2;
    let priority = order::stream_priority(lent, left.operations, right.operations);
    let totals = merge::run(
        lent,
        List {
            operations: left.operations,
            cursors: &lefts[..left_end],
        },
        List {
            operations: right.operations,
            cursors: &rights[..right_end],
        },
        priority,
        work,
        mid,
        half,
        operations,
        cursors,
    );
    cursors::sort_room(cursors, totals.cursors);
    Counts {
        operations: totals.operations,
        cursors: totals.cursors,
    }
}

// Two lists of edits of one original, with their cursors, merged into the rooms lent.
pub fn merge(
    lent: Lent,
    left: List,
    right: List,
    operations: &mut [usize],
    cursors: &mut [usize],
    work: &mut [u32],
) -> Result<Counts, Refusal>
    ensures { MergedBy lent.entry.original.now lent.entry.text.now lent.entry.tokens.spans.now lent.entry.tokens.keys.now left.entry.operations.now right.entry.operations.now left.entry.cursors.now right.entry.cursors.now operations.old operations.new cursors.old cursors.new work.old work.new result }
{
    let limits = sizes::merging_limits();
    let claims = checks::sum_lists(limits, lent, left, right)?;
    let half = claims.left + claims.right;
    if !rooms_fit(left, right, half, operations, cursors, work) {
        return Err(Refusal::Room);
    }
    let counts = merge_accepted(
        lent,
        left,
        right,
        claims.left,
        half,
        operations,
        cursors,
        work,
    );
    Ok(counts)
}
