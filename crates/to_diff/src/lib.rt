// A list's diff: its retains with neighbours joined, its deletes and its inserts, as items of three numbers
// and their text. A retain is held back until what follows it is known.
#![tactic(auto)]

ghost use Rattle.std.specs.Prelude.{◌≡◌, ◌+◌, ◌*◌, ◌<◌, ◌≤◌, length};
ghost use Rattle.room.specs.Placed.{placed};
ghost use Rattle.records.specs.Operations.{operations_of};
ghost use Rattle.records.specs.Tokens.{spelling};
ghost use Rattle.words.specs.Words.{Lends};
ghost use Rattle.edit_format.specs.Items.{Drop};
ghost use Rattle.edit_format.specs.Records.{record_of};
ghost use Rattle.merging.specs.Lent.{lent_in};
ghost use Rattle.to_diff.specs.Answers.{checked_on, lengths_of, Diffs};
ghost use Rattle.to_diff.specs.Writes.{keeps, items, Ready, Kept, Inserted, Measures, Fits, Wrote};

use checks::Lengths;
use diff::diff::{NUMBER, TEXT};
use item_records::{Counts, dropped_number, plain_number, put_record};
use records::each::Records;
use records::{DELETE, INSERT, Lent, List, Operations, Tokens};
use refusal::Refusal;

// The retain that was held back, if there is one, and the place after it.
// Kept so: an Option is no plainer: no retain is empty, so 0 is none, as `keeps` of specs/ says, and lengths are added to it.
fn put_kept(room: &mut [i64], place: usize, kept: usize) -> usize
    requires { (kept < 9223372036854775808) × ((place + length (keeps kept)) * 3 ≤ length room.old) }
    ensures { Kept kept place room.old room.new result }
{
    if kept == 0 {
        return place;
    }
    put_record(room, place * 3, NUMBER, plain_number(kept), 0);
    place + 1
}

// A delete's item.
fn put_dropped(room: &mut [i64], place: usize, dropped: usize)
    requires { (dropped < 9223372036854775808) × (place * 3 + 3 ≤ length room.old) }
    ensures { room.new ≡ placed room.old (place * 3) (record_of 0 (Drop dropped)) }
{
    put_record(room, place * 3, NUMBER, dropped_number(dropped), 0);
}

// An insert's text and its item, and the place after the text.
fn put_insert(
    text: &[u32],
    tokens: Tokens,
    first: usize,
    count: usize,
    room: &mut [i64],
    place: usize,
    out: &mut [u32],
    at: usize,
) -> usize
    requires { Lends text.now tokens.spans.now tokens.keys.now first count out.old at × (place * 3 + 3 ≤ length room.old) }
    ensures { Inserted (spelling text.now tokens.entry.spans.now tokens.entry.keys.now first count) place at room.old room.new out.old out.new result }
{
    let end = words::put_tokens(text, tokens, first, count, out, at);
    put_record(
        room,
        place * 3,
        TEXT,
        plain_number(at),
        plain_number(end - at),
    );
    end
}

// How many items and code points a diff has.
fn measure(lent: Lent, operations: &[usize]) -> Counts
    requires { Ready lent.text.now lent.tokens.spans.now lent.tokens.keys.now (operations_of operations.now) }
    ensures { Measures (items lent.entry.text.now lent.entry.tokens.spans.now lent.entry.tokens.keys.now (operations_of operations.now)) result }
{
    let mut found = 0;
    let mut size = 0;
    let mut joins = false;
    'operations: for operation in Operations(operations).each() {
        if operation.kind == INSERT {
            size += sizes::run_text(
                lent.tokens,
                lent.text.len(),
                operation.first,
                operation.count,
            );
            found += 1;
            joins = false;
        } else if operation.kind == DELETE {
            found += 1;
            joins = false;
        } else if !joins {
            found += 1;
            joins = true;
        }
    }
    Counts {
        items: found,
        text: size,
    }
}

// The items and their text, into rooms that they fit, and how many they are. A retain is held back as
// long as retains follow.
fn write(lent: Lent, operations: &[usize], room: &mut [i64], out: &mut [u32]) -> Counts
    requires { Ready lent.text.now lent.tokens.spans.now lent.tokens.keys.now (operations_of operations.now) × Fits (items lent.text.now lent.tokens.spans.now lent.tokens.keys.now (operations_of operations.now)) room.old out.old }
    ensures { Wrote (items lent.entry.text.now lent.entry.tokens.spans.now lent.entry.tokens.keys.now (operations_of operations.now)) room.old out.old room.new out.new result }
{
    let mut kept = 0;
    let mut place = 0;
    let mut at = 0;
    'operations: for o in Operations(operations).each() {
        if o.kind == INSERT {
            place = put_kept(room, place, kept);
            at = put_insert(
                lent.text,
                lent.tokens,
                o.first,
                o.count,
                room,
                place,
                out,
                at,
            );
            kept = 0;
            place += 1;
        } else if o.kind == DELETE {
            place = put_kept(room, place, kept);
            put_dropped(room, place, o.length);
            kept = 0;
            place += 1;
        } else {
            kept += o.length;
        }
    }
    let items = put_kept(room, place, kept);
    Counts { items, text: at }
}

// Refusals 3, 4, 1 and 2 of a list, or the lengths of its texts. There are no cursors, so none is
// refused.
fn check(lent: Lent, operations: &[usize]) -> Result<Lengths, Refusal>
    ensures { result ≡ checked_on (lent_in lent.entry) (operations_of operations.now) }
{
    let list = List {
        operations,
        cursors: &[],
    };
    checks::sum_list(sizes::other_limits(), lent, list)
}

// How many items and code points the diff of a list has: what `to_diff` must be lent.
pub fn to_diff_lengths(lent: Lent, operations: &[usize]) -> Result<Counts, Refusal>
    ensures { result ≡ lengths_of (lent_in lent.entry) (operations_of operations.now) }
{
    check(lent, operations)?;
    Ok(measure(lent, operations))
}

// The diff of a list: its items into one room, their text into another. It is measured first only where
// the rooms may not hold whatever diff so many operations with so much inserted text may have.
pub fn to_diff(
    lent: Lent,
    operations: &[usize],
    room: &mut [i64],
    out: &mut [u32],
) -> Result<Counts, Refusal>
    ensures { Diffs (lent_in lent.entry) (operations_of operations.now) room.old out.old room.new out.new result }
{
    let lengths = check(lent, operations)?;
    if room.len() / 3 < Operations(operations).count() || out.len() < lengths.inserted {
        let counts = measure(lent, operations);
        if room.len() / 3 < counts.items || out.len() < counts.text {
            return Err(Refusal::Room);
        }
    }
    Ok(write(lent, operations, room, out))
}
