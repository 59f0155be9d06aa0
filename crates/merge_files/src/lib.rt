// The program's work, from the bytes of three files to the bytes that it writes: the merged edit file,
// or a line `refused=` with the number.
#![tactic(auto)]

ghost use Rattle.std.specs.Prelude.{◌≡◌, ◌≤◌};
ghost use Rattle.edit_format.specs.Reading.{read_file};
ghost use Rattle.merge_files.specs.Program.{refused, result_of, Written};
ghost use Rattle.merge_files.specs.Steps.{by_number, first_of, Mergeable, Diffable, Files, Fitting, Texted, merge_result, diff_result, good_result};

use records::{Lent, List, Tokens};
use refusal::Refusal;

// How many bytes stand in the room: a merged edit file, or a refusal's line; or that it is too short.
// Kept so: a Result is no plainer: a refusal's line that was written is no `Err`, so its `Ok` would be an enum again, and each caller would match twice.
#[derive(Clone, Copy)]
pub enum Outcome {
    Merged(usize),
    Refused(usize),
    Room,
}

// How much of the original each of the two edit files uses.
#[derive(Clone, Copy)]
pub struct Uses {
    pub left: usize,
    pub right: usize,
}

// The line of a refusal, by its number.
fn put_refused(number: usize, out: &mut [u8]) -> Outcome
    requires { number ≤ 10 }
    ensures { Written (refused number) out.old out.new result }
{
    let n = number as u64;
    if out.len() < written_lines::line_length(8, n) {
        return Outcome::Room;
    }
    Outcome::Refused(written_lines::put_line(out, 0, b"refused=", n))
}

// The first refusal before the merge's own, 3, 10 or 8; or how much of the original each of the edit files uses.
fn check_files(original: &[u8], left: &[u8], right: &[u8]) -> Result<Uses, Refusal>
    ensures { by_number result ≡ first_of original.now left.now right.now }
{
    if 2048 < original.len() {
        return Err(Refusal::Size);
    }
    if 2048 < left.len() {
        return Err(Refusal::Size);
    }
    if 2048 < right.len() {
        return Err(Refusal::Size);
    }
    utf8::read_length(original)?;
    utf8::read_length(left)?;
    utf8::read_length(right)?;
    let of_left = edit_read::judge(left)?;
    let of_right = edit_read::judge(right)?;
    Ok(Uses {
        left: of_left.original,
        right: of_right.original,
    })
}

// The edit file of a merged list.
fn write_merged(lent: Lent, operations: &[usize], out: &mut [u8]) -> Outcome
    requires { Diffable lent.original.now lent.text.now lent.tokens.spans.now lent.tokens.keys.now operations.now }
    ensures { Written (diff_result lent.entry.original.now lent.entry.text.now lent.entry.tokens.spans.now lent.entry.tokens.keys.now operations.now) out.old out.new result }
{
    let mut items = [0i64; 2046];
    let mut added = [0u32; 2048];
    match to_diff::to_diff(lent, operations, &mut items, &mut added) {
        Err(_) => Outcome::Room,
        Ok(diff) => match edit_write::write(&items[..diff.items * 3], &added[..diff.text], out) {
            Err(_) => Outcome::Room,
            Ok(n) => Outcome::Merged(n),
        },
    }
}

// The merge of two lists, as an edit file or a refusal's line. A program has no cursors.
// Kept so: tried, and the caller's proof did not close where it joins a slice that it was lent with slices of its own arrays in one value.
fn merge_lists(
    original: &[u32],
    text: &[u32],
    spans: &[u32],
    keys: &[u32],
    left: &[usize],
    right: &[usize],
    out: &mut [u8],
) -> Outcome
    requires { Mergeable text.now spans.now keys.now left.now right.now }
    ensures { Written (merge_result original.now text.now spans.now keys.now left.now right.now) out.old out.new result }
{
    let lent = Lent {
        original,
        text,
        tokens: Tokens { spans, keys },
    };
    let mut merged = [0usize; 4092];
    let mut cursors = [0usize; 1];
    let mut work = [0u32; 4096];
    let lefts = List {
        operations: left,
        cursors: &[],
    };
    let rights = List {
        operations: right,
        cursors: &[],
    };
    match edited_text::merge(lent, lefts, rights, &mut merged, &mut cursors, &mut work) {
        Err(refusal) => put_refused(refusal.number(), out),
        Ok(counts) => write_merged(lent, &merged[..counts.operations * 6], out),
    }
}

// The merge of two accepted edit files, with a room for the code points that they add.
fn merge_edits(
    original: &[u32],
    left: &[u8],
    right: &[u8],
    text: &mut [u32],
    out: &mut [u8],
) -> Outcome
    requires { Files left.now right.now × Texted left.now right.now text.old }
    ensures { Written (good_result original.now (read_file left.now) (read_file right.now)) out.old out.new result }
{
    let mut lefts = [0usize; 2046];
    let mut rights = [0usize; 2046];
    let mut spans = [0u32; 4096];
    let mut keys = [0u32; 2048];
    let l = edit_list::list_of(left, 0, 0, text, &mut lefts, &mut spans, &mut keys);
    let r = edit_list::list_of(
        right,
        l.text,
        l.tokens,
        text,
        &mut rights,
        &mut spans,
        &mut keys,
    );
    let points = l.text + r.text;
    let tokens = l.tokens + r.tokens;
    merge_lists(
        original,
        &text[..points],
        &spans[..tokens * 2],
        &keys[..tokens],
        &lefts[..l.operations * 6],
        &rights[..r.operations * 6],
        out,
    )
}

// The merge of two accepted edit files that use so much of an original. Counts that do not fit this one are refusal 2, and no other comes
// before it. Where they fit, no keep is longer than the original, and a short room is enough.
fn merge_fit(original: &[u32], left: &[u8], right: &[u8], uses: Uses, out: &mut [u8]) -> Outcome
    requires { Fitting original.now left.now right.now uses.left uses.right }
    ensures { Written (good_result original.now (read_file left.now) (read_file right.now)) out.old out.new result }
{
    let n = original.len();
    if uses.left != n {
        return put_refused(2, out);
    }
    if uses.right != n {
        return put_refused(2, out);
    }
    let mut text = [0u32; 2048];
    merge_edits(original, left, right, &mut text, out)
}

// What the program writes for three files that it could read.
pub fn merge_files(original: &[u8], left: &[u8], right: &[u8], out: &mut [u8]) -> Outcome
    ensures { Written (result_of original.now left.now right.now) out.old out.new result }
{
    match check_files(original, left, right) {
        Err(refusal) => put_refused(refusal.number(), out),
        Ok(uses) => {
            let mut points = [0u32; 2048];
            match utf8::read(original, &mut points) {
                Err(_) => Outcome::Room,
                Ok(count) => merge_fit(&points[..count], left, right, uses, out),
            }
        }
    }
}
