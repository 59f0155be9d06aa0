// The writer of edit files. A file that can be written has its length counted, so that the room is tested once, and is then written from
// its first byte to its last.
#![tactic(auto)]

ghost use Rattle.std.specs.Prelude.{◌≡◌, List, ℕ, ◌+◌, ◌≤◌, length};
ghost use Rattle.room.specs.Placed.{Put};
ghost use Rattle.edit_format.specs.Written.{item_lines};
ghost use Rattle.written_lines.specs.Lengths.{cap};
ghost use Rattle.writable.specs.Writable.{file_of};
ghost use Rattle.edit_write.specs.Writing.{length_of, Wrote};
ghost use Rattle.edit_write.specs.Bytes.{file_bytes};

use diff::diff::{Item, Items};
use records::each::Records;
use refusal::Refusal;
use writable::Checked;

// The length of a file with this header and lines of items.
fn file_length(items: Items, lines: usize, original: u64, res: u64) -> usize
    requires { lines ≤ 1099511627776 }
    ensures { (t : List ℕ) → lines ≡ cap (length (item_lines (file_of items.entry.numbers.now t))) → result ≡ cap (length (file_bytes items.entry.numbers.now t original res)) }
{
    let count = items.count() as u64;
    let a = written_lines::plus(7, written_lines::line_length(9, original));
    let b = written_lines::plus(a, written_lines::line_length(7, res));
    let c = written_lines::plus(b, written_lines::line_length(6, count));
    let d = written_lines::plus(c, lines);
    written_lines::plus(d, written_lines::line_length(4, count))
}

// The lines of all items, from a place on.
fn put_items(items: Items, out: &mut [u8], at: usize) -> usize
    requires { at + length (item_lines (file_of items.numbers.now items.text.now)) ≤ length out.old }
    ensures { Put (item_lines (file_of items.entry.numbers.now items.entry.text.now)) out.old at out.new result }
{
    let mut next = at;
    'items: for item in items.each() {
        next = match item {
            Item::Retain(n) => written_lines::put_line(out, next, b"keep=", n),
            Item::Delete(n) => written_lines::put_line(out, next, b"drop=", n),
            Item::Insert { start, length } => {
                written_lines::put_add(out, next, &items.text[start..start + length])
            }
            Item::Neither => written_lines::put_add(out, next, &[]),
        };
    }
    next
}

// The whole file with this header.
fn put_file(items: Items, original: u64, res: u64, out: &mut [u8]) -> usize
    requires { length (file_bytes items.numbers.now items.text.now original res) ≤ length out.old }
    ensures { Put (file_bytes items.entry.numbers.now items.entry.text.now original res) out.old 0 out.new result }
{
    let count = items.count() as u64;
    let a = written_lines::put_line(out, 0, b"form=", 1);
    let b = written_lines::put_line(out, a, b"original=", original);
    let c = written_lines::put_line(out, b, b"result=", res);
    let d = written_lines::put_line(out, c, b"items=", count);
    let e = put_items(items, out, d);
    written_lines::put_line(out, e, b"end=", count)
}

// How many bytes the edit file of a diff has. Kept so: here and in the next call a struct of both slices is no plainer, since each is handed on as C lends it and makes the `Items` once.
pub fn write_length(items: &[i64], text: &[u32]) -> Result<usize, Refusal>
    ensures { result ≡ length_of (file_of items.now text.now) text.now }
{
    let diff = Items::new(items, text);
    let Checked { sums, lines } = writable::check(diff)?;
    let result = sums.kept + sums.added as u64;
    Ok(file_length(diff, lines, sums.used, result))
}

// A diff as an edit file into a room.
pub fn write(items: &[i64], text: &[u32], out: &mut [u8]) -> Result<usize, Refusal>
    ensures { Wrote (file_of items.now text.now) text.now out.old out.new result }
{
    let diff = Items::new(items, text);
    let Checked { sums, lines } = writable::check(diff)?;
    let result = sums.kept + sums.added as u64;
    if out.len() < file_length(diff, lines, sums.used, result) {
        return Err(Refusal::Room);
    }
    Ok(put_file(diff, sums.used, result, out))
}
