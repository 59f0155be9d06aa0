// The reader of edit files: line by line from any bytes. All of a file is judged first, in one pass that writes nothing; an accepted
// file's items and text then go into the rooms in a second pass over its item lines.
#![tactic(auto)]

ghost use Rattle.std.specs.Prelude.{◌≡◌, List, [], ◌+◌, ◌*◌, ◌≤◌, ◌<◌, length, drop};
ghost use Rattle.room.specs.Placed.{answered};
ghost use Rattle.edit_format.specs.Items.{Item};
ghost use Rattle.edit_format.specs.Written.{Head};
ghost use Rattle.edit_format.specs.Reading.{kind_key, key, gap, item, adding, open', read_file, believes};
ghost use Rattle.edit_read.specs.Judged.{NumberRead, Ruled, HeadRead, PointsRead, Within, part_kind, ItemRead, Judging, Judged};
ghost use Rattle.edit_read.specs.Filled.{records_found, text_found, PointsPut, Numbered, NumberPut, ItemPut, Accepting, Fillable};
ghost use Rattle.edit_read.specs.Answer.{lengths_of, ReadInto};

use diff::diff::{NUMBER, TEXT};
use edit_lines::{Number, Point};
use item_records::{Counts, dropped_number, plain_number, put_record};
use refusal::Refusal;

// How many code points an add line has, and the place after it.
#[derive(Clone, Copy)]
pub struct Points {
    pub count: u32,
    pub next: usize,
}

// What the header says, and the place after it.
#[derive(Clone, Copy)]
pub struct Header {
    pub original: u32,
    pub result: u32,
    pub count: u32,
    pub next: usize,
}

// The items so far: what they use of the original, what of it they keep, what they add, whether the last is a keep; and the place after
// them.
#[derive(Clone, Copy)]
pub struct Sums {
    pub next: usize,
    pub used: u32,
    pub kept: u32,
    pub added: u32,
    pub joined: bool,
}

// A file's next place in the text's room, and the place of its next line.
#[derive(Clone, Copy)]
pub struct Spot {
    pub start: usize,
    pub next: usize,
}

// How many items, with how many code points; the original's length; the place of the first item's line.
#[derive(Clone, Copy)]
pub struct Accepted {
    pub items: usize,
    pub text: usize,
    pub original: usize,
    pub first: usize,
}

// The number of a line, or the line is bad.
fn number_in(bytes: &[u8], at: usize, key: &[u8], line: usize) -> Result<Number, Refusal>
    requires { at ≤ length bytes.now }
    ensures { NumberRead key.now bytes.now at line result }
{
    edit_lines::number_line(bytes, at, key).ok_or(Refusal::Line { line })
}

// A rule of a line.
fn check(holds: bool, line: usize) -> Result<(), Refusal>
    ensures { Ruled holds line result }
{
    if holds {
        Ok(())
    } else {
        Err(Refusal::Line { line })
    }
}

// The code points of an add line, after items that add so many: the text's size is tested before each.
fn points_at(bytes: &[u8], at: usize, added: u32) -> Option<Points>
    requires { (at ≤ length bytes.now) × (added ≤ 131070) }
    ensures { PointsRead bytes.now at added result }
{
    let mut i = at;
    'points: for count in 0..131070 - added {
        match edit_lines::point_at(bytes, i)? {
            Point::More { point: _, next } => i = next,
            Point::Last { point: _, next } => {
                return Some(Points {
                    count: count + 1,
                    next,
                });
            }
        }
    }
    None
}

// The key of a keep's line or of a drop's.
#[tactic(auto, unfolding(crate::specs::Judged::part_kind, edit_format::specs::Reading::kind_key))]
fn part_key(keep: bool) -> &'static [u8]
    ensures { result.now ≡ kind_key (part_kind keep) }
{
    if keep { b"keep=" } else { b"drop=" }
}

// A line of a keep or a drop, after the items so far. Laid out for each of the two, whose keys are known there.
#[inline(always)]
fn part_line(bytes: &[u8], s: Sums, keep: bool) -> Option<Sums>
    requires { Within bytes.now s }
    ensures { ItemRead (λ (h : Head). λ (is : List Item). key (item h is (part_kind keep)) 0) bytes.now s result }
{
    let Number { value, next } = edit_lines::number_line(bytes, s.next, part_key(keep))?;
    if keep && s.joined {
        return None;
    }
    if value < 1 || 65535 - s.used < value {
        return None;
    }
    let kept = if keep { value } else { 0 };
    Some(Sums {
        next,
        used: s.used + value,
        kept: s.kept + kept,
        joined: keep,
        ..s
    })
}

// A line of code points, after the items so far.
fn add_line(bytes: &[u8], s: Sums) -> Option<Sums>
    requires { Within bytes.now s }
    ensures { ItemRead (λ (h : Head). λ (is : List Item). key (item h is adding) 0) bytes.now s result }
{
    if !edit_lines::has_key(bytes, s.next, b"add=") {
        return None;
    }
    let Points { count, next } = points_at(bytes, s.next + 4, s.added)?;
    Some(Sums {
        next,
        added: s.added + count,
        joined: false,
        ..s
    })
}

// The next item line: its first byte says which kind it can be.
fn item_line(bytes: &[u8], s: Sums) -> Option<Sums>
    requires { Within bytes.now s }
    ensures { ItemRead open' bytes.now s result }
{
    match *bytes.get(s.next)? {
        b'k' => part_line(bytes, s, true),
        b'd' => part_line(bytes, s, false),
        _ => add_line(bytes, s),
    }
}

// Lines 1 to 4.
fn read_header(bytes: &[u8]) -> Result<Header, Refusal>
    ensures { HeadRead bytes.now result }
{
    let form = number_in(bytes, 0, b"form=", 1)?;
    check(form.value == 1, 1)?;
    let original = number_in(bytes, form.next, b"original=", 2)?;
    check(original.value <= 65535, 2)?;
    let result = number_in(bytes, original.next, b"result=", 3)?;
    let items = number_in(bytes, result.next, b"items=", 4)?;
    check(items.value <= 8192, 4)?;
    Ok(Header {
        original: original.value,
        result: result.value,
        count: items.value,
        next: items.next,
    })
}

// The end line after all items, nothing after it, and the sums.
fn judge_end(bytes: &[u8], h: Header, s: Sums) -> Result<Accepted, Refusal>
    requires { Judging bytes.now h s h.count }
    ensures { Judged bytes.now result }
{
    let items = h.count as usize;
    let end = number_in(bytes, s.next, b"end=", items + 5)?;
    check(end.value == h.count, items + 5)?;
    check(bytes.len() <= end.next, items + 6)?;
    check(s.used == h.original, 2)?;
    check(s.kept + s.added == h.result, 3)?;
    Ok(Accepted {
        items,
        text: s.added as usize,
        original: s.used as usize,
        first: h.next,
    })
}

// The item lines after a good header.
#[tactic(auto, using(crate::proofs::Judging::begins, crate::proofs::Judging::goes_on, crate::proofs::Judging::fails, crate::proofs::Judging::whole))]
fn judge_items(bytes: &[u8], h: Header) -> Result<Accepted, Refusal>
    requires { HeadRead bytes.now (Ok h) }
    ensures { Judged bytes.now result }
{
    let mut s = Sums {
        next: h.next,
        used: 0,
        kept: 0,
        added: 0,
        joined: false,
    };
    'items: for i in 0..h.count as usize {
        s = item_line(bytes, s).ok_or(Refusal::Line { line: i + 5 })?;
    }
    judge_end(bytes, h, s)
}

// What reading all of the bytes finds.
#[tactic(auto, using(crate::proofs::Judging::bad_header))]
pub fn judge(bytes: &[u8]) -> Result<Accepted, Refusal>
    ensures { Judged bytes.now result }
{
    judge_items(bytes, read_header(bytes)?)
}

// How many items and code points a file has: what its reader must be lent.
pub fn read_lengths(bytes: &[u8]) -> Result<Counts, Refusal>
    ensures { result ≡ lengths_of (read_file bytes.now) }
{
    let file = judge(bytes)?;
    Ok(Counts {
        items: file.items,
        text: file.text,
    })
}

// Whether a file is believed for an original of this length.
pub fn believed(bytes: &[u8], original: usize) -> bool
    ensures { result ≡ believes (read_file bytes.now) original }
{
    match judge(bytes) {
        Ok(file) => file.original == original,
        Err(_) => false,
    }
}

// The code points of an add line into the text's room, from a place on. All was judged, so that no digit is tested again, and neither is
// the room.
fn put_points(bytes: &[u8], from: Spot, text: &mut [u32]) -> Spot
    requires { (from.start ≤ length text.old) × Accepting (λ (h : Head). λ (is : List Item). gap (item h is adding) []) bytes.now from.next from.start (length text.old) }
    ensures { PointsPut bytes.now from.next from.start text.old text.new result }
{
    let mut start = from.start;
    let mut at = from.next;
    // Kept so: a `for` over the room is no plainer, since the line's end alone ends it and the room's end would need an answer.
    'points: loop {
        match edit_lines::judged_at(bytes, at) {
            Point::More { point, next } => {
                text[start] = point;
                start += 1;
                at = next;
            }
            Point::Last { point, next } => {
                text[start] = point;
                return Spot {
                    start: start + 1,
                    next,
                };
            }
        }
    }
}

// A keep or a drop into the rooms. All was judged, so that neither key nor number is tested again.
fn put_part(bytes: &[u8], from: Spot, keep: bool, items: &mut [i64], place: usize) -> Spot
    requires { (place + 3 ≤ length items.old) × Numbered (part_kind keep) bytes.now from.next }
    ensures { NumberPut bytes.now (part_kind keep) from.next from.start place items.old items.new result }
{
    let line = edit_lines::judged_line(bytes, from.next + 5);
    let n = line.value as usize;
    let number = if keep {
        plain_number(n)
    } else {
        dropped_number(n)
    };
    put_record(items, place, NUMBER, number, 0);
    Spot {
        next: line.next,
        ..from
    }
}

// An add line into the rooms.
fn put_add(bytes: &[u8], from: Spot, items: &mut [i64], place: usize, text: &mut [u32]) -> Spot
    requires { (place + 3 ≤ length items.old) × (from.start ≤ length text.old) × Accepting (λ (h : Head). λ (is : List Item). key (item h is adding) 0) bytes.now from.next from.start (length text.old) }
    ensures { ItemPut (λ (h : Head). λ (is : List Item). key (item h is adding) 0) bytes.now from.next from.start place items.old items.new text.old text.new result }
{
    let start = from.start;
    let behind_key = Spot {
        next: from.next + 4,
        ..from
    };
    let end = put_points(bytes, behind_key, text);
    put_record(
        items,
        place,
        TEXT,
        plain_number(start),
        plain_number(end.start - start),
    );
    end
}

// The next item line into the rooms: its first byte says its kind.
fn put_item(bytes: &[u8], from: Spot, items: &mut [i64], place: usize, text: &mut [u32]) -> Spot
    requires { (place + 3 ≤ length items.old) × (from.start ≤ length text.old) × Accepting open' bytes.now from.next from.start (length text.old) }
    ensures { ItemPut open' bytes.now from.next from.start place items.old items.new text.old text.new result }
{
    match bytes[from.next] {
        b'k' => put_part(bytes, from, true, items, place),
        b'd' => put_part(bytes, from, false, items, place),
        _ => put_add(bytes, from, items, place, text),
    }
}

// All items of an accepted file.
fn fill(bytes: &[u8], file: Accepted, items: &mut [i64], text: &mut [u32])
    requires { Fillable bytes.now file.first file.items (length items.old) (length text.old) }
    ensures { (items.new ≡ answered (records_found (read_file bytes.now)) items.old) × (text.new ≡ answered (text_found (read_file bytes.now)) text.old) }
{
    let mut spot = Spot {
        start: 0,
        next: file.first,
    };
    // Kept so: chunks that are written to are no plainer, since the proof would have to say what stands in the room around each.
    'items: for i in 0..file.items {
        spot = put_item(bytes, spot, items, i * 3, text);
    }
}

// An edit file's items and text into the rooms. All is judged first, so a refusal writes nothing, and 8 comes before 7.
pub fn read(bytes: &[u8], items: &mut [i64], text: &mut [u32]) -> Result<Counts, Refusal>
    ensures { ReadInto (read_file bytes.now) items.old text.old items.new text.new result }
{
    let file = judge(bytes)?;
    if items.len() / 3 < file.items || text.len() < file.text {
        return Err(Refusal::Room);
    }
    fill(bytes, file, items, text);
    Ok(Counts {
        items: file.items,
        text: file.text,
    })
}
