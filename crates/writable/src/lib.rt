// Whether a diff can be written as an edit file, its sums and the length of its items' lines: what is lent is checked in passes over the
// items and the text.
#![tactic(auto)]

ghost use Rattle.std.specs.Prelude.{◌≡◌, false, ◌/◌, ◌<◌, ◌≤◌, length, IfSome};
ghost use Rattle.edit_format.specs.Written.{item_lines};
ghost use Rattle.written_lines.specs.Lengths.{cap, further};
ghost use Rattle.writable.specs.Writable.{file_of, shapes, writable};
ghost use Rattle.writable.specs.Passes.{sums_with, keeps, tally_of, checked_by, Sound};

use diff::diff::{Item, Items};
use records::each::Records;
use refusal::Refusal;

// What the items keep of an original, use of it, and add.
#[derive(Clone, Copy, Debug, PartialEq, Eq)]
pub struct Sums {
    pub kept: u64,
    pub used: u64,
    pub added: usize,
}

// The sums of no items.
const NOTHING: Sums = Sums {
    kept: 0,
    used: 0,
    added: 0,
};

// What is known of items that can be written: their sums, and the length of all their lines.
#[derive(Clone, Copy, Debug, PartialEq, Eq)]
pub struct Checked {
    pub sums: Sums,
    pub lines: usize,
}

impl Sums {
    // The sums with one item more; none where that passes a size.
    #[tactic(auto, unfolding(crate::specs::Passes::sums_with))]
    fn with(self, item: Item) -> Option<Sums>
        requires { (self.kept ≤ self.used) × (self.used ≤ 65535) × (self.added ≤ 131070) }
        ensures { result ≡ sums_with self item }
    {
        match item {
            Item::Retain(n) if n <= 65535 - self.used => Some(Sums {
                kept: self.kept + n,
                used: self.used + n,
                ..self
            }),
            Item::Delete(n) if n <= 65535 - self.used => Some(Sums {
                used: self.used + n,
                ..self
            }),
            Item::Insert { start: _, length } if length <= 131070 - self.added => Some(Sums {
                added: self.added + length,
                ..self
            }),
            Item::Neither => Some(self),
            _ => None,
        }
    }
}

// Whether an item is a keep; none where no line can say it: it has no length, is a keep behind another, or is neither number nor text.
#[tactic(auto, unfolding(crate::specs::Passes::keeps))]
fn keeps(item: Item, joined: bool) -> Option<bool>
    ensures { result ≡ keeps joined item }
{
    match item {
        Item::Retain(n) if 1 <= n && !joined => Some(true),
        Item::Delete(n) if 1 <= n => Some(false),
        Item::Insert { start: _, length } if 1 <= length => Some(false),
        _ => None,
    }
}

// Refusal 3 by the items: the sums stop at the first step that passes a size.
fn sum_items(items: Items) -> Result<Sums, Refusal>
    ensures { result ≡ tally_of (file_of items.entry.numbers.now items.entry.text.now) }
{
    let mut sums = NOTHING;
    'items: for item in items.each() {
        sums = sums.with(item).ok_or(Refusal::Size)?;
    }
    Ok(sums)
}

// Refusal 1: the first item that no line can say.
fn first_bad(items: Items) -> Result<(), Refusal>
    ensures { result ≡ shapes false 0 (file_of items.entry.numbers.now items.entry.text.now) }
{
    let mut joined = false;
    'items: for (i, item) in items.each().enumerate() {
        joined = keeps(item, joined).ok_or(Refusal::Record { index: i })?;
    }
    Ok(())
}

// The length of all items' lines.
fn items_length(items: Items) -> usize
    ensures { result ≡ cap (length (item_lines (file_of items.entry.numbers.now items.entry.text.now))) }
{
    let mut sum: usize = 0;
    'items: for item in items.each() {
        let line = match item {
            Item::Retain(n) | Item::Delete(n) => written_lines::line_length(5, n),
            Item::Insert { start, length } => written_lines::plus(
                5,
                written_lines::points_length(&items.text[start..start + length]),
            ),
            Item::Neither => 5,
        };
        sum = written_lines::plus(sum, line);
    }
    sum
}

// How much a text takes in the lines of items that part it, beside their keys: a byte after each code point.
fn parted_length(text: &[u32]) -> usize
    ensures { result ≡ cap (length (further text.now)) }
{
    if text.is_empty() {
        return 0;
    }
    written_lines::plus(1, written_lines::points_length(text))
}

// One pass for all that most diffs need: nothing to refuse, or none where that does not show. The texts of such a diff follow one another
// over all that is lent, so that it is measured at once.
fn look(items: Items) -> Option<Checked>
    requires { (length items.numbers.now / 3 ≤ 8192) × (length items.text.now ≤ 131070) }
    ensures { IfSome result (λ c. Sound (file_of items.entry.numbers.now items.entry.text.now) c.sums c.lines) }
{
    let mut sums = NOTHING;
    let mut lines: usize = 0;
    let mut joined = false;
    'look: for item in items.each() {
        joined = keeps(item, joined)?;
        let more = sums.with(item)?;
        match item {
            Item::Retain(n) | Item::Delete(n) => lines += written_lines::line_length(5, n),
            Item::Insert { start, length: _ } if start == sums.added => lines += 4,
            _ => return None,
        }
        sums = more;
    }
    if sums.added < items.text.len() {
        return None;
    }
    Some(Checked {
        sums,
        lines: written_lines::plus(lines, parted_length(items.text)),
    })
}

// Refusals 3, 4 and 1 of few items and a short text, each by a pass of its own.
fn inspect(items: Items) -> Result<Checked, Refusal>
    requires { (length items.numbers.now / 3 ≤ 8192) × (length items.text.now ≤ 131070) }
    ensures { result ≡ checked_by (writable (file_of items.entry.numbers.now items.entry.text.now) items.entry.text.now) (file_of items.entry.numbers.now items.entry.text.now) }
{
    let sums = sum_items(items)?;
    verdict::check_text(items.text)?;
    first_bad(items)?;
    Ok(Checked {
        sums,
        lines: items_length(items),
    })
}

// Refusals 3, 4 and 1.
pub fn check(items: Items) -> Result<Checked, Refusal>
    ensures { result ≡ checked_by (writable (file_of items.entry.numbers.now items.entry.text.now) items.entry.text.now) (file_of items.entry.numbers.now items.entry.text.now) }
{
    if 8192 < items.count() {
        return Err(Refusal::Size);
    }
    if 131070 < items.text.len() {
        return Err(Refusal::Size);
    }
    match look(items) {
        Some(checked) => {
            verdict::check_text(items.text)?;
            Ok(checked)
        }
        None => inspect(items),
    }
}
