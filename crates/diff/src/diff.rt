// A diff is lent as a flat slice of 64-bit numbers, three to an item: kind, number or start, length.
// Kind 0 is a number, whose sign chooses retain or delete; kind 1 a text, a range of the lent text.
// Kept so: the C interface lends items as numbers.
ghost use Rattle.std.specs.Prelude.{◌≡◌, ◌+◌, ◌-◌, ◌*◌, ◌/◌, ◌<◌, ◌≤◌, length, nat_abs, IfOk, IfErr};
ghost use Rattle.refusal.specs.declared.Refusal.TheVariants.{Short};
ghost use Rattle.diff.specs.Items.{numbered, ranged, item_at, items_of};
ghost use Rattle.diff.specs.Replay.{edits_of};
ghost use Rattle.diff.specs.Passes.{surveyed, walked};

use records::each::Records;
use refusal::Refusal;

// The kinds of an item's record.
pub const NUMBER: i64 = 0;

pub const TEXT: i64 = 1;

// An item read out of the slice. Neither: of unknown kind, or a range outside what was lent.
// Kept so: an Option of the three other cases is no plainer, since each match would name it at every case.
#[derive(Clone, Copy, Debug, PartialEq, Eq)]
pub enum Item {
    Retain(u64),
    Delete(u64),
    Insert { start: usize, length: usize },
    Neither,
}

// The size of a number, that of the smallest included: no negation of it is made.
pub fn magnitude(number: i64) -> u64
    ensures { result ≡ nat_abs number }
{
    number.unsigned_abs()
}

// What a number asks for.
#[tactic(auto, unfolding(crate::specs::Items::numbered))]
pub fn number_item(number: i64) -> Item
    ensures { result ≡ numbered number }
{
    if number < 0 {
        Item::Delete(magnitude(number))
    } else {
        Item::Retain(magnitude(number))
    }
}

// What a text asks for, of so many code points lent.
#[tactic(auto, unfolding(crate::specs::Items::ranged))]
pub fn text_item(start: i64, length: i64, lent: usize) -> Item
    ensures { result ≡ ranged start length lent }
{
    if start < 0 || length < 0 {
        return Item::Neither;
    }
    if lent < start as usize + length as usize {
        return Item::Neither;
    }
    Item::Insert {
        start: start as usize,
        length: length as usize,
    }
}

// The item at a place.
#[tactic(auto, unfolding(crate::specs::Items::item_at, crate::specs::Items::item_of))]
pub fn item_at(items: &[i64], lent: usize, i: usize) -> Item
    requires { i * 3 + 3 ≤ length items.now }
    ensures { result ≡ item_at items.now lent i }
{
    let b = i * 3;
    match items[b] {
        NUMBER => number_item(items[b + 1]),
        TEXT => text_item(items[b + 1], items[b + 2], lent),
        _ => Item::Neither,
    }
}

// What a look at all items finds, of so many code points lent: refusal 3 by what the texts use, and within it refusal 1, the first item that is neither number nor text, or how much text is used.
pub fn survey(items: &[i64], lent: usize) -> Result<Result<usize, Refusal>, Refusal>
    ensures { result ≡ surveyed (items_of items.now lent) }
{
    let count = items.len() / 3;
    let mut sum: usize = 0;
    // The place of the first item that is neither, or how many there are. The refusal in its place was tried, and slower: each turn asks whether there is one. An Option is as quick.
    let mut bad = count;
    // Kept so: `Items`, which has an iterator, wants the text, of which only the length is lent here.
    'items: for i in 0..count {
        match item_at(items, lent, i) {
            Item::Insert { start: _, length } => {
                if 131070 - sum < length {
                    return Err(Refusal::Size);
                }
                sum += length;
            }
            Item::Retain(_) | Item::Delete(_) => {}
            Item::Neither => bad = bad.min(i),
        }
    }
    if bad < count {
        return Ok(Err(Refusal::Record { index: bad }));
    }
    Ok(Ok(sum))
}

// The items of a diff as they are lent: their numbers, and the text that they use.
#[derive(Clone, Copy)]
pub struct Items<'a> {
    pub numbers: &'a [i64],
    pub text: &'a [u32],
}

impl<'a> Records for Items<'a> {
    type Record = Item;

    ghost count = { λ t. length t.numbers.now / 3 };

    ghost record_at = { λ t i. item_at t.numbers.now (length t.text.now) i };

    fn count(self) -> usize {
        self.numbers.len() / 3
    }

    fn at(self, i: usize) -> Item {
        item_at(self.numbers, self.text.len(), i)
    }
}

// Where the numbers lead over an original: the position, and how much is retained up to there.
#[derive(Clone, Copy, Debug, PartialEq, Eq)]
pub struct Reached {
    pub position: usize,
    pub kept: usize,
}

// How much a number asks of an original at a position; refusal 6 where that is more than is left.
fn asked(position: usize, len: usize, n: u64) -> Result<usize, Refusal>
    requires { position ≤ len }
    ensures enough { IfOk result (λ m. (m ≡ n) × (n ≤ len - position)) }
    ensures short { IfErr result (λ r. (r ≡ Short position n (len - position)) × (len - position < n)) }
{
    let available = len - position;
    if (available as u64) < n {
        return Err(Refusal::Short {
            position,
            requested: n,
            available,
        });
    }
    Ok(n as usize)
}

impl<'a> Items<'a> {
    pub fn new(numbers: &'a [i64], text: &'a [u32]) -> Items<'a>
        ensures { (result.numbers ≡ numbers.entry) × (result.text ≡ text.entry) }
    {
        Items { numbers, text }
    }

    // The same of items and the text that they use.
    pub fn survey(self) -> Result<Result<usize, Refusal>, Refusal>
        ensures { result ≡ surveyed (items_of self.entry.numbers.now (length self.entry.text.now)) }
    {
        survey(self.numbers, self.text.len())
    }

    // Where the numbers lead over an original of so many code points; refusal 6, the first that asks too much.
    pub fn walk(self, len: usize) -> Result<Reached, Refusal>
        ensures { result ≡ walked len (edits_of self.entry.text.now (items_of self.entry.numbers.now (length self.entry.text.now))) }
    {
        let mut position: usize = 0;
        let mut kept: usize = 0;
        'items: for item in self.each() {
            match item {
                Item::Retain(n) => {
                    let n = asked(position, len, n)?;
                    position += n;
                    kept += n;
                }
                Item::Delete(n) => {
                    let n = asked(position, len, n)?;
                    position += n;
                }
                Item::Insert {
                    start: _,
                    length: _,
                }
                | Item::Neither => {}
            }
        }
        Ok(Reached { position, kept })
    }
}
