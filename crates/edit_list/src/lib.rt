// An accepted edit file made a checked list: its items read, each a raw operation with its tokens, and
// elongated. What the program does with each of its two edit files before it merges them.
#![tactic(auto)]

ghost use Rattle.std.specs.Prelude.{◌≡◌, [], ◌∷◌, ◌+◌, ◌*◌, ◌≤◌, length, take, drop};
ghost use Rattle.diff.specs.Items.{item_at, items_from};
ghost use Rattle.edit_format.specs.Reading.{read_file};
ghost use Rattle.edit_list.specs.Raws.{point_tokens, part_token, items_in};
ghost use Rattle.edit_list.specs.Lists.{Listable, Lists};
ghost use Rattle.edit_list.specs.Steps.{SameRooms, TokensPut, PointsFit, RunPut, RunFits, ItemsLent, Fits, Filled, run_in, runs_in, Readable, ItemsRead, Makeable, RawsMade, shifted_from, Shiftable, Elongable, Raised};

use diff::diff::Item;
use elongate::Written;
use item_records::Counts;
use raw_lists::RawTokens;
use records::{DELETE, INSERT, RETAIN, Token, Tokens};

// How many operations, tokens and code points the list has.
#[derive(Clone, Copy)]
pub struct Listed {
    pub operations: usize,
    pub tokens: usize,
    pub text: usize,
}

// How many items and code points a file has, and how many tokens they make.
#[derive(Clone, Copy)]
pub struct Made {
    pub items: usize,
    pub tokens: usize,
    pub text: usize,
}

// The rooms of a raw list: its operations, three numbers each, and its tokens, two numbers each in one room and a key in another.
#[derive(Drop)]
pub struct RawRooms<'a> {
    pub raw: &'a mut [usize],
    pub spans: &'a mut [u32],
    pub keys: &'a mut [u32],
}

impl<'a> RawRooms<'a> {
    // A token as the i-th.
    fn put_token(&mut self, i: usize, token: Token)
        requires { (i * 2 + 2 ≤ length self.old.spans.now) × (i + 1 ≤ length self.old.keys.now) }
        ensures same { SameRooms self.old self.new }
        ensures raw { self.new.raw.now ≡ self.old.raw.now }
        ensures tokens { TokensPut (record { start = token.start; length = token.length; key = token.key; joins = 3 } ∷ []) i self.old.spans.now self.old.keys.now self.new.spans.now self.new.keys.now }
    {
        room::put(&[token.start, token.length], self.spans, i * 2);
        room::put(&[token.key], self.keys, i);
    }

    // A token for each code point of a part of the text, keyed by itself.
    fn put_points(&mut self, text: &[u32], from: usize, count: usize, at: usize)
        requires { PointsFit text.now from count self.old.spans.now self.old.keys.now at }
        ensures same { SameRooms self.old self.new }
        ensures raw { self.new.raw.now ≡ self.old.raw.now }
        ensures tokens { TokensPut (point_tokens from (take count (drop from text.now))) at self.old.spans.now self.old.keys.now self.new.spans.now self.new.keys.now }
    {
        'points: for (j, point) in text[from..from + count].iter().enumerate() {
            let token = Token {
                start: (from + j) as u32,
                length: 1,
                key: *point,
            };
            self.put_token(at + j, token);
        }
    }

    // A keep or a drop, and its one token.
    fn put_part(&mut self, i: usize, kind: usize, n: u64, first: usize) -> usize
        requires { RunFits (record { kind = kind; tokens = part_token n ∷ [] }) i first self.old.raw.now self.old.spans.now self.old.keys.now }
        ensures same { SameRooms self.old self.new }
        ensures run { RunPut (record { kind = kind; tokens = part_token n ∷ [] }) i first self.old.raw.now self.old.spans.now self.old.keys.now self.new.raw.now self.new.spans.now self.new.keys.now result }
    {
        room::put(&[kind, first, 1], self.raw, i * 3);
        let token = Token {
            start: 0,
            length: n as u32,
            key: 0,
        };
        self.put_token(first, token);
        first + 1
    }

    // The i-th item as the i-th raw operation.
    // Kept so: a struct of items and text is no plainer, since the clauses speak of places of the whole text, of which the items' is a part.
    fn put_item(
        &mut self,
        items: &[i64],
        i: usize,
        lent: usize,
        text: &[u32],
        at: usize,
        first: usize,
    ) -> usize
        requires { ItemsLent items.now (i + 1) lent text.now at × RunFits (run_in text.now at (item_at items.now lent i)) i first self.old.raw.now self.old.spans.now self.old.keys.now }
        ensures same { SameRooms self.old self.new }
        ensures run { RunPut (run_in text.now at (item_at items.now lent i)) i first self.old.raw.now self.old.spans.now self.old.keys.now self.new.raw.now self.new.spans.now self.new.keys.now result }
    {
        match diff::diff::item_at(items, lent, i) {
            Item::Retain(n) => self.put_part(i, RETAIN, n, first),
            Item::Delete(n) => self.put_part(i, DELETE, n, first),
            Item::Insert { start, length } => {
                room::put(&[INSERT, first, length], self.raw, i * 3);
                self.put_points(text, at + start, length, first);
                first + length
            }
            Item::Neither => first,
        }
    }

    // All items as a raw list; how many tokens they make.
    // Kept so: an iterator is no plainer, since `put_item` puts an item at its own place, and its text at a place of the whole text.
    fn fill(&mut self, items: &[i64], count: usize, lent: usize, text: &[u32], at: usize) -> usize
        requires { ItemsLent items.now count lent text.now at × Fits (runs_in text.now at (items_from items.now lent 0 count)) self.old.raw.now self.old.spans.now self.old.keys.now }
        ensures same { SameRooms self.old self.new }
        ensures filled { Filled (runs_in text.now at (items_from items.now lent 0 count)) self.old.raw.now self.old.spans.now self.old.keys.now self.new.raw.now self.new.spans.now self.new.keys.now result }
    {
        let mut tokens = 0;
        'items: for i in 0..count {
            tokens = self.put_item(items, i, lent, text, at, tokens);
        }
        tokens
    }
}

// The file's items into their room, its text to place `at` of the lent text.
fn read_at(file: &[u8], at: usize, text: &mut [u32], items: &mut [i64]) -> Counts
    requires { Readable file.now at text.old items.old }
    ensures { ItemsRead (items_in (read_file file.now)) at text.old text.new items.old items.new result }
{
    match edit_read::read(file, items, &mut text[at..]) {
        Ok(counts) => counts,
        Err(_) => Counts { items: 0, text: 0 },
    }
}

// The file's raw list.
fn raws_of(file: &[u8], at: usize, text: &mut [u32], rooms: &mut RawRooms) -> Made
    requires { Makeable file.now at text.old rooms.old.raw.now rooms.old.spans.now rooms.old.keys.now }
    ensures same { SameRooms rooms.old rooms.new }
    ensures made { RawsMade (items_in (read_file file.now)) at text.old text.new rooms.old.raw.now rooms.old.spans.now rooms.old.keys.now rooms.new.raw.now rooms.new.spans.now rooms.new.keys.now result }
{
    let mut items = [0i64; 1023];
    let sizes = read_at(file, at, text, &mut items);
    let tokens = rooms.fill(&items, sizes.items, sizes.text, text, at);
    Made {
        items: sizes.items,
        tokens,
        text: sizes.text,
    }
}

// The first tokens of so many operations, each so much further on.
// Kept so: chunks that are written to are no plainer, since the proof would have to say what stands in the room around each.
fn shift(operations: &mut [usize], count: usize, by: usize)
    requires { Shiftable operations.old count by }
    ensures { operations.new ≡ shifted_from operations.old by 0 count }
{
    'shift: for i in 0..count {
        operations[i * 6 + 4] += by;
    }
}

// A raw list elongated, its tokens to place `first` of the lent tokens. All tokens are joinable.
fn elongate_at(
    raw: &[usize],
    tokens: Tokens,
    text: &[u32],
    first: usize,
    operations: &mut [usize],
    spans: &mut [u32],
    keys: &mut [u32],
) -> Written
    requires { Elongable raw.now tokens.spans.now tokens.keys.now text.now first operations.old spans.old keys.old }
    ensures { Raised raw.now tokens.entry.spans.now tokens.entry.keys.now first operations.old spans.old keys.old operations.new spans.new keys.new result }
{
    let joins = [3u8; 1024];
    let lent = RawTokens {
        tokens,
        joins: &joins,
    };
    let mut joined = [0u8; 1024];
    let low = first * 2;
    match elongate::elongate(
        raw,
        lent,
        text,
        operations,
        &mut spans[low..],
        &mut keys[first..],
        &mut joined,
    ) {
        Ok(written) => {
            shift(operations, written.operations, first);
            written
        }
        Err(_) => Written {
            operations: 0,
            tokens: 0,
        },
    }
}

// The file's text goes to place `at` of the lent text, its tokens to place `first` of the lent tokens,
// its operations to the front of their room.
pub fn list_of(
    file: &[u8],
    at: usize,
    first: usize,
    text: &mut [u32],
    operations: &mut [usize],
    spans: &mut [u32],
    keys: &mut [u32],
) -> Listed
    requires { Listable file.now at first text.old operations.old spans.old keys.old }
    ensures { Lists (items_in (read_file file.now)) at first text.old text.new operations.old operations.new spans.old spans.new keys.old keys.new result }
{
    let mut raw = [0usize; 1023];
    let mut raw_spans = [0u32; 2048];
    let mut raw_keys = [0u32; 1024];
    let mut rooms = RawRooms {
        raw: &mut raw,
        spans: &mut raw_spans,
        keys: &mut raw_keys,
    };
    let made = raws_of(file, at, text, &mut rooms);
    let RawRooms {
        raw,
        spans: raw_spans,
        keys: raw_keys,
    } = rooms;
    let end = made.items * 3;
    let tokens = Tokens {
        spans: raw_spans,
        keys: raw_keys,
    };
    let written = elongate_at(&raw[..end], tokens, text, first, operations, spans, keys);
    Listed {
        operations: written.operations,
        tokens: written.tokens,
        text: made.text,
    }
}
