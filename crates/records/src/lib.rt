// Operations, tokens and cursors, read by value out of flat slices and put into lent rooms. An
// operation is six numbers, a cursor two; a token is two numbers of one slice and a key of another.
// A slice that ends inside a record does not lend it. Sides: 0 left, 1 right.
#![tactic(auto)]

ghost use Rattle.std.specs.Prelude.{◌≡◌, ◌+◌, ◌*◌, ◌/◌, ◌<◌, ◌≤◌, length};
ghost use Rattle.records.specs.Operations.{operation_at, put_operation};
ghost use Rattle.records.specs.Tokens.{token_at, tokens_lent};
ghost use Rattle.records.specs.Cursors.{cursor_at, put_cursor, at_index};

pub mod each;

use each::Records;

// The kinds of an operation; a number above the last is none.
pub const DELETE: usize = 0;

pub const INSERT: usize = 1;

pub const RETAIN: usize = 2;

#[derive(Clone, Copy)]
pub struct Operation {
    // Kept so: kind and side are numbers, since the C interface lends numbers and any may come in.
    pub kind: usize,
    pub order: usize,
    pub length: usize,
    pub side: usize,
    pub first: usize,
    pub count: usize,
}

#[derive(Clone, Copy)]
pub struct Token {
    pub start: u32,
    pub length: u32,
    pub key: u32,
}

// The tokens lent: two numbers each in one slice, a key in another.
#[derive(Clone, Copy)]
pub struct Tokens<'a> {
    pub spans: &'a [u32],
    pub keys: &'a [u32],
}

impl<'a> Records for Tokens<'a> {
    type Record = Token;

    ghost count = { λ t. tokens_lent t.spans.now t.keys.now };

    ghost record_at = { λ t i. token_at t.spans.now t.keys.now i };

    // How many tokens are lent: those that both slices reach.
    fn count(self) -> usize {
        std::cmp::min(self.spans.len() / 2, self.keys.len())
    }

    // The i-th token.
    fn at(self, i: usize) -> Token {
        let b = i * 2;
        Token {
            start: self.spans[b],
            length: self.spans[b + 1],
            key: self.keys[i],
        }
    }
}

// The operations of a list as they are lent, six numbers each.
#[derive(Clone, Copy)]
pub struct Operations<'a>(pub &'a [usize]);

impl<'a> Records for Operations<'a> {
    type Record = Operation;

    ghost count = { λ o. length o.0.now / 6 };

    ghost record_at = { λ o i. operation_at o.0.now i };

    fn count(self) -> usize {
        self.0.len() / 6
    }

    fn at(self, i: usize) -> Operation {
        operation_at(self.0, i)
    }
}

// The cursors of a list as they are lent, two numbers each.
#[derive(Clone, Copy)]
pub struct Cursors<'a>(pub &'a [usize]);

impl<'a> Records for Cursors<'a> {
    type Record = Cursor;

    ghost count = { λ c. length c.0.now / 2 };

    ghost record_at = { λ c i. cursor_at c.0.now i };

    fn count(self) -> usize {
        self.0.len() / 2
    }

    fn at(self, i: usize) -> Cursor {
        cursor_at(self.0, i)
    }
}

// What the lists of a call stand over: the original, the text that they insert, and the tokens.
#[derive(Clone, Copy)]
pub struct Lent<'a> {
    pub original: &'a [u32],
    pub text: &'a [u32],
    pub tokens: Tokens<'a>,
}

// A list as it is lent: its operations, six numbers each, and its cursors, two numbers each.
#[derive(Clone, Copy)]
pub struct List<'a> {
    pub operations: &'a [usize],
    pub cursors: &'a [usize],
}

#[derive(Clone, Copy)]
pub struct Cursor {
    pub identity: usize,
    pub index: usize,
}

impl Cursor {
    // The cursor at a new index, with its identity number.
    pub fn with_index(self, index: usize) -> Cursor
        ensures { result ≡ at_index self index }
    {
        Cursor {
            identity: self.identity,
            index,
        }
    }
}

// The i-th operation.
pub fn operation_at(operations: &[usize], i: usize) -> Operation
    requires { i * 6 + 6 ≤ length operations.now }
    ensures { result ≡ operation_at operations.now i }
{
    let b = i * 6;
    Operation {
        kind: operations[b],
        order: operations[b + 1],
        length: operations[b + 2],
        side: operations[b + 3],
        first: operations[b + 4],
        count: operations[b + 5],
    }
}

// An operation at the i-th place of a room.
pub fn put_operation(out: &mut [usize], i: usize, operation: Operation)
    requires { i * 6 + 6 ≤ length out.old }
    ensures { out.new ≡ put_operation out.old i operation }
{
    let b = i * 6;
    out[b] = operation.kind;
    out[b + 1] = operation.order;
    out[b + 2] = operation.length;
    out[b + 3] = operation.side;
    out[b + 4] = operation.first;
    out[b + 5] = operation.count;
}

// The i-th cursor.
pub fn cursor_at(cursors: &[usize], i: usize) -> Cursor
    requires { i * 2 + 2 ≤ length cursors.now }
    ensures { result ≡ cursor_at cursors.now i }
{
    let b = i * 2;
    Cursor {
        identity: cursors[b],
        index: cursors[b + 1],
    }
}

// A cursor at the i-th place of a room.
pub fn put_cursor(out: &mut [usize], i: usize, cursor: Cursor)
    requires { i * 2 + 2 ≤ length out.old }
    ensures { out.new ≡ put_cursor out.old i cursor }
{
    let b = i * 2;
    out[b] = cursor.identity;
    out[b + 1] = cursor.index;
}
