// Refusal 3 of lists: their sizes, and the length of a list's text. Of the caller only its limits are
// asked, that they are below the cap: every sum stops where it cannot grow to a wrong answer any more.
#![tactic(auto)]

ghost use Rattle.std.specs.Prelude.{◌≡◌, ℕ, ◌+◌, ◌≤◌, min, ◌&&◌};
ghost use Rattle.records.specs.Operations.{operations_of};
ghost use Rattle.records.specs.Tokens.{tokens_lent, tokens_from};
ghost use Rattle.records.specs.Cursors.{cursors_of};
ghost use Rattle.records.specs.Each.{listed};
ghost use Rattle.sizes.specs.Texts.{Measures, total, in_text, run_text, run_lent, claimed_by, inserted_by, retained_by, text_length};
ghost use Rattle.sizes.specs.Sizes.{Small, merging, otherwise, lent_fits, list_fits};

use records::each::Records;
use records::{Cursors, INSERT, Lent, List, Operation, Operations, RETAIN, Token, Tokens};

// The sizes of one list.
#[derive(Clone, Copy)]
pub struct Limits {
    pub operations: usize,
    pub tokens: usize,
    pub text: usize,
    pub cursors: usize,
}

pub fn merging_limits() -> Limits
    ensures { result ≡ merging }
{
    Limits {
        operations: 4096,
        tokens: 8192,
        text: 65535,
        cursors: 256,
    }
}

// Of text, history and diff.
pub fn other_limits() -> Limits
    ensures { result ≡ otherwise }
{
    Limits {
        operations: 8192,
        tokens: 16384,
        text: 131070,
        cursors: 512,
    }
}

// A sum that stops at 1,000,000, which is above every limit.
pub fn capped(a: usize, b: usize) -> usize
    requires { a ≤ 1000000 }
    ensures { result ≡ min 1000000 (a + b) }
{
    if 1000000 - a < b { 1000000 } else { a + b }
}

// Whether a token lies in a text of n code points.
pub fn in_text(t: Token, n: usize) -> bool
    ensures { result ≡ in_text n t }
{
    t.start as usize + t.length as usize <= n
}

// Whether an operation's range of tokens is lent.
pub fn run_lent(tokens: Tokens, o: Operation) -> bool
    ensures { result ≡ run_lent tokens.entry.spans.now tokens.entry.keys.now o }
{
    let lent = tokens.count();
    o.count <= lent && o.first <= lent - o.count
}

// The text of a run of tokens, capped.
pub fn run_text(tokens: Tokens, n: usize, first: usize, count: usize) -> usize
    requires { first + count ≤ tokens_lent tokens.spans.now tokens.keys.now }
    ensures { result ≡ min 1000000 (run_text n (tokens_from tokens.entry.spans.now tokens.entry.keys.now first count)) }
{
    let mut sum = 0;
    'run: for t in tokens.between(first, first + count) {
        if in_text(t, n) {
            sum = capped(sum, t.length as usize);
        }
    }
    sum
}

pub fn claimed_by(o: Operation) -> usize
    ensures { result ≡ claimed_by o }
{
    if o.kind == INSERT { o.count } else { 0 }
}

pub fn retained_by(o: Operation) -> usize
    ensures { result ≡ retained_by o }
{
    if o.kind == RETAIN { o.length } else { 0 }
}

pub fn inserted_by(tokens: Tokens, n: usize, o: Operation) -> usize
    ensures { result ≡ min 1000000 (inserted_by n tokens.entry.spans.now tokens.entry.keys.now o) }
{
    if o.kind == INSERT && run_lent(tokens, o) {
        run_text(tokens, n, o.first, o.count)
    } else {
        0
    }
}

// The sum over the records of a view of what a measure gives for each, capped.
pub fn total_by<R: Records, F: Fn(R::Record) -> usize>(records: R, measure: F) -> usize
    requires { F.IsAlwaysCallable measure }
    ensures { (f : R.Record → ℕ) → Measures F.post measure f → result ≡ min 1000000 (total f (listed (R.record_at records) (R.count records))) }
{
    let mut sum = 0;
    'sum: for record in records.each() {
        sum = capped(sum, measure(record));
    }
    sum
}

// The tokens that a list's inserts claim, capped.
pub fn claimed(operations: &[usize]) -> usize
    ensures { result ≡ min 1000000 (total claimed_by (operations_of operations.now)) }
{
    total_by(Operations(operations), claimed_by)
}

// The text that a list inserts, capped.
pub fn inserted(tokens: Tokens, n: usize, operations: &[usize]) -> usize
    ensures { result ≡ min 1000000 (total (inserted_by n tokens.entry.spans.now tokens.entry.keys.now) (operations_of operations.now)) }
{
    total_by(Operations(operations), |o| inserted_by(tokens, n, o))
}

// What an operation adds to its list's text, capped.
fn text_by(tokens: Tokens, n: usize, o: Operation) -> usize
    ensures { min 1000000 result ≡ min 1000000 (retained_by o + inserted_by n tokens.entry.spans.now tokens.entry.keys.now o) }
{
    if o.kind == INSERT {
        inserted_by(tokens, n, o)
    } else {
        retained_by(o)
    }
}

// The length of a list's text, capped: that of an accepted list is below the cap. n is the length of
// the lent inserted text.
pub fn text_length(tokens: Tokens, n: usize, operations: &[usize]) -> usize
    ensures { result ≡ min 1000000 (text_length n tokens.entry.spans.now tokens.entry.keys.now (operations_of operations.now)) }
{
    total_by(Operations(operations), |o| text_by(tokens, n, o))
}

// Whether the original and the lent inserted text keep their sizes.
pub fn lent_fits(lent: Lent) -> bool
    ensures { result ≡ lent_fits lent.entry.original.now lent.entry.text.now }
{
    lent.original.len() <= 65535 && lent.text.len() <= 131070
}

// Whether a list keeps its sizes. The tests before the last keep its work within the limits.
pub fn list_fits(limits: Limits, n: usize, tokens: Tokens, list: List) -> bool
    requires { Small limits }
    ensures { result ≡ list_fits limits n tokens.entry.spans.now tokens.entry.keys.now (operations_of list.entry.operations.now) (cursors_of list.entry.cursors.now) }
{
    if limits.operations < Operations(list.operations).count() {
        return false;
    }
    if limits.cursors < Cursors(list.cursors).count() {
        return false;
    }
    if limits.tokens < claimed(list.operations) {
        return false;
    }
    inserted(tokens, n, list.operations) <= limits.text
}

// Whether both lists of a merge keep their sizes.
pub fn lists_fit(limits: Limits, m: usize, tokens: Tokens, left: List, right: List) -> bool
    requires { Small limits }
    ensures { result ≡ list_fits limits m tokens.entry.spans.now tokens.entry.keys.now (operations_of left.entry.operations.now) (cursors_of left.entry.cursors.now) && list_fits limits m tokens.entry.spans.now tokens.entry.keys.now (operations_of right.entry.operations.now) (cursors_of right.entry.cursors.now) }
{
    list_fits(limits, m, tokens, left) && list_fits(limits, m, tokens, right)
}
