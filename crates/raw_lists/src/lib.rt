// Raw lists: their records and tokens, and which lists are refused for their sizes or their shape.
#![tactic(auto)]

ghost use Rattle.std.specs.Prelude.{◌≡◌, ◌+◌, ◌*◌, ◌/◌, ◌%◌, ◌<◌, ◌≤◌, min, length, get_or, eqb};
ghost use Rattle.raw_lists.specs.Raws.{raw_at, raws_of, pieces_lent};
ghost use Rattle.raw_lists.specs.Checks.{total, claimed_by, text_by, run_lent, raw_fits, is_raw, shapes_from};

use records::each::Records;
use records::{RETAIN, Tokens};
use refusal::Refusal;

// A raw operation: its kind, and its tokens by the place of the first and their count.
#[derive(Clone, Copy)]
pub struct Raw {
    pub kind: usize,
    pub first: usize,
    pub count: usize,
}

// The tokens lent, and the flags of each: which of its ends may be joined.
#[derive(Clone, Copy)]
pub struct RawTokens<'a> {
    pub tokens: Tokens<'a>,
    pub joins: &'a [u8],
}

impl<'a> RawTokens<'a> {
    // How many tokens are lent: those that all three slices reach.
    fn count(self) -> usize
        ensures { result ≡ pieces_lent self.entry.tokens.spans.now self.entry.tokens.keys.now self.entry.joins.now }
    {
        std::cmp::min(self.tokens.count(), self.joins.len())
    }

    // Whether an operation's range of tokens is lent.
    fn reach(self, r: Raw) -> bool
        ensures { result ≡ run_lent self.entry.tokens.spans.now self.entry.tokens.keys.now self.entry.joins.now r }
    {
        let lent = self.count();
        r.count <= lent && r.first <= lent - r.count
    }

    // Whether a token may be joined on its left: the first bit of its flags.
    pub fn left_joinable(self, i: usize) -> bool
        requires { i < length self.joins.now }
        ensures { result ≡ eqb (get_or self.entry.joins.now i 0 % 2) 1 }
    {
        self.joins[i] % 2 == 1
    }

    // And on its right: the second.
    pub fn right_joinable(self, i: usize) -> bool
        requires { i < length self.joins.now }
        ensures { result ≡ eqb (get_or self.entry.joins.now i 0 / 2 % 2) 1 }
    {
        self.joins[i] / 2 % 2 == 1
    }
}

// The operations of a raw list as they are lent, three numbers each.
#[derive(Clone, Copy)]
pub struct RawOperations<'a>(pub &'a [usize]);

impl<'a> Records for RawOperations<'a> {
    type Record = Raw;

    ghost count = { λ r. length r.0.now / 3 };

    ghost record_at = { λ r i. raw_at r.0.now i };

    fn count(self) -> usize {
        self.0.len() / 3
    }

    fn at(self, i: usize) -> Raw {
        raw_at(self.0, i)
    }
}

// The i-th raw operation.
pub fn raw_at(raw: &[usize], i: usize) -> Raw
    requires { i * 3 + 3 ≤ length raw.now }
    ensures { result ≡ raw_at raw.now i }
{
    let b = i * 3;
    Raw {
        kind: raw[b],
        first: raw[b + 1],
        count: raw[b + 2],
    }
}

fn claimed_by(r: Raw) -> usize
    ensures { result ≡ claimed_by r }
{
    if r.kind <= RETAIN { r.count } else { 0 }
}

// The tokens that a raw list claims, capped.
pub fn claimed(raw: &[usize]) -> usize
    ensures { result ≡ min 1000000 (total claimed_by (raws_of raw.now)) }
{
    sizes::total_by(RawOperations(raw), claimed_by)
}

// The text of an operation's tokens, capped.
fn text_by(lent: RawTokens, n: usize, r: Raw) -> usize
    ensures { result ≡ min 1000000 (text_by n lent.entry.tokens.spans.now lent.entry.tokens.keys.now lent.entry.joins.now r) }
{
    if r.kind <= RETAIN && lent.reach(r) {
        sizes::run_text(lent.tokens, n, r.first, r.count)
    } else {
        0
    }
}

// The text of all tokens that a raw list uses, capped.
fn used_text(raw: &[usize], lent: RawTokens, n: usize) -> usize
    ensures { result ≡ min 1000000 (total (text_by n lent.entry.tokens.spans.now lent.entry.tokens.keys.now lent.entry.joins.now) (raws_of raw.now)) }
{
    sizes::total_by(RawOperations(raw), |r| text_by(lent, n, r))
}

// Whether a raw list keeps its sizes. The tests before the last keep its work within the limits.
#[tactic(auto, using(crate::proofs::Checking::size_text, crate::proofs::Checking::size_operations, crate::proofs::Checking::size_tokens))]
pub fn raw_fits(raw: &[usize], lent: RawTokens, n: usize) -> bool
    ensures { result ≡ raw_fits n lent.entry.tokens.spans.now lent.entry.tokens.keys.now lent.entry.joins.now (raws_of raw.now) }
{
    if 131070 < n || 8192 < RawOperations(raw).count() {
        return false;
    }
    claimed(raw) <= 16384 && used_text(raw, lent, n) <= 131070
}

// Whether an operation is a raw operation.
fn is_raw(lent: RawTokens, n: usize, r: Raw) -> bool
    ensures { result ≡ is_raw n lent.entry.tokens.spans.now lent.entry.tokens.keys.now lent.entry.joins.now r }
{
    r.kind <= RETAIN
        && r.count != 0
        && lent.reach(r)
        && shapes::run_good(lent.tokens, n, r.first, r.count)
}

// Refusal 1 of a raw list.
pub fn check_raws(raw: &[usize], lent: RawTokens, n: usize) -> Result<(), Refusal>
    ensures { result ≡ shapes_from n lent.entry.tokens.spans.now lent.entry.tokens.keys.now lent.entry.joins.now (raws_of raw.now) 0 }
{
    'raws: for (i, r) in RawOperations(raw).each().enumerate() {
        if !is_raw(lent, n, r) {
            return Err(Refusal::Record { index: i });
        }
    }
    Ok(())
}
