// The checks of lists: refusals 3, 4, 1, 2 and 5, in this order, of one list and of the two of a
// merge.
#![tactic(auto)]

ghost use Rattle.std.specs.Prelude.{◌≡◌, ◌+◌, ◌≤◌, true, length, IfSome};
ghost use Rattle.records.specs.Operations.{operations_of};
ghost use Rattle.records.specs.Tokens.{tokens_lent, tokens_from};
ghost use Rattle.records.specs.Cursors.{cursors_of};
ghost use Rattle.sizes.specs.Sizes.{Small, lent_fits};
ghost use Rattle.checks.specs.Lists.{list_verdict, lists_verdict, lengths_on, claims_on};
ghost use Rattle.checks.specs.Passing.{Whole, Inserts, Summed, Good};

use records::each::Records;
use records::{Cursors, INSERT, Lent, List, Operation, Operations, RETAIN, Tokens};
use refusal::Refusal;
use sizes::Limits;

// How much text an accepted list inserts, and how long its text is.
#[derive(Clone, Copy)]
pub struct Lengths {
    pub inserted: usize,
    pub text: usize,
}

// How many tokens each of the two accepted lists of a merge inserts.
#[derive(Clone, Copy)]
pub struct Claims {
    pub left: usize,
    pub right: usize,
}

// Refusals 3, 4, 1, 2 and 5 of one list, in this order: check by check, over texts that keep their sizes.
#[tactic(auto, unfolding(crate::specs::Lists::list_verdict))]
fn judge_list(limits: Limits, lent: Lent, list: List) -> Result<(), Refusal>
    requires { Small limits × (lent_fits lent.original.now lent.text.now ≡ true) }
    ensures { result ≡ list_verdict limits lent.entry.original.now lent.entry.text.now lent.entry.tokens.spans.now lent.entry.tokens.keys.now (operations_of list.entry.operations.now) (cursors_of list.entry.cursors.now) }
{
    let m = lent.text.len();
    if !sizes::list_fits(limits, m, lent.tokens, list) {
        return Err(Refusal::Size);
    }
    verdict::check_texts(lent.original, lent.text)?;
    shapes::check_records(lent.tokens, m, list.operations)?;
    shapes::check_tiling(lent.original.len(), list.operations)?;
    shapes::check_within(lent.tokens, m, list)
}

// Refusals 3, 4, 1, 2 and 5 of the two lists of a merge, each on both before the next: check by check, over texts that keep their sizes.
#[tactic(auto, unfolding(crate::specs::Lists::lists_verdict))]
fn judge_lists(limits: Limits, lent: Lent, left: List, right: List) -> Result<(), Refusal>
    requires { Small limits × (lent_fits lent.original.now lent.text.now ≡ true) }
    ensures { result ≡ lists_verdict limits lent.entry.original.now lent.entry.text.now lent.entry.tokens.spans.now lent.entry.tokens.keys.now (operations_of left.entry.operations.now) (operations_of right.entry.operations.now) (cursors_of left.entry.cursors.now) (cursors_of right.entry.cursors.now) }
{
    let n = lent.original.len();
    let m = lent.text.len();
    let tokens = lent.tokens;
    if !sizes::lists_fit(limits, m, tokens, left, right) {
        return Err(Refusal::Size);
    }
    verdict::check_texts(lent.original, lent.text)?;
    shapes::check_records(tokens, m, left.operations)?;
    shapes::check_records(tokens, m, right.operations)?;
    shapes::check_tiling(n, left.operations)?;
    shapes::check_tiling(n, right.operations)?;
    shapes::check_within(tokens, m, left)?;
    shapes::check_within(tokens, m, right)
}

// A run of tokens, looked at and summed up at once: its text, capped; none where something may be to refuse.
fn pass_run(tokens: Tokens, n: usize, first: usize, count: usize) -> Option<usize>
    requires { first + count ≤ tokens_lent tokens.spans.now tokens.keys.now }
    ensures { IfSome result (Whole n (tokens_from tokens.entry.spans.now tokens.entry.keys.now first count)) }
{
    let mut sum = 0;
    'run: for t in tokens.between(first, first + count) {
        if t.length == 0 {
            return None;
        }
        if !sizes::in_text(t, n) {
            return None;
        }
        sum = sizes::capped(sum, t.length as usize);
    }
    Some(sum)
}

// An insert's tokens.
fn pass_insert(tokens: Tokens, n: usize, o: Operation) -> Option<usize>
    requires { o.kind ≡ 1 }
    ensures { IfSome result (Inserts n tokens.entry.spans.now tokens.entry.keys.now o) }
{
    if o.count == 0 {
        return None;
    }
    if !sizes::run_lent(tokens, o) {
        return None;
    }
    pass_run(tokens, n, o.first, o.count)
}

// What one pass over a list's operations sums up: the tokens and the text that it inserts, and the
// original that it retains.
#[derive(Clone, Copy)]
struct Pass {
    tokens: usize,
    inserted: usize,
    retained: usize,
}

// The sums of a list; none where something may be to refuse. Tokens are read only while they keep their
// size. Of an operation's kind only whether it inserts is a branch: kinds follow each other in no order
// that a processor could learn.
fn pass_list(
    limits: Limits,
    n: usize,
    m: usize,
    tokens: Tokens,
    operations: &[usize],
) -> Option<Pass>
    requires { Small limits × (n ≤ 65535) }
    ensures { IfSome result (Summed limits n m tokens.entry.spans.now tokens.entry.keys.now (operations_of operations.now)) }
{
    let mut at = 0;
    let mut claimed = 0;
    let mut inserted = 0;
    let mut retained = 0;
    'pass: for o in Operations(operations).each() {
        if 1 < o.side {
            return None;
        }
        if o.kind == INSERT {
            if limits.tokens - claimed < o.count {
                return None;
            }
            let text = pass_insert(tokens, m, o)?;
            if limits.text - inserted < text {
                return None;
            }
            claimed += o.count;
            inserted += text;
            continue 'pass;
        }
        if RETAIN < o.kind {
            return None;
        }
        if o.length == 0 {
            return None;
        }
        if o.order != at {
            return None;
        }
        if n - at < o.length {
            return None;
        }
        retained += sizes::retained_by(o);
        at += o.length;
    }
    if at != n {
        return None;
    }
    Some(Pass {
        tokens: claimed,
        inserted,
        retained,
    })
}

// The sums of a list in which one pass shows that there is nothing to refuse.
fn good_sums(limits: Limits, lent: Lent, list: List) -> Option<Pass>
    requires { Small limits × (length lent.original.now ≤ 65535) }
    ensures { IfSome result (Good limits (length lent.entry.original.now) (length lent.entry.text.now) lent.entry.tokens.spans.now lent.entry.tokens.keys.now (operations_of list.entry.operations.now) (cursors_of list.entry.cursors.now)) }
{
    if limits.operations < Operations(list.operations).count() {
        return None;
    }
    if limits.cursors < Cursors(list.cursors).count() {
        return None;
    }
    let sums = pass_list(
        limits,
        lent.original.len(),
        lent.text.len(),
        lent.tokens,
        list.operations,
    )?;
    match shapes::check_cursors(list.cursors, sums.retained + sums.inserted) {
        Ok(()) => Some(sums),
        Err(_) => None,
    }
}

// The same, check by check.
fn judge_sums(limits: Limits, lent: Lent, list: List) -> Result<Lengths, Refusal>
    requires { Small limits × (lent_fits lent.original.now lent.text.now ≡ true) }
    ensures { result ≡ lengths_on limits lent.entry.original.now lent.entry.text.now lent.entry.tokens.spans.now lent.entry.tokens.keys.now (operations_of list.entry.operations.now) (cursors_of list.entry.cursors.now) }
{
    judge_list(limits, lent, list)?;
    let m = lent.text.len();
    Ok(Lengths {
        inserted: sizes::inserted(lent.tokens, m, list.operations),
        text: sizes::text_length(lent.tokens, m, list.operations),
    })
}

// Refusals 3, 4, 1, 2 and 5 of one list, in this order, or the lengths of its texts. One pass mostly
// shows that there is none.
pub fn sum_list(limits: Limits, lent: Lent, list: List) -> Result<Lengths, Refusal>
    requires { Small limits }
    ensures { result ≡ lengths_on limits lent.entry.original.now lent.entry.text.now lent.entry.tokens.spans.now lent.entry.tokens.keys.now (operations_of list.entry.operations.now) (cursors_of list.entry.cursors.now) }
{
    if !sizes::lent_fits(lent) {
        return Err(Refusal::Size);
    }
    let Some(sums) = good_sums(limits, lent, list) else {
        return judge_sums(limits, lent, list);
    };
    verdict::check_texts(lent.original, lent.text)?;
    Ok(Lengths {
        inserted: sums.inserted,
        text: sums.retained + sums.inserted,
    })
}

// Refusals 3, 4, 1, 2 and 5 of one list, in this order.
pub fn check_list(limits: Limits, lent: Lent, list: List) -> Result<(), Refusal>
    requires { Small limits }
    ensures { result ≡ list_verdict limits lent.entry.original.now lent.entry.text.now lent.entry.tokens.spans.now lent.entry.tokens.keys.now (operations_of list.entry.operations.now) (cursors_of list.entry.cursors.now) }
{
    sum_list(limits, lent, list)?;
    Ok(())
}

// Those of the two lists of a merge, with the tokens that each inserts, check by check.
fn judge_claims(limits: Limits, lent: Lent, left: List, right: List) -> Result<Claims, Refusal>
    requires { Small limits × (lent_fits lent.original.now lent.text.now ≡ true) }
    ensures { result ≡ claims_on limits lent.entry.original.now lent.entry.text.now lent.entry.tokens.spans.now lent.entry.tokens.keys.now (operations_of left.entry.operations.now) (operations_of right.entry.operations.now) (cursors_of left.entry.cursors.now) (cursors_of right.entry.cursors.now) }
{
    judge_lists(limits, lent, left, right)?;
    Ok(Claims {
        left: sizes::claimed(left.operations),
        right: sizes::claimed(right.operations),
    })
}

// Refusals 3, 4, 1, 2 and 5 of the two lists of a merge, each on both before the next, or how many
// tokens each inserts. One pass over each list mostly shows that there is none.
pub fn sum_lists(limits: Limits, lent: Lent, left: List, right: List) -> Result<Claims, Refusal>
    requires { Small limits }
    ensures { result ≡ claims_on limits lent.entry.original.now lent.entry.text.now lent.entry.tokens.spans.now lent.entry.tokens.keys.now (operations_of left.entry.operations.now) (operations_of right.entry.operations.now) (cursors_of left.entry.cursors.now) (cursors_of right.entry.cursors.now) }
{
    if !sizes::lent_fits(lent) {
        return Err(Refusal::Size);
    }
    let Some(lefts) = good_sums(limits, lent, left) else {
        return judge_claims(limits, lent, left, right);
    };
    let Some(rights) = good_sums(limits, lent, right) else {
        return judge_claims(limits, lent, left, right);
    };
    verdict::check_texts(lent.original, lent.text)?;
    Ok(Claims {
        left: lefts.tokens,
        right: rights.tokens,
    })
}

// Refusals 3, 4, 1, 2 and 5 of the two lists of a merge, each on both before the next.
pub fn check_lists(limits: Limits, lent: Lent, left: List, right: List) -> Result<(), Refusal>
    requires { Small limits }
    ensures { result ≡ lists_verdict limits lent.entry.original.now lent.entry.text.now lent.entry.tokens.spans.now lent.entry.tokens.keys.now (operations_of left.entry.operations.now) (operations_of right.entry.operations.now) (cursors_of left.entry.cursors.now) (cursors_of right.entry.cursors.now) }
{
    sum_lists(limits, lent, left, right)?;
    Ok(())
}
