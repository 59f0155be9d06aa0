// Refusals 1, 2 and 5 of a list: its records, its tiling of the original, its cursors.
#![tactic(auto)]

ghost use Rattle.std.specs.Prelude.{◌≡◌, ◌+◌, ◌<◌, ◌≤◌};
ghost use Rattle.records.specs.Operations.{operations_of};
ghost use Rattle.records.specs.Tokens.{tokens_lent, tokens_from};
ghost use Rattle.records.specs.Cursors.{cursors_of};
ghost use Rattle.sizes.specs.Texts.{text_length};
ghost use Rattle.shapes.specs.Shapes.{run_good, is_run, is_record, records_from};
ghost use Rattle.shapes.specs.Tiling.{tiling_of, within_from};

use records::each::Records;
use records::{Cursors, INSERT, Operation, Operations, RETAIN, Tokens};
use refusal::Refusal;

// Whether every token of a run has text, and all of it is lent.
pub fn run_good(tokens: Tokens, n: usize, first: usize, count: usize) -> bool
    requires { first + count ≤ tokens_lent tokens.spans.now tokens.keys.now }
    ensures { result ≡ run_good n (tokens_from tokens.entry.spans.now tokens.entry.keys.now first count) }
{
    'run: for t in tokens.between(first, first + count) {
        if t.length == 0 {
            return false;
        }
        if !sizes::in_text(t, n) {
            return false;
        }
    }
    true
}

// Whether an insert's tokens are good.
fn is_run(tokens: Tokens, n: usize, o: Operation) -> bool
    ensures { result ≡ is_run n tokens.entry.spans.now tokens.entry.keys.now o }
{
    o.count != 0 && sizes::run_lent(tokens, o) && run_good(tokens, n, o.first, o.count)
}

// Whether an operation is a record of its kind.
#[tactic(auto, using(crate::proofs::Shapely::record_side, crate::proofs::Shapely::record_insert, crate::proofs::Shapely::record_unknown, crate::proofs::Shapely::record_part))]
pub fn is_record(tokens: Tokens, n: usize, o: Operation) -> bool
    ensures { result ≡ is_record n tokens.entry.spans.now tokens.entry.keys.now o }
{
    if 1 < o.side {
        return false;
    }
    if o.kind == INSERT {
        return is_run(tokens, n, o);
    }
    if RETAIN < o.kind {
        return false;
    }
    0 < o.length
}

// Refusal 1 of a list.
pub fn check_records(tokens: Tokens, n: usize, operations: &[usize]) -> Result<(), Refusal>
    ensures { result ≡ records_from n tokens.entry.spans.now tokens.entry.keys.now (operations_of operations.now) 0 }
{
    'records: for (i, o) in Operations(operations).each().enumerate() {
        if !is_record(tokens, n, o) {
            return Err(Refusal::Record { index: i });
        }
    }
    Ok(())
}

// Refusal 2 of a list over an original of n code points.
pub fn check_tiling(n: usize, operations: &[usize]) -> Result<(), Refusal>
    ensures { result ≡ tiling_of n (operations_of operations.now) }
{
    let operations = Operations(operations);
    let mut at = 0;
    'tiles: for (i, o) in operations.each().enumerate() {
        if o.kind == INSERT {
            continue;
        }
        if o.order != at {
            return Err(Refusal::Tiling { index: i });
        }
        if n - at < o.length {
            return Err(Refusal::Tiling { index: i });
        }
        at += o.length;
    }
    if at == n {
        return Ok(());
    }
    Err(Refusal::Tiling {
        index: operations.count(),
    })
}

// Refusal 5 of the cursors of a text of `end` code points.
pub fn check_cursors(cursors: &[usize], end: usize) -> Result<(), Refusal>
    ensures { result ≡ within_from end (cursors_of cursors.now) 0 }
{
    'cursors: for (i, c) in Cursors(cursors).each().enumerate() {
        if end < c.index {
            return Err(Refusal::Cursor { place: i });
        }
    }
    Ok(())
}

// Refusal 5 of a list's cursors.
pub fn check_within(tokens: Tokens, m: usize, list: records::List) -> Result<(), Refusal>
    requires { text_length m tokens.spans.now tokens.keys.now (operations_of list.operations.now) < 1000000 }
    ensures { result ≡ within_from (text_length m tokens.entry.spans.now tokens.entry.keys.now (operations_of list.entry.operations.now)) (cursors_of list.entry.cursors.now) 0 }
{
    let end = sizes::text_length(tokens, m, list.operations);
    check_cursors(list.cursors, end)
}
