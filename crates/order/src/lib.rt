// The order of operations: the order rule, and stream priority. Nothing is copied, and no spelling is
// read where order or kind decides.
#![tactic(auto)]

mod spelling;

ghost use Rattle.std.specs.Prelude.{◌≡◌, true};
ghost use Rattle.records.specs.Operations.{operations_of};
ghost use Rattle.merging.specs.Lent.{lent_in};
ghost use Rattle.merging.specs.Operations.{ops_from};
ghost use Rattle.merging.specs.OrderRule.{content_rule, order_rule, priority_of};
ghost use Rattle.order.specs.Readable.{Readable, Ready, SamePart};

use merging::Op;
use records::each::Records;
use records::{INSERT, Lent, Operation, Operations};
use std::cmp::Ordering;

// Inserts by spelling, retains and deletes by shorter length; operations of two kinds are equal here.
#[tactic(auto, unfolding(merging::specs::OrderRule::content_rule))]
pub fn deterministic_content_cmp(lent: Lent, a: Op, b: Op) -> Ordering
    requires readable { Readable lent.text.now lent.tokens.spans.now lent.tokens.keys.now a }
    requires readable_2 { Readable lent.text.now lent.tokens.spans.now lent.tokens.keys.now b }
    ensures { result ≡ content_rule (lent_in lent.entry) a b }
{
    match (a, b) {
        (Op::Delete { length, .. }, Op::Delete { length: other, .. })
        | (Op::Retain { length, .. }, Op::Retain { length: other, .. }) => length.cmp(&other),
        (
            Op::Insert { first, count, .. },
            Op::Insert {
                first: other,
                count: others,
                ..
            },
        ) => spelling::compare_spelling(lent, first, count, other, others),
        _ => Ordering::Equal,
    }
}

// The order rule: smaller order first; then delete, insert, retain; then by content.
#[tactic(auto, unfolding(merging::specs::OrderRule::order_rule))]
pub fn cmp_priority(lent: Lent, a: Op, b: Op) -> Ordering
    requires readable { Readable lent.text.now lent.tokens.spans.now lent.tokens.keys.now a }
    requires readable_2 { Readable lent.text.now lent.tokens.spans.now lent.tokens.keys.now b }
    ensures { result ≡ order_rule (lent_in lent.entry) a b }
{
    match a.order().cmp(&b.order()) {
        Ordering::Equal => match a.kind().cmp(&b.kind()) {
            Ordering::Equal => deterministic_content_cmp(lent, a, b),
            kind => kind,
        },
        order => order,
    }
}

// Whether two records are one retain or delete. Lists that begin alike are then passed over without
// making operations of their records, which takes most of the time.
// Kept so: a derived equality would be no plainer, since side and tokens of a record mean nothing here and would have to be made alike first.
fn same_part(x: Operation, y: Operation) -> bool
    ensures { result ≡ true → SamePart x y }
{
    x.kind != INSERT && x.kind == y.kind && x.order == y.order && x.length == y.length
}

// Stream priority: the first unequal pair of two lists under the order rule, else the shorter list
// first, else equal.
pub fn stream_priority(lent: Lent, left: &[usize], right: &[usize]) -> Ordering
    requires ready { Ready lent.text.now lent.tokens.spans.now lent.tokens.keys.now 0 (ops_from 0 (operations_of left.now)) }
    requires ready_2 { Ready lent.text.now lent.tokens.spans.now lent.tokens.keys.now 0 (ops_from 0 (operations_of right.now)) }
    ensures { result ≡ priority_of (lent_in lent.entry) (ops_from 0 (operations_of left.now)) (ops_from 0 (operations_of right.now)) }
{
    let mut at: usize = 0;
    'pairs: for (x, y) in Operations(left).each().zip(Operations(right).each()) {
        if same_part(x, y) {
            at += x.length;
            continue 'pairs;
        }
        let a = merging::op_of(at, x);
        let b = merging::op_of(at, y);
        match cmp_priority(lent, a, b) {
            Ordering::Equal => at += a.span(),
            order => return order,
        }
    }
    Operations(left).count().cmp(&Operations(right).count())
}
