// What a taken operation meets: the cut of a retain, the meet rule, and the overlap of inserts.
#![tactic(auto)]

ghost use Rattle.std.specs.Prelude.{◌≡◌, ◌+◌, ◌*◌, ◌/◌, ◌≤◌, [], length, get_or};
ghost use Rattle.std.proofs.Math.Seq.{slice};
ghost use Rattle.overlap.specs.Overlap.{overlap_of};
ghost use Rattle.merging.specs.Lent.{lengths_of, sum, rules_of};
ghost use Rattle.merging.specs.Operations.{length_of};
ghost use Rattle.merging.specs.Meeting.{cut_at, cut_at_end, kept_length, front_of};
ghost use Rattle.merging.specs.Meeting.{shortened as without};
ghost use Rattle.merging.specs.Cursors.{overlap_place, removed_of};
ghost use Rattle.numbers.specs.Sizes.{most};
ghost use Rattle.operation.specs.Views.{heads, reach, size, tokens, NextFits, LastFits, Apart, Meetable, Reaches, Lies, Placeable, Scratched, of_spans};
ghost use Rattle.operation.specs.Meets.{tail_by, lost_by, met_by, used_by, place_by, Placed};

use merging::Op;
use overlap::Range;
use records::each::Records;
use std::cmp::min;

// What is remembered of a side. Of an insert it is tokens, which stand in the work room from `from`
// up to where the side has filled it.
// Kept so: an Option of the three other cases is no plainer, since each match would name it at every case.
#[derive(Clone, Copy)]
pub enum Last {
    Nothing,
    Deleted { order: usize, length: usize },
    Retained { order: usize, length: usize },
    Inserted { order: usize, from: usize },
}

// What is remembered of a side, and how far it has filled its part of the work room.
#[derive(Clone, Copy)]
pub struct Memory {
    pub last: Last,
    pub fill: usize,
}

// How much of a retain is taken where the cut is at a boundary.
#[tactic(auto, unfolding(merging::specs::Meeting::cut_at))]
pub fn cut_at(order: usize, length: usize, boundary: usize) -> usize
    requires { order + length ≤ most }
    ensures { result ≡ cut_at order length boundary }
{
    if order < boundary && boundary < order + length {
        boundary - order
    } else {
        length
    }
}

fn cut_at_end(order: usize, length: usize, next: Op) -> usize
    requires { (order + length ≤ most) × (reach next ≤ most) }
    ensures { result ≡ cut_at_end order length next }
{
    match next {
        Op::Insert { .. } => length,
        Op::Delete {
            order: start,
            length: span,
        }
        | Op::Retain {
            order: start,
            length: span,
        } => cut_at(order, length, start + span),
    }
}

// How much of a retain is taken before what is next on the other side.
#[tactic(auto, unfolding(merging::specs::Meeting::kept_length))]
pub fn kept_length(order: usize, length: usize, next: Option<Op>) -> usize
    requires { (order + length ≤ most) × NextFits next }
    ensures { result ≡ kept_length order length (heads next []) }
{
    match next {
        None => length,
        Some(x) => {
            if order < x.order() {
                cut_at(order, length, x.order())
            } else {
                cut_at_end(order, length, x)
            }
        }
    }
}

#[derive(Clone, Copy)]
pub struct Split {
    pub front: Op,
    // What stays next of the operation.
    pub tail: Option<Op>,
}

// A retain up to where the other side's next operation starts or ends, and its tail.
#[tactic(auto, unfolding(crate::specs::Meets::tail_by))]
pub fn split_retain_before(a: Op, next: Option<Op>) -> Split
    requires { (reach a ≤ most) × NextFits next }
    ensures { (result.front ≡ front_of a (heads next [])) × (result.tail ≡ tail_by a (heads next [])) }
{
    match a {
        Op::Delete { .. } | Op::Insert { .. } => Split {
            front: a,
            tail: None,
        },
        Op::Retain { order, length } => {
            let kept = kept_length(order, length, next);
            let tail = if kept < length {
                Some(Op::Retain {
                    order: order + kept,
                    length: length - kept,
                })
            } else {
                None
            };
            Split {
                front: Op::Retain {
                    order,
                    length: kept,
                },
                tail,
            }
        }
    }
}

// The meet rule: how much an operation loses from its front to what is remembered of the other
// side. An insert loses nothing by it.
#[tactic(auto, unfolding(crate::specs::Meets::lost_by))]
pub fn merge_operations(a: Op, last: Last) -> usize
    requires { LastFits last }
    ensures { result ≡ lost_by a last }
{
    match (a, last) {
        (
            Op::Delete { order, length } | Op::Retain { order, length },
            Last::Deleted {
                order: start,
                length: span,
            },
        )
        | (
            Op::Retain { order, length },
            Last::Retained {
                order: start,
                length: span,
            },
        ) => min(length, (start + span).saturating_sub(order)),
        _ => 0,
    }
}

// An operation without its front: order grows and length shrinks alike, an insert loses tokens.
pub fn shortened(a: Op, lost: usize) -> Op
    requires { (reach a ≤ most) × (lost ≤ size a) }
    ensures { result ≡ without a lost }
{
    match a {
        Op::Delete { order, length } => Op::Delete {
            order: order + lost,
            length: length - lost,
        },
        Op::Insert {
            order,
            first,
            count,
        } => Op::Insert {
            order,
            first: first + lost,
            count: count - lost,
        },
        Op::Retain { order, length } => Op::Retain {
            order: order + lost,
            length: length - lost,
        },
    }
}

// How much an operation loses, and the overlap of inserts, 0..0 for every other pair.
#[derive(Clone, Copy)]
pub struct Met {
    pub lost: usize,
    pub overlap: Range,
}

// The overlap of the remembered keys from `from` to `fill` and the new ones. The table stands from
// `table` on, where the new keys are to be remembered.
pub fn insert_overlap(
    new: &[u32],
    work: &mut [u32],
    from: usize,
    fill: usize,
    table: usize,
) -> Range
    requires { (length new.now ≤ 8192) × (table + length new.now ≤ length work.old) × (from ≤ fill) × (fill ≤ length work.old) × Apart from fill table (length new.now) }
    ensures value { result ≡ overlap_of (slice from fill work.old) new.now }
    ensures scratched { Scratched work.old work.new table (length new.now) }
{
    overlap::fill(new, &mut work[table..]);
    let w = &work[..];
    overlap::scan(&w[from..fill], new, &w[table..])
}

// The meet rule and the overlap of inserts.
#[tactic(auto, unfolding(crate::specs::Meets::met_by, crate::specs::Meets::lost_by), using(crate::proofs::Scratch::unscratched))]
pub fn merge_operations_consuming_insert(
    keys: &[u32],
    a: Op,
    memory: Memory,
    work: &mut [u32],
    table: usize,
) -> Met
    requires { LastFits memory.last × Meetable keys.now work.old a memory.last memory.fill table }
    ensures value { result ≡ met_by keys.now work.old memory.fill a memory.last }
    ensures scratched { Scratched work.old work.new table (tokens a) }
{
    match (a, memory.last) {
        (Op::Insert { first, count, .. }, Last::Inserted { from, .. }) => {
            let new = &keys[first..first + count];
            let overlap = insert_overlap(new, work, from, memory.fill, table);
            Met {
                lost: overlap.end - overlap.start,
                overlap,
            }
        }
        _ => Met {
            lost: merge_operations(a, memory.last),
            overlap: Range { start: 0, end: 0 },
        },
    }
}

// What stays remembered of the other side: an insert that was lost whole uses its tokens up to the
// overlap's end, any other uses all.
#[tactic(auto, unfolding(crate::specs::Meets::used_by))]
pub fn used_up(a: Op, met: Met, memory: Memory) -> Last
    requires { Reaches memory.last met memory.fill }
    ensures { result ≡ used_by a memory.last met memory.fill }
{
    match (a, memory.last) {
        (Op::Insert { count, .. }, Last::Inserted { order, from }) => {
            if met.lost == count {
                Last::Inserted {
                    order,
                    from: from + met.overlap.end,
                }
            } else {
                Last::Inserted {
                    order,
                    from: memory.fill,
                }
            }
        }
        _ => memory.last,
    }
}

// The sum of lengths.
pub fn sum_of(lengths: &[u32]) -> usize
    requires { length lengths.now ≤ 65536 }
    ensures { result ≡ sum lengths.now }
{
    lengths.iter().map(|x| *x as usize).sum()
}

// The lengths of tokens as these are lent, two numbers each.
#[derive(Clone, Copy)]
pub struct Lengths<'a>(pub &'a [u32]);

impl<'a> Records for Lengths<'a> {
    type Record = u32;

    ghost count = { λ s. length s.0.now / 2 };

    ghost record_at = { λ s i. get_or s.0.now (i * 2 + 1) 0 };

    fn count(self) -> usize {
        self.0.len() / 2
    }

    fn at(self, i: usize) -> u32 {
        self.0[i * 2 + 1]
    }
}

// The sum of the lengths of tokens.
pub fn tokens_length(spans: &[u32], first: usize, count: usize) -> usize
    requires { ((first + count) * 2 ≤ length spans.now) × (count ≤ 65536) }
    ensures { result ≡ sum (lengths_of (of_spans spans.now) first count) }
{
    let mut total: usize = 0;
    'sum: for length in Lengths(spans).between(first, first + count) {
        total += length as usize;
    }
    total
}

// How much text an operation gives.
// Kept so: one function for this and the next is no plainer, since each is a definition of its own, and of a retain they ask for different numbers.
pub fn length_of(spans: &[u32], a: Op) -> usize
    requires { Lies spans.now a }
    ensures { result ≡ length_of (of_spans spans.now) a }
{
    match a {
        Op::Delete { .. } => 0,
        Op::Insert { first, count, .. } => tokens_length(spans, first, count),
        Op::Retain { length, .. } => length,
    }
}

// How much of an operation's own text its lost front is.
pub fn removed_of(spans: &[u32], a: Op, lost: usize) -> usize
    requires { Lies spans.now a × (lost ≤ size a) }
    ensures { result ≡ removed_of (rules_of (of_spans spans.now)) a lost }
{
    match a {
        Op::Delete { .. } => 0,
        Op::Insert { first, .. } => tokens_length(spans, first, lost),
        Op::Retain { .. } => lost,
    }
}

// Where the shared text stands in the merged text.
#[derive(Clone, Copy)]
pub struct Place {
    pub start: usize,
    pub shared: usize,
}

// The overlap's place: the remembered tokens, of these lengths, end the merged text.
pub fn overlap_place(overlap: Range, lengths: &[u32], merged: usize) -> Place
    requires { (overlap.start ≤ overlap.end) × (overlap.end ≤ length lengths.now) × (length lengths.now ≤ 65536) }
    ensures { Placed result (overlap_place overlap lengths.now merged) }
{
    if overlap.end <= overlap.start {
        return Place {
            start: merged,
            shared: 0,
        };
    }
    let behind = sum_of(&lengths[overlap.start..]);
    Place {
        start: merged.saturating_sub(behind),
        shared: sum_of(&lengths[overlap.start..overlap.end]),
    }
}

// The place of the shared text: the lengths of the remembered tokens stand in the work room `half`
// after their keys.
#[tactic(auto, unfolding(crate::specs::Meets::place_by), using(crate::proofs::Scratch::part_is))]
pub fn place_of(a: Op, met: Met, memory: Memory, work: &[u32], half: usize, merged: usize) -> Place
    requires { Placeable work.now half memory.fill memory.last met }
    ensures { Placed result (place_by work.now half memory.fill a memory.last met merged) }
{
    match (a, memory.last) {
        (Op::Insert { .. }, Last::Inserted { from, .. }) => overlap_place(
            met.overlap,
            &work[half + from..half + memory.fill],
            merged,
        ),
        (Op::Retain { .. }, Last::Retained { .. }) => Place {
            start: merged.saturating_sub(met.lost),
            shared: met.lost,
        },
        _ => Place {
            start: merged,
            shared: 0,
        },
    }
}
