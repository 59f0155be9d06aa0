// Checks lists and raw lists at each limit and one past it, with claims of 2^32 and 2^64 - 1 among
// them. Every long slice is the beginning of an array of ones: an operation of ones inserts the token
// at 1, a token of ones spells the code point at 1, a cursor of ones stands at 1, and a raw operation
// of ones is an insert.
#![tactic(auto)]

use raw_lists::RawTokens;
use records::{Lent, List, Tokens};
use refusal::Refusal;
use vectors::Tally;

fn main() {
    let ones = Ones {
        points: &[1; 131071],
        numbers: &[1; 49158],
        joins: &[1; 16385],
    };
    let one = lists(Tally::default(), OTHER, ones, |lent, list| {
        checks::check_list(sizes::other_limits(), lent, list)
    });
    let both = lists(one, MERGING, ones, |lent, list| {
        checks::check_lists(sizes::merging_limits(), lent, list, list)
    });
    let left = lists(both, MERGING, ones, |lent, list| {
        let retain = retain(lent);
        checks::check_lists(sizes::merging_limits(), lent, list, retained(&retain))
    });
    let right = lists(left, MERGING, ones, |lent, list| {
        let retain = retain(lent);
        checks::check_lists(sizes::merging_limits(), lent, retained(&retain), list)
    });
    vectors::report(b"sizes of lists", right);
    let raw = raws(Tally::default(), ones);
    vectors::report(b"sizes of raw lists", raw);
}

// The paper's sizes, and the numbers of operations and cursors at the limit and one past it.
#[derive(Clone, Copy)]
struct Sizes {
    operations: usize,
    operations_past: usize,
    tokens: usize,
    tokens_past: usize,
    text: u32,
    cursors: usize,
    cursors_past: usize,
}

// 4,096 operations, 256 cursors.
const MERGING: Sizes = Sizes {
    operations: 24576,
    operations_past: 24582,
    tokens: 8192,
    tokens_past: 8193,
    text: 65535,
    cursors: 512,
    cursors_past: 514,
};

// 8,192 operations, 512 cursors.
const OTHER: Sizes = Sizes {
    operations: 49152,
    operations_past: 49158,
    tokens: 16384,
    tokens_past: 16385,
    text: 131070,
    cursors: 1024,
    cursors_past: 1026,
};

// The arrays of ones that slices are beginnings of.
#[derive(Clone, Copy)]
struct Ones<'a> {
    points: &'a [u32],
    numbers: &'a [usize],
    joins: &'a [u8],
}

// The beginning of a slice.
fn first<T>(slice: &[T], count: usize) -> &[T] {
    &slice[..count.min(slice.len())]
}

impl<'a> Ones<'a> {
    // So much of an original and of an inserted text, and tokens of these spans.
    fn lent(self, original: usize, text: usize, spans: &'a [u32]) -> Lent<'a> {
        Lent {
            original: first(self.points, original),
            text: first(self.points, text),
            tokens: Tokens {
                spans,
                keys: self.points,
            },
        }
    }

    // A list of so many numbers of operations and of cursors.
    fn list(self, operations: usize, cursors: usize) -> List<'a> {
        List {
            operations: first(self.numbers, operations),
            cursors: first(self.numbers, cursors),
        }
    }
}

// A list of one operation.
fn alone(operation: &[usize; 6]) -> List {
    List {
        operations: operation,
        cursors: &[],
    }
}

// A side with nothing to check retains the original.
fn retain(lent: Lent) -> [usize; 6] {
    [2, 0, lent.original.len(), 0, 0, 0]
}

fn retained(operation: &[usize; 6]) -> List {
    if operation[2] == 0 {
        List {
            operations: &[],
            cursors: &[],
        }
    } else {
        alone(operation)
    }
}

type Verdict = Result<(), Refusal>;

const SIZE: Verdict = Err(Refusal::Size);

const RECORD: Verdict = Err(Refusal::Record { index: 0 });

const TILING: Verdict = Err(Refusal::Tiling { index: 0 });

// What a check says of lists at the limits and past them.
fn lists<F: Fn(Lent, List) -> Verdict>(tally: Tally, sizes: Sizes, ones: Ones, check: F) -> Tally
    requires { F.IsAlwaysCallable check }
{
    // The number of operations and of cursors.
    let lent = ones.lent(0, 2, ones.points);
    let inserts = tally
        .with(check(lent, ones.list(sizes.operations, 0)) == Ok(()))
        .with(check(lent, ones.list(sizes.operations_past, 0)) == SIZE)
        .with(check(lent, ones.list(6, sizes.cursors)) == Ok(()))
        .with(check(lent, ones.list(6, sizes.cursors_past)) == SIZE);
    // The tokens that are claimed. A kind that is unknown claims none.
    let claims = inserts
        .with(check(lent, alone(&[1, 0, 0, 0, 0, sizes.tokens])) == Ok(()))
        .with(check(lent, alone(&[1, 0, 0, 0, 0, sizes.tokens_past])) == SIZE)
        .with(check(lent, alone(&[1, 0, 0, 0, 0, 4294967296])) == SIZE)
        .with(check(lent, alone(&[1, 0, 0, 0, 0, usize::MAX])) == SIZE)
        .with(check(lent, alone(&[3, 0, 0, 0, 0, usize::MAX])) == RECORD);
    // The text that is inserted, and the text that is lent.
    let spans = [0, sizes.text, 0, 1];
    let texts = claims
        .with(check(ones.lent(0, 131070, &spans), alone(&[1, 0, 0, 0, 0, 1])) == Ok(()))
        .with(check(ones.lent(0, 131070, &spans), alone(&[1, 0, 0, 0, 0, 2])) == SIZE)
        .with(check(ones.lent(0, 131070, ones.points), ones.list(0, 0)) == Ok(()))
        .with(check(ones.lent(0, 131071, ones.points), ones.list(0, 0)) == SIZE);
    // The original, and what is claimed of it.
    let original = ones.lent(65535, 0, ones.points);
    let original_past = ones.lent(65536, 0, ones.points);
    texts
        .with(check(original, alone(&[2, 0, 65535, 0, 0, 0])) == Ok(()))
        .with(check(original_past, alone(&[2, 0, 65536, 0, 0, 0])) == SIZE)
        .with(check(original, alone(&[2, 0, 65536, 0, 0, 0])) == TILING)
        .with(check(original, alone(&[0, 0, 4294967296, 0, 0, 0])) == TILING)
        .with(check(original, alone(&[0, 0, usize::MAX, 0, 0, 0])) == TILING)
}

// Raw lists with no rooms: one that keeps its sizes is refused for them alone, by 7.
fn raws(tally: Tally, ones: Ones) -> Tally {
    let spans = [0u32, 131070, 0, 1];
    tally
        .with(raw(ones, ones.points, 2, first(ones.numbers, 24576)) == Some(Refusal::Room))
        .with(raw(ones, ones.points, 2, first(ones.numbers, 24579)) == Some(Refusal::Size))
        .with(raw(ones, ones.points, 2, &[0, 0, 16384]) == Some(Refusal::Room))
        .with(raw(ones, ones.points, 2, &[0, 0, 16385]) == Some(Refusal::Size))
        .with(raw(ones, ones.points, 2, &[0, 0, 4294967296]) == Some(Refusal::Size))
        .with(raw(ones, ones.points, 2, &[0, 0, usize::MAX]) == Some(Refusal::Size))
        .with(raw(ones, &spans, 131070, &[0, 0, 1]) == Some(Refusal::Room))
        .with(raw(ones, &spans, 131070, &[0, 0, 2]) == Some(Refusal::Size))
        .with(raw(ones, ones.points, 131070, &[0, 0, 1]) == Some(Refusal::Room))
        .with(raw(ones, ones.points, 131071, &[0, 0, 1]) == Some(Refusal::Size))
}

// What refuses a raw list.
fn raw(ones: Ones, spans: &[u32], text: usize, raw: &[usize]) -> Option<Refusal> {
    let lent = RawTokens {
        tokens: Tokens {
            spans,
            keys: ones.points,
        },
        joins: ones.joins,
    };
    let text = first(ones.points, text);
    elongate::elongate(raw, lent, text, &mut [], &mut [], &mut [], &mut []).err()
}
