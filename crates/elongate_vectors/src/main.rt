// Elongates the oracle's raw lists, which it reads from standard input: accepted ones, then refused
// ones. A case is ten lines: raw operations, spans, keys, joins, text, the answer, and what the rooms
// for operations, spans, keys and joins then begin with. The answer is `0 operations tokens`, or a
// refusal's number and values. Past what is due a room keeps its marks.
#![tactic(auto)]

use marked::Mark;
use raw_lists::{RawOperations, RawTokens};
use records::Tokens;
use records::each::Records;
use refusal::Refusal;
use vectors::{Case, Due};

fn main() {
    let mut space = [0u8; 131072];
    let n = io::read_full(0, &mut space);
    replay(b"elongate", &space[..n]);
}

fn replay(name: &[u8], bytes: &[u8]) {
    vectors::replay(name, bytes.len(), |at| case_at(bytes, at));
}

// What a case lends.
#[derive(Clone, Copy)]
struct Lent<'a> {
    raw: &'a [usize],
    tokens: RawTokens<'a>,
    text: &'a [u32],
}

// The answer that is due, and what the rooms then begin with.
#[derive(Clone, Copy)]
struct Expected<'a> {
    due: Due,
    operations: &'a [usize],
    spans: &'a [u32],
    keys: &'a [u32],
    joins: &'a [u8],
}

// The lengths of the rooms that are lent.
#[derive(Clone, Copy)]
struct Rooms {
    operations: usize,
    spans: usize,
    keys: usize,
    joins: usize,
}

// As long as the longest that a case asks, and more.
const AMPLE: Rooms = Rooms {
    operations: 2048,
    spans: 2048,
    keys: 1024,
    joins: 1024,
};

fn case_at(bytes: &[u8], at: usize) -> Case {
    let mut raw = [0usize; 1024];
    let mut spans = [0u32; 1024];
    let mut keys = [0u32; 1024];
    let mut joins = [0u8; 1024];
    let mut text = [0u32; 1024];
    let raw = vectors::numbers(bytes, at, &mut raw);
    let spans = vectors::numbers(bytes, raw.next, &mut spans);
    let keys = vectors::numbers(bytes, spans.next, &mut keys);
    let joins = vectors::numbers(bytes, keys.next, &mut joins);
    let text = vectors::numbers(bytes, joins.next, &mut text);
    let lent = Lent {
        raw: raw.numbers,
        tokens: RawTokens {
            tokens: Tokens {
                spans: spans.numbers,
                keys: keys.numbers,
            },
            joins: joins.numbers,
        },
        text: text.numbers,
    };
    answer_at(bytes, text.next, lent)
}

fn answer_at(bytes: &[u8], at: usize, lent: Lent) -> Case {
    let mut operations = [0usize; 1024];
    let mut spans = [0u32; 1024];
    let mut keys = [0u32; 1024];
    let mut joins = [0u8; 1024];
    let answer = vectors::due_at(bytes, at);
    let operations = vectors::numbers(bytes, answer.next, &mut operations);
    let spans = vectors::numbers(bytes, operations.next, &mut spans);
    let keys = vectors::numbers(bytes, spans.next, &mut keys);
    let joins = vectors::numbers(bytes, keys.next, &mut joins);
    let expected = Expected {
        due: answer.due,
        operations: operations.numbers,
        spans: spans.numbers,
        keys: keys.numbers,
        joins: joins.numbers,
    };
    Case {
        agrees: agrees(lent, expected),
        next: joins.next,
    }
}

// Refusals 3, 4 and 1 come with rooms of any length, refusal 7 with a room that is one number too
// short, and rooms of the length asked are enough.
fn agrees(lent: Lent, expected: Expected) -> bool {
    let asked = asked_by(lent.raw, expected.due);
    gives(lent, AMPLE, expected)
        && gives(lent, asked, expected)
        && (expected.due.is_refusal() || refuses_short(lent, asked))
}

// The rooms that an accepted raw list asks; for a refused one, none.
fn asked_by(raw: &[usize], due: Due) -> Rooms {
    let (operations, tokens) = if due.is_refusal() {
        (0, 0)
    } else {
        (
            std::cmp::min(RawOperations(raw).count(), 341),
            std::cmp::min(due.values.second, 1024) as usize,
        )
    };
    Rooms {
        operations: operations * 6,
        spans: tokens * 2,
        keys: tokens,
        joins: tokens,
    }
}

// Whether refusal 7 comes with each room in turn one number shorter than asked.
fn refuses_short(lent: Lent, asked: Rooms) -> bool {
    let refused = Expected {
        due: Due::from(Refusal::Room),
        operations: &[],
        spans: &[],
        keys: &[],
        joins: &[],
    };
    let short = [
        Rooms {
            operations: asked.operations.saturating_sub(1),
            ..asked
        },
        Rooms {
            spans: asked.spans.saturating_sub(1),
            ..asked
        },
        Rooms {
            keys: asked.keys.saturating_sub(1),
            ..asked
        },
        Rooms {
            joins: asked.joins.saturating_sub(1),
            ..asked
        },
    ];
    asked.operations == 0 || short.iter().all(|rooms| gives(lent, *rooms, refused))
}

// Whether the call in rooms of these lengths gives what is due.
fn gives(lent: Lent, rooms: Rooms, expected: Expected) -> bool {
    let mut operations = [usize::MARK; 2048];
    let mut spans = [u32::MARK; 2048];
    let mut keys = [u32::MARK; 1024];
    let mut joins = [u8::MARK; 1024];
    let o = std::cmp::min(rooms.operations, 2048);
    let s = std::cmp::min(rooms.spans, 2048);
    let k = std::cmp::min(rooms.keys, 1024);
    let j = std::cmp::min(rooms.joins, 1024);
    gives_in(
        lent,
        expected,
        &mut operations[..o],
        &mut spans[..s],
        &mut keys[..k],
        &mut joins[..j],
    )
}

fn gives_in(
    lent: Lent,
    expected: Expected,
    operations: &mut [usize],
    spans: &mut [u32],
    keys: &mut [u32],
    joins: &mut [u8],
) -> bool {
    let answer = elongate::elongate(
        lent.raw,
        lent.tokens,
        lent.text,
        operations,
        spans,
        keys,
        joins,
    );
    let counts = answer.map(|written| [written.operations, written.tokens]);
    expected.due.is_answer(counts)
        && marked::holds(operations, expected.operations)
        && marked::holds(spans, expected.spans)
        && marked::holds(keys, expected.keys)
        && marked::holds(joins, expected.joins)
}
