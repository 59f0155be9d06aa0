// Merges a pair of lists at their limits, built by loops: an original of 65,535 code points; 4,096 operations, 8,192 tokens, 65,535 code
// points of inserted text and 256 cursors each. Half of the operations are inserts of four tokens, the others are deletes and retains. The
// oracle builds the same pair; its answer, from standard input, is one line: `0 operations cursors`, and a sum over each room.
#![tactic(auto)]

ghost use Rattle.std.specs.Prelude.{◌<◌, ◌≤◌};

use records::{Lent, List, Tokens};
use vectors::Tally;

fn main() {
    let mut space = [0u8; 128];
    let n = io::read_full(0, &mut space);
    let mut due = [0usize; 5];
    vectors::numbers(&space[..n], 0, &mut due);
    let agrees = agrees(due);
    vectors::report(b"merge at the limits", Tally::default().with(agrees));
}

#[derive(Clone, Copy)]
enum Side {
    Left,
    Right,
}

impl Side {
    // A number that the right list alone adds.
    fn adds(self, n: usize) -> usize
        ensures { result ≤ n }
    {
        match self {
            Side::Left => 0,
            Side::Right => n,
        }
    }
}

fn agrees(due: [usize; 5]) -> bool {
    let mut text = [0u32; 131070];
    let mut spans = [0u32; 32768];
    let mut keys = [0u32; 16384];
    let mut left = [0usize; 24576];
    let mut right = [0usize; 24576];
    let mut left_cursors = [0usize; 512];
    let mut right_cursors = [0usize; 512];
    put_text(&mut text);
    put_tokens(&mut spans, &mut keys);
    let left_retained = put_list(&mut left, Side::Left);
    let right_retained = put_list(&mut right, Side::Right);
    put_cursors(&mut left_cursors, Side::Left, left_retained);
    put_cursors(&mut right_cursors, Side::Right, right_retained);
    let lent = Lent {
        original: &[97; 65535],
        text: &text,
        tokens: Tokens {
            spans: &spans,
            keys: &keys,
        },
    };
    let left_list = List {
        operations: &left,
        cursors: &left_cursors,
    };
    let right_list = List {
        operations: &right,
        cursors: &right_cursors,
    };
    gives(lent, left_list, right_list, due)
}

// What is due for the pair: 0, the counts, and the sums over both rooms.
fn gives(lent: Lent, left: List, right: List, due: [usize; 5]) -> bool {
    let mut operations = [165usize; 49152];
    let mut cursors = [165usize; 1024];
    let mut work = [0u32; 32768];
    match edited_text::merge(lent, left, right, &mut operations, &mut cursors, &mut work) {
        Ok(counts) => {
            due == [
                0,
                counts.operations,
                counts.cursors,
                sum_of(&operations),
                sum_of(&cursors),
            ]
        }
        Err(_) => false,
    }
}

// A number that looks like chance, below 2^31.
fn noise(place: usize, salt: usize) -> usize {
    let i = place.wrapping_add(salt);
    let a = i % 2147483647 * 48271 % 2147483647;
    let b = (a ^ (a >> 15)) % 2147483647;
    b * 69621 % 2147483647
}

// Two letters, so that spellings are often alike for a while.
fn put_text(text: &mut [u32; 131070]) {
    for (i, point) in text.iter_mut().enumerate() {
        *point = if noise(i, 0) % 64 < 32 { 97 } else { 98 };
    }
}

// Eight code points for each token, seven for the last of each list; three keys.
fn put_tokens(spans: &mut [u32; 32768], keys: &mut [u32; 16384]) {
    let (spans, _) = spans.as_chunks_mut::<2>();
    let mut start: u32 = 0;
    for (i, (span, key)) in spans.iter_mut().zip(keys.iter_mut()).enumerate() {
        let length = if i % 8192 == 8191 { 7 } else { 8 };
        *span = [start, length];
        *key = (noise(i, 200000) / 64 % 3) as u32;
        start = start.wrapping_add(length);
    }
}

// Where the k-th delete or retain ends: every fourth at the same place in both lists.
fn boundary(side: Side, k: usize) -> usize {
    if k == 0 {
        return 0;
    }
    if 2048 <= k {
        return 65535;
    }
    let back = if k % 4 == 0 {
        noise(k, 300000)
    } else {
        noise(k + 310000, side.adds(10000))
    };
    (k * 32).wrapping_sub(back / 64 % 30 + 1)
}

// A list; answers how much of the original it retains.
fn put_list(list: &mut [usize; 24576], side: Side) -> usize {
    let (operations, _) = list.as_chunks_mut::<6>();
    let tokens = side.adds(8192);
    let salt = side.adds(10000);
    let mut inserted = 0;
    let mut tiled = 0;
    let mut retained: usize = 0;
    'operations: for (i, operation) in operations.iter_mut().enumerate() {
        let chance = noise(i + 400000, salt);
        if chance / 64 % (4096 - i) < 2048 - inserted {
            *operation = [1, 0, 0, 0, tokens + inserted * 4, 4];
            inserted += 1;
            continue 'operations;
        }
        let start = boundary(side, tiled);
        tiled += 1;
        let length = boundary(side, tiled).wrapping_sub(start);
        if chance % 3 == 0 {
            *operation = [0, start, length, 0, 0, 0];
        } else {
            *operation = [2, start, length, 0, 0, 0];
            retained = retained.wrapping_add(length);
        }
    }
    retained
}

// How many places the text of a list has that retains so much.
fn places_of(retained: usize) -> usize
    ensures { 0 < result }
{
    if retained < 65536 {
        retained + 65536
    } else {
        65536
    }
}

// Cursors anywhere in the text of a list, unsorted.
fn put_cursors(cursors: &mut [usize; 512], side: Side, retained: usize) {
    let (cursors, _) = cursors.as_chunks_mut::<2>();
    let places = places_of(retained);
    let identities = side.adds(256);
    let salt = side.adds(1000);
    for (i, cursor) in cursors.iter_mut().enumerate() {
        *cursor = [identities + i, noise(i + 500000, salt) % places];
    }
}

// A sum over a room in which each number's place counts.
fn sum_of(room: &[usize]) -> usize {
    let mut sum = 0;
    'numbers: for n in room {
        sum = (sum * 31 + n % 4294967291) % 4294967291;
    }
    sum
}
