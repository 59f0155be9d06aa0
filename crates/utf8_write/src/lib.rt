// UTF-8, written (RFC 3629): how many bytes code points take, and the bytes.
// The measure goes by many numbers at a time, which the compiler makes vectors of, and begins behind the
// blocks of ASCII that a text begins with.
#![tactic(auto)]

ghost use Rattle.std.specs.Prelude.{◌≡◌, ◌+◌, ◌/◌, ◌<◌, ◌≤◌, ◌^◌, length};
ghost use Rattle.room.specs.Placed.{Put, answered};
ghost use Rattle.utf8_read.specs.Table.{six, encode};
ghost use Rattle.numbers.specs.Points.{scalars};
ghost use Rattle.utf8_write.specs.Writing.{encode_all};

use room::put;
use utf8_read::ascii::{ascii_end, put_as};

// How many bytes a number takes: a sum, so that a loop over it is made of vectors.
#[tactic(auto, using(crate::proofs::Spilling::steps, numbers::proofs::Steps::step_most))]
fn width(x: u32) -> u32
    ensures { result ≡ length (encode x) }
{
    1 + numbers::at_least(x, 0x80) + numbers::at_least(x, 0x800) + numbers::at_least(x, 0x10000)
}

// How many bytes a text takes.
pub fn width_of(text: &[u32]) -> usize
    ensures { result ≡ length (encode_all text.now) }
{
    let plain = ascii_end::<u32, 16>(text, 0);
    plain + numbers::sum_by(&text[plain..], width)
}

// The six low bits under the mark 10.
fn six_of(x: u32) -> u8
    ensures { result ≡ six x }
{
    (0x80 | x & 0x3f) as u8
}

// The first byte of two, of three and of four.
// Kept so: the new form is no plainer, since mark, shift and bound hang together.
fn lead_two(x: u32) -> u8
    requires { x < 2 ^ 11 }
    ensures { result ≡ 0xc0 + x / 64 }
{
    (0xc0 | x >> 6) as u8
}

fn lead_three(x: u32) -> u8
    requires { x < 2 ^ 16 }
    ensures { result ≡ 0xe0 + x / 4096 }
{
    (0xe0 | x >> 12) as u8
}

fn lead_four(x: u32) -> u8
    requires { x < 2 ^ 21 }
    ensures { result ≡ 0xf0 + x / 262144 }
{
    (0xf0 | x >> 18) as u8
}

// The bytes of a code point at a place of a room; the next place is handed back.
#[tactic(auto, using(crate::proofs::Encodes::row_1, crate::proofs::Encodes::row_2, crate::proofs::Encodes::row_3, crate::proofs::Encodes::row_4))]
fn put_code(out: &mut [u8], at: usize, x: u32) -> usize
    requires { (x < 2 ^ 21) × (at + length (encode x) ≤ length out.old) }
    ensures { Put (encode x) out.old at out.new result }
{
    if x < 0x80 {
        return put(&[x as u8], out, at);
    }
    if x < 0x800 {
        return put(&[lead_two(x), six_of(x)], out, at);
    }
    if x < 0x10000 {
        return put(&[lead_three(x), six_of(x >> 6), six_of(x)], out, at);
    }
    put(
        &[lead_four(x), six_of(x >> 12), six_of(x >> 6), six_of(x)],
        out,
        at,
    )
}

// An ASCII number as a byte.
// Kept so: a closure is no plainer, since it would say the bound once more in a `requires` of its own.
fn low(x: u32) -> u8
    requires { x < 0x80 }
    ensures { result ≡ x }
{
    x as u8
}

// How many numbers go one at a time before ASCII is looked for again: few where the width says that nearly
// all are ASCII, else so many that looking costs nothing.
fn pace(len: usize, width: usize) -> usize
    ensures { 0 < result }
{
    if width / 17 < len / 16 { 16 } else { 4096 }
}

// The bytes of code points, as many as the width says, put into a room that holds them: ASCII by blocks, and
// where a block is not ASCII some numbers one at a time.
pub fn spill(text: &[u32], out: &mut [u8], width: usize)
    requires { (scalars text.now ≡ length text.now) × (length (encode_all text.now) ≤ length out.old) × (width ≡ length (encode_all text.now)) }
    ensures { out.new ≡ answered (encode_all text.now) out.old }
{
    if width == text.len() {
        put_as(text, out, 0, low);
        return;
    }
    let step = pace(text.len(), width);
    let mut i = 0;
    let mut at = 0;
    // Kept so: a `while`, since how far a step goes is found in the text; no range counts it.
    'spill: while i < text.len() {
        let end = ascii_end::<u32, 16>(text, i);
        at = put_as(&text[i..end], out, at, low);
        i = utf8_read::near(text.len(), end, step);
        'some: for x in &text[end..i] {
            at = put_code(out, at, *x);
        }
    }
}
