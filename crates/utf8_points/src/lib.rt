// UTF-8, read (RFC 3629): how many code points a good text holds, and the code points, put into a room.
// Counting goes by many bytes at a time, which the compiler makes vectors of, and so does ASCII.
#![tactic(auto)]

ghost use Rattle.std.specs.Prelude.{◌≡◌, [], ◌∷◌, ◌+◌, ◌%◌, ◌<◌, ◌≤◌, ◌^◌, length, drop};
ghost use Rattle.room.specs.Placed.{answered};
ghost use Rattle.utf8_read.specs.Grammar.{utf8_char};
ghost use Rattle.utf8_read.specs.Table.{more};
ghost use Rattle.utf8_read.specs.Reading.{good_end, points};
ghost use Rattle.utf8_read.specs.Window.{Ascii, starts};
ghost use Rattle.utf8_points.specs.Found.{Pointed};

use utf8_read::ascii::{all_ascii, ascii_end, put_as};

// 1 for a byte that is no tail.
#[tactic(auto, unfolding(utf8_read::specs::Window::starts))]
fn start_of(b: u8) -> u8
    ensures { result ≡ starts (b ∷ []) }
{
    u8::from(!utf8_read::is_tail(b))
}

// How many of at most 192 bytes are no tails: in a byte, so that 16 are counted at a time.
fn starts_block(src: &[u8]) -> u8
    requires { length src.now ≤ 192 }
    ensures { result ≡ starts src.now }
{
    let mut n: u8 = 0;
    'block: for b in src {
        n += start_of(*b);
    }
    n
}

// How many bytes are no tails: the code points of a good text.
pub fn starts_of(bytes: &[u8]) -> usize
    ensures { result ≡ starts bytes.now }
{
    let mut n: usize = 0;
    'many: for block in bytes.chunks(192) {
        n += usize::from(starts_block(block));
    }
    n
}

// A code point and how many bytes it takes.
#[derive(Clone, Copy)]
pub struct Point {
    pub code: u32,
    pub len: usize,
}

// x with the six bits of b after it.
fn push(x: u32, b: u8) -> u32
    requires { x < 2 ^ 15 }
    ensures { result ≡ more x b }
{
    (x << 6) | u32::from(b & 0x3f)
}

// The numbers of two, three and four bytes.
// Kept so: the new form is no plainer, since mask, bound and number of tails hang together.
fn two_of(a: u8, b: u8) -> u32
    ensures { result ≡ more (a % 32) b }
{
    push(u32::from(a & 0x1f), b)
}

fn three_of(a: u8, b: u8, c: u8) -> u32
    ensures { result ≡ more (more (a % 16) b) c }
{
    push(push(u32::from(a & 0x0f), b), c)
}

fn four_of(a: u8, b: u8, c: u8, d: u8) -> u32
    ensures { result ≡ more (more (more (a % 8) b) c) d }
{
    push(push(push(u32::from(a & 0x07), b), c), d)
}

// The code point of the good sequence at a place.
fn point_at(bytes: &[u8], at: usize) -> Point
    requires { (at < length bytes.now) × (0 < utf8_char (drop at bytes.now)) }
    ensures { Pointed bytes.now at result }
{
    let a = bytes[at];
    if a < 0x80 {
        let code = u32::from(a);
        return Point { code, len: 1 };
    }
    if a < 0xe0 {
        let code = two_of(a, bytes[at + 1]);
        return Point { code, len: 2 };
    }
    if a < 0xf0 {
        let code = three_of(a, bytes[at + 1], bytes[at + 2]);
        return Point { code, len: 3 };
    }
    let code = four_of(a, bytes[at + 1], bytes[at + 2], bytes[at + 3]);
    Point { code, len: 4 }
}

// How far blocks of 16 ASCII bytes go from a place on; its first byte is asked first, for where it is
// not ASCII this is all that the question costs.
fn calm_end(bytes: &[u8], at: usize) -> usize
    requires { at < length bytes.now }
    ensures { (at ≤ result) × (result ≤ length bytes.now) × Ascii bytes.now at result }
{
    if 0x80 <= bytes[at] {
        return at;
    }
    let mut end = at;
    // Kept so: here and below a `while`, since how far a step goes is found in the bytes; no range counts it.
    'calm: while 16 <= bytes.len() - end {
        let next = end + 16;
        if !all_ascii(&bytes[end..next]) {
            return end;
        }
        end = ascii_end::<u8, 64>(bytes, next);
    }
    end
}

// The code points of a good text, put into a room that holds them: ASCII by blocks, and where a block
// is not ASCII 32 bytes one sequence at a time.
pub fn fill(bytes: &[u8], out: &mut [u32])
    requires { (good_end bytes.now ≡ length bytes.now) × (length (points bytes.now) ≤ length out.old) }
    ensures { out.new ≡ answered (points bytes.now) out.old }
{
    let mut at = 0;
    let mut n = 0;
    'fill: while at < bytes.len() {
        let end = calm_end(bytes, at);
        n = put_as(&bytes[at..end], out, n, |b| u32::from(b));
        at = end;
        let stop = utf8_read::near(bytes.len(), at, 32);
        'some: while at < stop {
            let p = point_at(bytes, at);
            out[n] = p.code;
            at += p.len;
            n += 1;
        }
    }
}
