// UTF-8, judged (RFC 3629): how far bytes are good sequences. The judge goes by windows of 32 bytes, which
// the compiler makes vectors of; one sequence at a time is judged only at the ends and where a window does
// not fit.
#![tactic(auto)]

ghost use Rattle.std.specs.Prelude.{◌≡◌, true, false, ◌+◌, ◌<◌, ◌≤◌, min, length, drop, MatchOption};
ghost use Rattle.utf8_read.specs.Grammar.{tail, utf8_2, utf8_3, utf8_4, utf8_char};
ghost use Rattle.utf8_read.specs.Reading.{good_end};
ghost use Rattle.utf8_read.specs.Window.{ones, misfit, Local, Ascii, Clean, Reached, Walked, Stretch};

pub mod ascii;

use ascii::{all_ascii, ascii_end};
use std::cmp::min;

// The one bits at the top of a byte: the zero bits at the top of its complement.
// Kept so: what may not change, the line on leading ones of docs/STATEMENTS.md.
#[tactic(auto, using(crate::proofs::Bytes::ones_law))]
fn ones_of(b: u8) -> u32
    ensures { result ≡ ones b }
{
    u8::leading_zeros(!b)
}

// A byte under the mark 10.
#[tactic(auto, using(crate::proofs::Bytes::tail_law))]
pub fn is_tail(b: u8) -> bool
    ensures { result ≡ tail b }
{
    b & 0xc0 == 0x80
}

// The grammar's rules for two, three and four bytes.
#[tactic(auto, unfolding(crate::specs::Grammar::utf8_2))]
fn is_two(a: u8, b: u8) -> bool
    ensures { result ≡ utf8_2 a b }
{
    ((0xc2 <= a) & (a <= 0xdf)) & is_tail(b)
}

#[tactic(auto, unfolding(crate::specs::Grammar::utf8_3))]
fn is_three(a: u8, b: u8, c: u8) -> bool
    ensures { result ≡ utf8_3 a b c }
{
    let tb = is_tail(b);
    let tc = is_tail(c);
    ((a == 0xe0) & (((0xa0 <= b) & (b <= 0xbf)) & tc))
        | ((((0xe1 <= a) & (a <= 0xec)) & (tb & tc))
            | (((a == 0xed) & (((0x80 <= b) & (b <= 0x9f)) & tc))
                | (((0xee <= a) & (a <= 0xef)) & (tb & tc))))
}

#[tactic(auto, unfolding(crate::specs::Grammar::utf8_4))]
fn is_four(a: u8, b: u8, c: u8, d: u8) -> bool
    ensures { result ≡ utf8_4 a b c d }
{
    let tb = is_tail(b);
    let tcd = is_tail(c) & is_tail(d);
    ((a == 0xf0) & (((0x90 <= b) & (b <= 0xbf)) & tcd))
        | ((((0xf1 <= a) & (a <= 0xf3)) & (tb & tcd))
            | ((a == 0xf4) & (((0x80 <= b) & (b <= 0x8f)) & tcd)))
}

// How many bytes the sequence at a place takes, where one stands there.
fn length_at(bytes: &[u8], at: usize) -> Option<usize>
    requires { at < length bytes.now }
    ensures { MatchOption result (utf8_char (drop at bytes.now) ≡ 0) (λ n. (n ≡ utf8_char (drop at bytes.now)) × (0 < n)) }
{
    let left = bytes.len() - at;
    let a = bytes[at];
    match ones_of(a) {
        0 => Some(1),
        2 if 2 <= left && is_two(a, bytes[at + 1]) => Some(2),
        3 if 3 <= left && is_three(a, bytes[at + 1], bytes[at + 2]) => Some(3),
        4 if 4 <= left && is_four(a, bytes[at + 1], bytes[at + 2], bytes[at + 3]) => Some(4),
        _ => None,
    }
}

// Whether d cannot stand after a, b and c. No way out before the end: a loop over it is made of vectors.
#[tactic(auto, unfolding(crate::specs::Window::misfit))]
fn misfit_of(a: u8, b: u8, c: u8, d: u8) -> bool
    ensures { result ≡ misfit a b c d }
{
    let due = (0xc0 <= c) | (0xe0 <= b) | (0xf0 <= a);
    (is_tail(d) != due)
        | ((0xc0 <= d) & (d < 0xc2))
        | (0xf5 <= d)
        | ((c == 0xe0) & (d < 0xa0))
        | ((c == 0xed) & (0xa0 <= d))
        | ((c == 0xf0) & (d < 0x90))
        | ((c == 0xf4) & (0x90 <= d))
}

// Whether one of the 32 bytes past the first three from j on does not fit.
fn misfits(bytes: &[u8], j: usize) -> bool
    requires { j + 35 ≤ length bytes.now }
    ensures { result ≡ false → Local bytes.now (j + 3) (j + 35) }
{
    let mut bad = false;
    // Kept so: tried, and slower, with the places themselves as the range: bytes are then carried from one to the next.
    'window: for k in 0..32 {
        let p = j + k;
        bad |= misfit_of(bytes[p], bytes[p + 1], bytes[p + 2], bytes[p + 3]);
    }
    bad
}

// Whether the 35 bytes of a window are ASCII. The first byte past three is asked first, for where it is not
// ASCII this is all that the question costs.
fn calm_window(bytes: &[u8], j: usize) -> bool
    requires { j + 35 ≤ length bytes.now }
    ensures { result ≡ true → Ascii bytes.now j (j + 35) }
{
    if 0x80 <= bytes[j + 3] {
        return false;
    }
    all_ascii(&bytes[j..j + 35])
}

// The last first byte of a sequence before e, all bytes from at to e fitting.
fn back(bytes: &[u8], at: usize, e: usize) -> usize
    requires { Stretch bytes.now at e }
    ensures { Reached bytes.now at result }
{
    'back: for p in (at..e).rev() {
        if !is_tail(bytes[p]) {
            return p;
        }
    }
    at
}

// A place that good sequences from at reach, as far on as windows fit.
fn run(bytes: &[u8], at: usize) -> usize
    requires { (3 ≤ at) × (at ≤ length bytes.now) × Clean bytes.now at }
    ensures { Reached bytes.now at result }
{
    let mut e = at;
    // Kept so: here and below a `while`, since how far a step goes is found in the bytes; no range counts it.
    'run: while 32 <= bytes.len() - e {
        let j = e - 3;
        let next = e + 32;
        if calm_window(bytes, j) {
            e = ascii_end::<u8, 64>(bytes, next);
        } else {
            if misfits(bytes, j) {
                return back(bytes, at, e);
            }
            e = next;
        }
    }
    back(bytes, at, e)
}

// How far good sequences go from a place on, one at a time: to another place or past it, or to a bad one.
fn one_by_one(bytes: &[u8], from: usize, until: usize) -> usize
    requires { (from ≤ length bytes.now) × (until ≤ length bytes.now) × Clean bytes.now from }
    ensures { Walked bytes.now from until result }
{
    let mut at = from;
    'one: while at < until {
        if bytes[at] < 0x80 {
            at += 1;
        } else {
            match length_at(bytes, at) {
                Some(n) => at += n,
                None => return at,
            }
        }
    }
    at
}

// The offset of the first byte of the first bad sequence; the length where none is bad. A window looks back
// three bytes, so that the first ones go one sequence at a time, and so do those behind the last window.
#[tactic(auto, using(crate::proofs::Judging::at_last, crate::proofs::Judging::at_bad, crate::proofs::Judging::begun, crate::proofs::Judging::on_from, crate::proofs::Walk::clean_start))]
pub fn good_end_of(bytes: &[u8]) -> usize
    ensures { result ≡ good_end bytes.now }
{
    if bytes.len() < 35 {
        return one_by_one(bytes, 0, bytes.len());
    }
    let first = one_by_one(bytes, 0, 3);
    if first < 3 {
        return first;
    }
    let far = run(bytes, first);
    one_by_one(bytes, far, bytes.len())
}

// Some places on, or the end.
pub fn near(len: usize, at: usize, step: usize) -> usize
    requires { at ≤ len }
    ensures { result ≡ min len (at + step) }
{
    at + min(step, len - at)
}
