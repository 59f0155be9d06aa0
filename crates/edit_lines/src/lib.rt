// The leaves of an edit file's lines, at a place of any bytes: a number, a line of one number, a code point. Line keys are byte strings.
#![tactic(auto)]

ghost use Rattle.std.specs.Prelude.{◌≡◌, ◌+◌, ◌*◌, ◌≤◌, ◌<◌, length, drop};
ghost use Rattle.edit_format.specs.Tests.{begins};
ghost use Rattle.edit_lines.specs.Scan.{cap, scan, closed_at, line_at, ended_at, point_at, Stands, Closes};

// A number and the place after it. A number above every size is held as CAP.
#[derive(Clone, Copy)]
pub struct Number {
    pub value: u32,
    pub next: usize,
}

// A code point and the place after the space or the LF that follows it.
#[derive(Clone, Copy)]
pub enum Point {
    More { point: u32, next: usize },
    Last { point: u32, next: usize },
}

pub const CAP: u32 = 2000000;

// One digit more.
#[tactic(auto, using(crate::proofs::Leaves::product_fits))]
fn capped(n: u32, base: u32, digit: u32) -> u32
    requires { (n ≤ 2000000) × (base ≤ 16) × (digit ≤ 16) }
    ensures { result ≡ cap (n * base + digit) }
{
    std::cmp::min(n * base + digit, CAP)
}

// A number in a base of 10 or 16, with no leading zero.
#[tactic(auto, using(crate::proofs::Leaves::scan_end, crate::proofs::Leaves::scan_none, crate::proofs::Leaves::scan_on, crate::proofs::Leaves::more_end, crate::proofs::Leaves::more_none, crate::proofs::Leaves::more_zero, crate::proofs::Leaves::more_on))]
fn number_at(bytes: &[u8], at: usize, base: u32) -> Option<Number>
    requires { (at ≤ length bytes.now) × (1 < base) × (base ≤ 16) }
    ensures { result ≡ scan base at (drop at bytes.now) }
{
    let mut n = edit_format::value(*bytes.get(at)?);
    if base <= n {
        return None;
    }
    // Kept so, here and below: an iterator is no plainer, since the place is part of the answer: its count would have to be added to where it began.
    'digits: for i in at + 1..bytes.len() {
        let digit = edit_format::value(bytes[i]);
        if base <= digit {
            return Some(Number { value: n, next: i });
        }
        if n == 0 {
            return None;
        }
        n = capped(n, base, digit);
    }
    Some(Number {
        value: n,
        next: bytes.len(),
    })
}

// Whether a key stands at a place.
pub fn has_key(bytes: &[u8], at: usize, key: &[u8]) -> bool
    requires { at ≤ length bytes.now }
    ensures { result ≡ begins key.now (drop at bytes.now) }
{
    bytes[at..].starts_with(key)
}

// LF after a number.
#[tactic(auto, using(crate::proofs::Leaves::closes, crate::proofs::Leaves::closes_not, crate::proofs::Leaves::closes_past))]
fn closed(bytes: &[u8], n: Number) -> Option<Number>
    ensures { result ≡ closed_at bytes.now (Some n) }
{
    match bytes.get(n.next) {
        Some(b'\n') => Some(Number {
            next: n.next + 1,
            ..n
        }),
        _ => None,
    }
}

// A line of one decimal number.
#[tactic(auto, unfolding(crate::specs::Scan::line_at, crate::specs::Scan::closed_at), using(crate::proofs::Begins::room_after))]
pub fn number_line(bytes: &[u8], at: usize, key: &[u8]) -> Option<Number>
    requires { at ≤ length bytes.now }
    ensures { result ≡ line_at key.now bytes.now at }
{
    if !has_key(bytes, at, key) {
        return None;
    }
    closed(bytes, number_at(bytes, at + key.len(), 10)?)
}

// The number of a line that was judged: every byte from 0 on is a digit, and the first other is LF.
#[tactic(auto, using(crate::proofs::Lines::starts, crate::proofs::Lines::first_low, crate::proofs::Lines::first_read, crate::proofs::Lines::inside, crate::proofs::Lines::ends, crate::proofs::Lines::digit_most, crate::proofs::Lines::goes_on))]
pub fn judged_line(bytes: &[u8], at: usize) -> Number
    requires { Closes bytes.now at }
    ensures { closed_at bytes.now (scan 10 at (drop at bytes.now)) ≡ Some result }
{
    let mut n = u32::from(bytes[at]) - 48;
    let mut i = at + 1;
    // Kept so: a `for` over what is left is no plainer, since it needs an answer for an end that is never met.
    'digits: while b'0' <= bytes[i] {
        n = n * 10 + (u32::from(bytes[i]) - 48);
        i += 1;
    }
    Number {
        value: n,
        next: i + 1,
    }
}

// What follows a number of an add line.
#[tactic(auto, using(crate::proofs::Leaves::no_point, crate::proofs::Leaves::ends_last, crate::proofs::Leaves::ends_more, crate::proofs::Leaves::ends_not, crate::proofs::Leaves::ends_past))]
fn ended(bytes: &[u8], n: Number) -> Option<Point>
    ensures { result ≡ ended_at bytes.now (Some n) }
{
    let point = n.value;
    let next = n.next;
    if !numbers::is_point(point) {
        return None;
    }
    match bytes.get(next) {
        Some(b'\n') => Some(Point::Last {
            point,
            next: next + 1,
        }),
        Some(b' ') => Some(Point::More {
            point,
            next: next + 1,
        }),
        _ => None,
    }
}

// The number of a code point where six bytes are left. A seventh digit makes it no code point, and so does a digit after 69631, which is
// 10fff in hex; so the loop has six turns, which a compiler lays out one after the other.
#[tactic(auto, using(crate::proofs::Points::none, crate::proofs::Points::first, crate::proofs::Points::further, crate::proofs::Points::after_zero, crate::proofs::Points::after_last, crate::proofs::Points::stops, crate::proofs::Points::six))]
fn short_number(bytes: &[u8], at: usize) -> Option<Number>
    requires { at + 6 ≤ length bytes.now }
    ensures { point_at bytes.now at ≡ ended_at bytes.now result }
{
    let mut n = edit_format::hex_value(bytes[at]);
    if 16 <= n {
        return None;
    }
    'digits: for k in 1..6 {
        let digit = edit_format::hex_value(bytes[at + k]);
        if 16 <= digit {
            return Some(Number {
                value: n,
                next: at + k,
            });
        }
        if n < 1 || 69631 < n {
            return None;
        }
        n = n * 16 + digit;
    }
    Some(Number {
        value: n,
        next: at + 6,
    })
}

// The number of a code point at any place.
#[tactic(auto, unfolding(crate::specs::Scan::point_at))]
fn hex_number(bytes: &[u8], at: usize) -> Option<Number>
    requires { at ≤ length bytes.now }
    ensures { point_at bytes.now at ≡ ended_at bytes.now result }
{
    if bytes.len() - at < 6 {
        return number_at(bytes, at, 16);
    }
    short_number(bytes, at)
}

// A code point of an add line.
#[tactic(auto, unfolding(crate::specs::Scan::ended_at))]
pub fn point_at(bytes: &[u8], at: usize) -> Option<Point>
    requires { at ≤ length bytes.now }
    ensures { result ≡ point_at bytes.now at }
{
    ended(bytes, hex_number(bytes, at)?)
}

// The number of a code point that was judged: every byte from 0 on is a digit, and the first other ends it.
#[tactic(auto, using(crate::proofs::Points::judged_starts, crate::proofs::Points::judged_first, crate::proofs::Points::first, crate::proofs::Points::judged_in, crate::proofs::Points::judged_stops, crate::proofs::Points::judged_digit, crate::proofs::Points::judged_further, crate::proofs::Points::six))]
fn judged_number(bytes: &[u8], at: usize) -> Number
    requires { Stands bytes.now at }
    ensures { point_at bytes.now at ≡ ended_at bytes.now (Some result) }
{
    let mut n = edit_format::digit(bytes[at]);
    'digits: for k in 1..6 {
        let b = bytes[at + k];
        if b < b'0' {
            return Number {
                value: n,
                next: at + k,
            };
        }
        n = n * 16 + edit_format::digit(b);
    }
    Number {
        value: n,
        next: at + 6,
    }
}

// A code point that was judged.
#[tactic(auto, using(crate::proofs::Points::ends_in, crate::proofs::Points::ends_last, crate::proofs::Points::ends_more))]
pub fn judged_at(bytes: &[u8], at: usize) -> Point
    requires { Stands bytes.now at }
    ensures { Some result ≡ point_at bytes.now at }
{
    let Number { value: point, next } = judged_number(bytes, at);
    if bytes[next] == b'\n' {
        return Point::Last {
            point,
            next: next + 1,
        };
    }
    Point::More {
        point,
        next: next + 1,
    }
}
