// The lines of an edit file, measured and put: numbers in decimal and in hexadecimal, code points, and the lines made of them.
#![tactic(auto)]

ghost use Rattle.std.specs.Prelude.{◌≡◌, ◌+◌, ◌≤◌, ◌<◌, length};
ghost use Rattle.room.specs.Placed.{Put};
ghost use Rattle.edit_format.specs.Digits.{digit, digits};
ghost use Rattle.edit_format.specs.Items.{Add};
ghost use Rattle.edit_format.specs.Written.{points, number_line, item_line};
ghost use Rattle.written_lines.specs.Lengths.{cap, further, last_two};

// How many decimal digits a number has: most have few, and are measured without a division.
#[tactic(auto, using(crate::proofs::Numbers::one_ten, crate::proofs::Numbers::tens_2, crate::proofs::Numbers::tens_3, crate::proofs::Numbers::tens_4, crate::proofs::Numbers::tens_5, crate::proofs::Numbers::five_less, crate::proofs::Numbers::few_digits))]
fn width(n: u64) -> usize
    ensures { result ≡ length (digits 10 n) }
{
    match n {
        0..=9 => 1,
        10..=99 => 2,
        100..=999 => 3,
        1000..=9999 => 4,
        10000..=99999 => 5,
        _ => 5 + long_width(n / 100000),
    }
}

// The same, digit by digit.
#[tactic(auto, using(crate::proofs::Numbers::one_ten, crate::proofs::Numbers::ten_less, crate::proofs::Numbers::few_digits))]
fn long_width(n: u64) -> usize
    ensures { result ≡ length (digits 10 n) }
{
    if n < 10 { 1 } else { 1 + long_width(n / 10) }
}

// The byte of a decimal digit.
#[tactic(auto, using(crate::proofs::Numbers::decimal_digit))]
fn decimal_byte(d: u64) -> u8
    requires { d < 10 }
    ensures { result ≡ digit d }
{
    b'0' + d as u8
}

// A number in decimal at a place, its last digit first.
// Kept so: tried, and slower: a function that calls itself for all but the last digit.
fn put_decimal(out: &mut [u8], at: usize, n: u64) -> usize
    requires { at + length (digits 10 n) ≤ length out.old }
    ensures { Put (digits 10 n) out.old at out.new result }
{
    let end = at + width(n);
    let mut left = n;
    let mut place = end - 1;
    'digits: while 10 <= left {
        out[place] = decimal_byte(left % 10);
        left /= 10;
        place -= 1;
    }
    out[place] = decimal_byte(left);
    end
}

// The byte of a hexadecimal digit: a sum, since which of them are letters no branch can foretell.
#[tactic(auto, using(crate::proofs::Numbers::hex_digit))]
fn hex_byte(d: u32) -> u8
    requires { d < 16 }
    ensures { result ≡ digit d }
{
    (d + 48 + (d + 6) / 16 * 39) as u8
}

// The last two hexadecimal digits of a number at a place.
fn put_pair(out: &mut [u8], at: usize, c: u32) -> usize
    requires { at + 2 ≤ length out.old }
    ensures { Put (last_two c) out.old at out.new result }
{
    out[at] = hex_byte(c / 16 % 16);
    out[at + 1] = hex_byte(c % 16);
    at + 2
}

// A number of one or two hexadecimal digits at a place.
fn put_two(out: &mut [u8], at: usize, c: u32) -> usize
    requires { (c < 256) × (at + length (digits 16 c) ≤ length out.old) }
    ensures { Put (digits 16 c) out.old at out.new result }
{
    if c < 16 {
        out[at] = hex_byte(c);
        return at + 1;
    }
    put_pair(out, at, c)
}

// A number of up to four hexadecimal digits at a place.
fn put_four(out: &mut [u8], at: usize, c: u32) -> usize
    requires { (c < 65536) × (at + length (digits 16 c) ≤ length out.old) }
    ensures { Put (digits 16 c) out.old at out.new result }
{
    if c < 256 {
        return put_two(out, at, c);
    }
    let front = put_two(out, at, c / 256);
    put_pair(out, front, c)
}

// A number in hexadecimal at a place: no loop, and its digits are not counted.
// Kept so: one function that calls itself for all but the last two digits was tried, and slower on numbers of four digits.
fn put_hex(out: &mut [u8], at: usize, c: u32) -> usize
    requires { at + length (digits 16 c) ≤ length out.old }
    ensures { Put (digits 16 c) out.old at out.new result }
{
    if c < 65536 {
        return put_four(out, at, c);
    }
    let front = put_four(out, at, c / 256 / 256);
    let middle = put_pair(out, front, c / 256);
    put_pair(out, middle, c)
}

// How many hexadecimal digits a number has: a sum, so that a loop over it is made of vectors.
#[tactic(auto, using(crate::proofs::Hexes::hex_steps, numbers::proofs::Steps::step_most))]
fn hex_width(c: u32) -> u32
    ensures { (result ≡ length (digits 16 c)) × (result ≤ 8) }
{
    1 + numbers::at_least(c, 0x10)
        + numbers::at_least(c, 0x100)
        + numbers::at_least(c, 0x1000)
        + numbers::at_least(c, 0x10000)
        + numbers::at_least(c, 0x100000)
        + numbers::at_least(c, 0x1000000)
        + numbers::at_least(c, 0x10000000)
}

// A sum of lengths, held up to the cap.
pub fn plus(a: usize, b: usize) -> usize
    requires { a ≤ 1099511627776 }
    ensures { result ≡ cap (a + b) }
{
    a.saturating_add(b).min(1099511627776)
}

// The length of a line of one number, by that of its key.
pub fn line_length(key: usize, n: u64) -> usize
    requires { key ≤ 9 }
    ensures { result ≡ cap (key + length (digits 10 n) + 1) }
{
    plus(key + 1, width(n))
}

// The length of code points in hex, with one space between.
pub fn points_length(text: &[u32]) -> usize
    ensures { result ≡ cap (length (points text.now)) }
{
    let spaces = plus(0, text.len().saturating_sub(1));
    plus(spaces, numbers::sum_by(text, hex_width))
}

// A key, a decimal and LF at a place.
pub fn put_line(out: &mut [u8], at: usize, key: &[u8], n: u64) -> usize
    requires { at + length (number_line key.now n) ≤ length out.old }
    ensures { Put (number_line key.now n) out.old at out.new result }
{
    let a = room::put_short(key, out, at);
    let b = put_decimal(out, a, n);
    out[b] = b'\n';
    b + 1
}

// Code points in hex at a place, a space before each.
fn put_further(out: &mut [u8], at: usize, text: &[u32]) -> usize
    requires { at + length (further text.now) ≤ length out.old }
    ensures { Put (further text.now) out.old at out.new result }
{
    let mut next = at;
    'points: for c in text {
        out[next] = b' ';
        next = put_hex(out, next + 1, *c);
    }
    next
}

// Code points in hex, one space between.
fn put_points(out: &mut [u8], at: usize, text: &[u32]) -> usize
    requires { at + length (points text.now) ≤ length out.old }
    ensures { Put (points text.now) out.old at out.new result }
{
    match text.split_first() {
        Some((first, rest)) => {
            let next = put_hex(out, at, *first);
            put_further(out, next, rest)
        }
        None => at,
    }
}

// An add line at a place.
pub fn put_add(out: &mut [u8], at: usize, text: &[u32]) -> usize
    requires { at + length (item_line (Add text.now)) ≤ length out.old }
    ensures { Put (item_line (Add text.now)) out.old at out.new result }
{
    let a = room::put(b"add=", out, at);
    let b = put_points(out, a, text);
    out[b] = b'\n';
    b + 1
}
