// A number of a line, and a line of numbers of any width.
ghost use Rattle.std.specs.Prelude.{◌<◌, length, IfSome};
ghost use Rattle.vectors.specs.Lines.{Read};

// The numbers of a line that the room had place for, and the offset behind the line.
#[derive(Clone, Copy)]
pub struct Line<'a, T> {
    pub numbers: &'a [T],
    pub next: usize,
}

// A number of a line, and the offset behind what was read.
#[derive(Clone, Copy)]
struct Number {
    negative: bool,
    magnitude: u64,
    next: usize,
}

// What a number is read into.
pub trait FromDecimal: Copy {
    fn from_decimal(magnitude: u64, negative: bool) -> Self;
}

// The largest where a number does not fit; a sign is left out.
impl FromDecimal for u8 {
    fn from_decimal(magnitude: u64, _negative: bool) -> u8 {
        u8::try_from(magnitude).unwrap_or(u8::MAX)
    }
}

impl FromDecimal for u32 {
    fn from_decimal(magnitude: u64, _negative: bool) -> u32 {
        u32::try_from(magnitude).unwrap_or(u32::MAX)
    }
}

impl FromDecimal for u64 {
    fn from_decimal(magnitude: u64, _negative: bool) -> u64 {
        magnitude
    }
}

impl FromDecimal for usize {
    fn from_decimal(magnitude: u64, _negative: bool) -> usize {
        magnitude as usize
    }
}

// The least where a number does not fit, of either sign.
impl FromDecimal for i64 {
    fn from_decimal(magnitude: u64, negative: bool) -> i64 {
        if negative {
            0i64.saturating_sub_unsigned(magnitude)
        } else {
            i64::try_from(magnitude).unwrap_or(i64::MIN)
        }
    }
}

// One digit more; what is no digit, or does not fit, changes nothing.
fn with_digit(value: u64, byte: u8) -> u64 {
    if !byte.is_ascii_digit() {
        return value;
    }
    let digit = u64::from(byte - b'0');
    // Any digit fits behind it.
    if value < u64::MAX / 10 {
        return value * 10 + digit;
    }
    match value.checked_mul(10) {
        Some(tens) => tens.checked_add(digit).unwrap_or(value),
        None => value,
    }
}

// The number at an offset, or none where the line ends there.
fn number_at(bytes: &[u8], at: usize) -> Option<Number>
    requires { at < length bytes.now }
    ensures { IfSome result (λ n. at < n.next) }
{
    let first = bytes[at];
    if first == b'\n' {
        return None;
    }
    let rest = &bytes[at + 1..];
    let mut magnitude = with_digit(0, first);
    let mut length = rest.len();
    for (i, b) in rest.iter().enumerate() {
        if *b == b' ' || *b == b'\n' {
            length = i;
            break;
        }
        magnitude = with_digit(magnitude, *b);
    }
    let end = at + 1 + length;
    let next = if rest.get(length) == Some(&b' ') {
        end + 1
    } else {
        end
    };
    Some(Number {
        negative: first == b'-',
        magnitude,
        next,
    })
}

// Reads a line into the room; what the room has no place for is left out.
// Kept so: a `while`, since a step is as long as the number that was read; an iterator of numbers is no plainer.
pub fn numbers<'a, T: FromDecimal>(bytes: &[u8], at: usize, room: &'a mut [T]) -> Line<'a, T>
    ensures { Read bytes.now room.old at result }
{
    let mut count = 0;
    let mut next = at;
    'line: while next < bytes.len() {
        let Some(number) = number_at(bytes, next) else {
            next += 1;
            break 'line;
        };
        next = number.next;
        if count < room.len() {
            room[count] = T::from_decimal(number.magnitude, number.negative);
            count += 1;
        }
    }
    Line {
        numbers: &room[..count],
        next,
    }
}

// The offset behind so many lines.
pub fn behind(bytes: &[u8], at: usize, lines: usize) -> usize {
    let mut next = at;
    for _ in 0..lines {
        let mut none = [0usize; 0];
        next = numbers(bytes, next, &mut none).next;
    }
    next
}
