// A line of pieces: how often a piece stands, how many numbers it has, and these. The numbers that it says, in full.
ghost use Rattle.std.specs.Prelude.{◌≤◌, length};
ghost use Rattle.vectors.specs.Lines.{Read};

use vectors::{FromDecimal, Line};

// The line at an offset, its pieces spread out into the room.
pub fn spread_at<'a>(bytes: &[u8], at: usize, room: &'a mut [i64]) -> Line<'a, i64>
    ensures { Read bytes.now room.old at result }
{
    let mut line = [0i64; 1024];
    let read = vectors::numbers(bytes, at, &mut line);
    let next = read.next;
    let count = spread(read.numbers, room);
    Line {
        numbers: &room[..count],
        next,
    }
}

fn spread(line: &[i64], room: &mut [i64]) -> usize
    ensures { result ≤ length room.new }
{
    let mut n = 0;
    let mut rest = line;
    'pieces: while let [times, size, tail @ ..] = rest {
        let Some((piece, behind)) = tail.split_at_checked(as_usize(*size)) else {
            return n;
        };
        'times: for _ in 0..as_usize(*times) {
            let end = put(piece, room, n);
            // Nor would another put more: the piece is empty or the room is full.
            if end == n {
                break 'times;
            }
            n = end;
        }
        rest = behind;
    }
    n
}

// A piece at a place; what does not fit is left out.
fn put(piece: &[i64], room: &mut [i64], from: usize) -> usize
    requires { from ≤ length room.old }
    ensures { result ≤ length room.new }
{
    let end = from + std::cmp::min(piece.len(), room.len() - from);
    room[from..end].copy_from_slice(&piece[..end - from]);
    end
}

fn as_usize(n: i64) -> usize {
    n.unsigned_abs() as usize
}

// The numbers as bytes or code points; what the room has no place for is left out.
pub fn converted<'a, T: FromDecimal>(numbers: &[i64], room: &'a mut [T]) -> &'a [T]
    ensures { length result.now ≤ length room.old }
{
    for (out, n) in room.iter_mut().zip(numbers) {
        *out = T::from_decimal(n.unsigned_abs(), *n < 0);
    }
    &room[..std::cmp::min(numbers.len(), room.len())]
}
