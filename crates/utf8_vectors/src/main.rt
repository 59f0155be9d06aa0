// Reads the oracle's UTF-8, from standard input: RFC 3629's examples, each boundary, the kinds of Markus
// Kuhn's stress test, bad sequences in each place of a block. A case is three lines: bytes, the answer
// `0 count` or `10 offset`, and the code points.
#![tactic(auto)]

use vectors::Case;

fn main() {
    let mut space = io::large_buffer();
    let n = io::read_full(0, &mut space);
    replay(b"utf8 read", &space[..n]);
}

fn replay(name: &[u8], bytes: &[u8]) {
    let mut text = [0u8; 1024];
    let mut points = [0u32; 1024];
    let mut room = [0u32; 1024];
    vectors::replay(
        name,
        bytes.len(),
        |at| case_at(bytes, at, &mut text, &mut points, &mut room),
    );
}

fn case_at(bytes: &[u8], at: usize, text: &mut [u8], points: &mut [u32], room: &mut [u32]) -> Case {
    let text_line = vectors::numbers(bytes, at, text);
    let answer = vectors::due_at(bytes, text_line.next);
    let points_line = vectors::numbers(bytes, answer.next, points);
    let due = answer.due;
    let agrees = due.is_answer(utf8::read_length(text_line.numbers).map(|n| [n]))
        && due.is_answer(utf8::read(text_line.numbers, room).map(|n| [n]))
        && room.starts_with(points_line.numbers);
    Case {
        agrees,
        next: points_line.next,
    }
}
