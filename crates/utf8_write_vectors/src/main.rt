// Writes the oracle's UTF-8, from standard input: each boundary, the examples of RFC 3629 and a longer text with
// each number that is no code point in each place, and random texts. A case is three lines: code points, the
// answer `0 count` or `4 index`, and the bytes.
#![tactic(auto)]

use vectors::Case;

fn main() {
    let mut space = io::large_buffer();
    let n = io::read_full(0, &mut space);
    replay(b"utf8 write", &space[..n]);
}

fn replay(name: &[u8], bytes: &[u8]) {
    let mut text = [0u32; 1024];
    let mut written = [0u8; 1024];
    let mut room = [0u8; 1024];
    vectors::replay(
        name,
        bytes.len(),
        |at| case_at(bytes, at, &mut text, &mut written, &mut room),
    );
}

fn case_at(bytes: &[u8], at: usize, text: &mut [u32], written: &mut [u8], room: &mut [u8]) -> Case {
    let text_line = vectors::numbers(bytes, at, text);
    let answer = vectors::due_at(bytes, text_line.next);
    let written_line = vectors::numbers(bytes, answer.next, written);
    let due = answer.due;
    let agrees = due.is_answer(utf8::write_length(text_line.numbers).map(|n| [n]))
        && due.is_answer(utf8::write(text_line.numbers, room).map(|n| [n]))
        && room.starts_with(written_line.numbers);
    Case {
        agrees,
        next: written_line.next,
    }
}
