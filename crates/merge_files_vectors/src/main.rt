// Runs the program's work on the oracle's triples of files, from standard input: good, damaged, cut at
// every place, oversize, with counts that do not fit, with bad UTF-8. A case is four lines of bytes: the
// original, the left and the right edit file, and what the program writes.
#![tactic(auto)]

use merge_files::Outcome;
use vectors::Case;

fn main() {
    let mut space = [0u8; 131072];
    let n = io::read_full(0, &mut space);
    let bytes = &space[..n];
    let mut rooms = Rooms {
        original: [0; 4096],
        left: [0; 4096],
        right: [0; 4096],
        due: [0; 4096],
        out: [0; 4096],
    };
    vectors::replay(b"merge_files", n, |at| case_at(bytes, at, &mut rooms));
}

// What a case's lines are read into and its answer is written to, all longer than any case's bytes.
#[derive(Drop)]
struct Rooms {
    original: [u8; 4096],
    left: [u8; 4096],
    right: [u8; 4096],
    due: [u8; 4096],
    out: [u8; 4096],
}

fn case_at(bytes: &[u8], at: usize, rooms: &mut Rooms) -> Case {
    let original_line = vectors::numbers(bytes, at, &mut rooms.original);
    let left_line = vectors::numbers(bytes, original_line.next, &mut rooms.left);
    let right_line = vectors::numbers(bytes, left_line.next, &mut rooms.right);
    let due_line = vectors::numbers(bytes, right_line.next, &mut rooms.due);
    let written = match merge_files::merge_files(
        original_line.numbers,
        left_line.numbers,
        right_line.numbers,
        &mut rooms.out,
    ) {
        Outcome::Merged(n) | Outcome::Refused(n) => n,
        Outcome::Room => 0,
    };
    Case {
        agrees: rooms.out.get(..written) == Some(due_line.numbers),
        next: due_line.next,
    }
}
