// Writes the oracle's diffs as edit files, from standard input: each refusal at each place, sums past every number, every size at its
// limit and one past it. A case is four lines: the file; the answer `0 bytes` or the refusal's number and value; the text; the items. File,
// text and items are in pieces.
#![tactic(auto)]

use marked::Mark;
use refusal::Refusal;
use vectors::{Case, Due};

fn main() {
    let mut space = [0u8; 262144];
    let n = io::read_full(0, &mut space);
    run(&space[..n]);
}

fn run(bytes: &[u8]) {
    let mut file = [0u8; 327680];
    let mut text = [0u32; 131072];
    let mut items = [0i64; 327680];
    vectors::replay(
        b"edit files written",
        bytes.len(),
        |at| turn_at(bytes, at, &mut file, &mut text, &mut items),
    );
}

fn turn_at(bytes: &[u8], at: usize, file: &mut [u8], text: &mut [u32], items: &mut [i64]) -> Case {
    let case = edit_vectors::case_at(bytes, at, file, text, items);
    Case {
        agrees: writes(case.items, case.text, case.due, case.file),
        next: case.next,
    }
}

// Whether the calls give what is due, in rooms that are longer, just long enough and one short.
fn writes(items: &[i64], text: &[u32], due: Due, file: &[u8]) -> bool {
    let f = file.len();
    if !due.is_answer(edit_write::write_length(items, text).map(|n| [n]))
        || !leaves(items, text, f, due, file)
        || f > 327680
        || !leaves(items, text, f + 1, due, file)
    {
        return false;
    }
    let short = Due::from(Refusal::Room);
    f == 0 || leaves(items, text, f - 1, short, &file[..0])
}

// Whether writing into a room of this length gives what is due, and leaves this file and nothing else.
fn leaves(items: &[i64], text: &[u32], lent: usize, due: Due, file: &[u8]) -> bool {
    let mut room = [u8::MARK; 327688];
    let answer = lend(items, text, lent, &mut room);
    due.is_answer(answer.map(|n| [n])) && marked::holds(&room, file)
}

// Writing into the beginning of a room.
fn lend(items: &[i64], text: &[u32], lent: usize, room: &mut [u8]) -> Result<usize, Refusal> {
    match room.get_mut(..lent) {
        Some(out) => edit_write::write(items, text, out),
        None => Ok(0),
    }
}
