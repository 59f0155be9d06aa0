// Runs the oracle's replays, plain and covering, which it reads from standard input; the bench sheets are the first three.
// A case is seven lines: original, items, text, the plain answer and its text, the covering answer and its text.
#![tactic(auto)]

use refusal::Refusal;
use replay::{from_covering_diff, from_covering_diff_length, from_diff, from_diff_length};
use vectors::{Case, Tally};

fn main() {
    let mut space = io::large_buffer();
    let n = io::read_full(0, &mut space);
    run(&space[..n]);
}

fn run(bytes: &[u8]) {
    let mut original = [0u32; 1024];
    let mut items = [0i64; 1024];
    let mut text = [0u32; 1024];
    let mut plain = Tally::default();
    let mut covering = Tally::default();
    vectors::each_case(bytes.len(), |at| {
        let cases = cases_at(bytes, at, &mut original, &mut items, &mut text);
        plain = plain.with(cases.plain.agrees);
        covering = covering.with(cases.covering.agrees);
        cases.covering.next
    });
    vectors::report(b"replay", plain);
    vectors::report(b"covering replay", covering);
}

// Whether the calls of each replay give what is due, and the offset behind its lines.
#[derive(Clone, Copy)]
struct Cases {
    plain: Case,
    covering: Case,
}

fn cases_at(
    bytes: &[u8],
    at: usize,
    original: &mut [u32],
    items: &mut [i64],
    text: &mut [u32],
) -> Cases {
    let original_line = vectors::numbers(bytes, at, original);
    let items_line = vectors::numbers(bytes, original_line.next, items);
    let text_line = vectors::numbers(bytes, items_line.next, text);
    let original = original_line.numbers;
    let items = items_line.numbers;
    let text = text_line.numbers;
    let plain = answers_at(
        bytes,
        text_line.next,
        from_diff_length(original, items, text),
        |out: &mut [u32]| from_diff(original, items, text, out),
    );
    let covering = answers_at(
        bytes,
        plain.next,
        from_covering_diff_length(original, items, text),
        |out: &mut [u32]| from_covering_diff(original, items, text, out),
    );
    Cases { plain, covering }
}

// Whether the call of the length and the call into a room give what is due and the text that is wanted.
fn answers_at<F: FnOnce(&mut [u32]) -> Result<usize, Refusal>>(
    bytes: &[u8],
    at: usize,
    length: Result<usize, Refusal>,
    replay: F,
) -> Case
    requires { (x : _) → F.pre replay x }
{
    let answer = vectors::due_at(bytes, at);
    let mut want = [0u32; 2048];
    let want_line = vectors::numbers(bytes, answer.next, &mut want);
    let mut out = [0u32; 2048];
    let answered = replay(&mut out);
    Case {
        agrees: answer.due.is_answer(length.map(|n| [n]))
            && answer.due.is_answer(answered.map(|n| [n]))
            && out.starts_with(want_line.numbers),
        next: want_line.next,
    }
}
