// What the programs that run the vectors of edit files share: a case's file, text and items, in pieces, by which sizes at their limits are
// said in short lines.
#![tactic(auto)]

ghost use Rattle.edit_vectors.specs.Cases.{Fits};

mod pieces;

use vectors::Due;

// A case's file, text and items, what is due, and the offset behind these lines.
#[derive(Clone, Copy)]
pub struct Case<'a> {
    pub file: &'a [u8],
    pub text: &'a [u32],
    pub items: &'a [i64],
    pub due: Due,
    pub next: usize,
}

// The four lines that a case begins with: file, answer, text, items.
pub fn case_at<'a>(
    bytes: &[u8],
    at: usize,
    file: &'a mut [u8],
    text: &'a mut [u32],
    items: &'a mut [i64],
) -> Case<'a>
    ensures { Fits file.old text.old items.old result }
{
    let file_line = pieces::spread_at(bytes, at, items);
    let file = pieces::converted(file_line.numbers, file);
    let answer = vectors::due_at(bytes, file_line.next);
    let text_line = pieces::spread_at(bytes, answer.next, items);
    let text = pieces::converted(text_line.numbers, text);
    let items_line = pieces::spread_at(bytes, text_line.next, items);
    Case {
        file,
        text,
        items: items_line.numbers,
        due: answer.due,
        next: items_line.next,
    }
}
