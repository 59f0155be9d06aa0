// What the program writes, byte for byte: "The program writes exactly the lines", and "Empty everything".
use merge_files::{Outcome, merge_files};

pub fn abcdef() -> bool {
    writes(
        b"abcdef",
        b"form=1\noriginal=6\nresult=5\nitems=4\nkeep=2\ndrop=2\nadd=58\nkeep=2\nend=4\n",
        b"form=1\noriginal=6\nresult=5\nitems=4\nkeep=3\ndrop=2\nadd=59\nkeep=1\nend=4\n",
        b"form=1\noriginal=6\nresult=5\nitems=6\nkeep=2\ndrop=2\ndrop=1\nadd=58\nadd=59\nkeep=1\nend=6\n",
    )
}

pub fn nothing() -> bool {
    let none = b"form=1\noriginal=0\nresult=0\nitems=0\nend=0\n";
    writes(b"", none, none, none)
}

fn writes(original: &[u8], left: &[u8], right: &[u8], due: &[u8]) -> bool {
    let mut out = [0u8; 256];
    match merge_files(original, left, right, &mut out) {
        Outcome::Merged(n) => n == due.len() && out.starts_with(due),
        Outcome::Refused(_) | Outcome::Room => false,
    }
}
