// The program: merges two edits of one text. It takes the names of the original and of two edit files,
// and writes the merged edit file, or `refused=` with a number, or `unreadable`. What is written for
// three files that can be read is proved of `merge_files`; here they are only read and handed on.
#![tactic(auto)]

ghost use Rattle.std.specs.Prelude.{ℕ, IfSome};
ghost use Rattle.io.specs.Counts.{IsPrefixLen};

use merge_files::Outcome;
use std::env::Env;
use std::fs::File;
use std::io::Read;

const STDOUT: i32 = 1;

// Reads until the buffer is full or the file ends, and says how many bytes stand in the buffer. A read that fails is no end: what stands
// in the buffer then may be cut short, and is not handed on.
fn read_all(file: &mut File, bytes: &mut [u8]) -> Option<usize>
    ensures { IfSome result (λ (n : ℕ). IsPrefixLen n bytes.new) }
{
    let mut count = 0;
    // Kept so: a `while`, since a read gives as much as it likes; no range counts that.
    'read: while count < bytes.len() {
        let n = file.read(&mut bytes[count..]).ok()?;
        if n == 0 {
            break 'read;
        }
        count += n;
    }
    Some(count)
}

// The file that argument i names. A name is text: the library opens no other.
fn read_named(rt: &HostRuntime, i: usize, bytes: &mut [u8]) -> Option<usize>
    ensures { IfSome result (λ (n : ℕ). IsPrefixLen n bytes.new) }
{
    let mut name = io::buffer();
    let length = rt.arg(i, &mut name).ok()?;
    let name = std::str::from_utf8(&name[..length]).ok()?;
    let mut file = File::open(rt, name).ok()?;
    read_all(&mut file, bytes)
}

// The room of 65,536 bytes is long enough for any three files: what is written has at most 14,393
// (law `enough` of merge_files). So the last case never comes; it has the paper's number.
fn merge(original: &[u8], left: &[u8], right: &[u8]) {
    let mut out = io::large_buffer();
    match merge_files::merge_files(original, left, right, &mut out) {
        Outcome::Merged(n) => write(&out, n),
        Outcome::Refused(n) => write(&out, n),
        Outcome::Room => {
            io::write_all(STDOUT, b"refused=7\n");
        }
    }
}

fn write(out: &[u8], n: usize) {
    if n <= out.len() {
        io::write_all(STDOUT, &out[..n]);
    }
}

fn main(rt: HostRuntime) {
    let mut original = io::buffer();
    let mut left = io::buffer();
    let mut right = io::buffer();
    let o = read_named(&rt, 1, &mut original);
    let l = read_named(&rt, 2, &mut left);
    let r = read_named(&rt, 3, &mut right);
    match (o, l, r) {
        (Some(o), Some(l), Some(r)) => merge(&original[..o], &left[..l], &right[..r]),
        _ => {
            io::write_all(STDOUT, b"unreadable\n");
        }
    }
}
