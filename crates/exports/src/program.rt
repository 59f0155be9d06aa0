// The program's work.
ghost use Rattle.answer.specs.Tellings.{ToldBy, tell_outcome};
ghost use Rattle.merge_files.specs.Program.{Written, result_of};

use answer::{Answer, Tell};

// What the program writes for three files: a merged edit file, or the line of a refusal.
#[unsafe(no_mangle)]
pub extern "C" fn fleecelatch_merge_files(
    original: &[u8],
    left: &[u8],
    right: &[u8],
    out: &mut [u8],
) -> Answer
    ensures { ToldBy tell_outcome (Written (result_of original.now left.now right.now) out.old out.new) result }
{
    merge_files::merge_files(original, left, right, out).tell()
}
