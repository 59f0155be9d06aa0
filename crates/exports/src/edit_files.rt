// Edit files, read, written and believed.
ghost use Rattle.answer.specs.Tellings.{ToldBy, tell_believed, tell_count, tell_diff};
ghost use Rattle.edit_format.specs.Reading.{believes, read_file};
ghost use Rattle.edit_read.specs.Answer.{ReadInto, lengths_of};
ghost use Rattle.writable.specs.Writable.{file_of};
ghost use Rattle.edit_write.specs.Writing.{Wrote, length_of};
ghost use Rattle.std.specs.Prelude.{◌≡◌};

use answer::{Answer, Tell};

// How many items and code points a file has: what its reader must be lent.
#[unsafe(no_mangle)]
pub extern "C" fn fleecelatch_edit_file_read_lengths(bytes: &[u8]) -> Answer
    ensures { result ≡ tell_diff (lengths_of (read_file bytes.now)) }
{
    reconcile::edit_files::read_lengths(bytes).tell()
}

// An edit file's items and text into the rooms. All is judged first, so a refusal writes nothing, and 8 comes before 7.
#[unsafe(no_mangle)]
pub extern "C" fn fleecelatch_edit_file_read(
    bytes: &[u8],
    items: &mut [i64],
    text: &mut [u32],
) -> Answer
    ensures { ToldBy tell_diff (ReadInto (read_file bytes.now) items.old text.old items.new text.new) result }
{
    reconcile::edit_files::read(bytes, items, text).tell()
}

// Whether a file is believed for an original of this length.
#[unsafe(no_mangle)]
pub extern "C" fn fleecelatch_edit_file_believed(bytes: &[u8], original: usize) -> Answer
    ensures { result ≡ tell_believed (believes (read_file bytes.now) original) }
{
    reconcile::edit_files::believed(bytes, original).tell()
}

// How many bytes the edit file of a diff has.
#[unsafe(no_mangle)]
pub extern "C" fn fleecelatch_edit_file_write_length(items: &[i64], text: &[u32]) -> Answer
    ensures { result ≡ tell_count (length_of (file_of items.now text.now) text.now) }
{
    reconcile::edit_files::write_length(items, text).tell()
}

// A diff as an edit file into a room.
#[unsafe(no_mangle)]
pub extern "C" fn fleecelatch_edit_file_write(items: &[i64], text: &[u32], out: &mut [u8]) -> Answer
    ensures { ToldBy tell_count (Wrote (file_of items.now text.now) text.now out.old out.new) result }
{
    reconcile::edit_files::write(items, text, out).tell()
}
