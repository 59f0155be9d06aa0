// Edit files, read, written and believed.
ghost use Rattle.edit_format.specs.Reading.{believes, read_file};
ghost use Rattle.edit_read.specs.Answer.{ReadInto, lengths_of};
ghost use Rattle.writable.specs.Writable.{file_of};
ghost use Rattle.edit_write.specs.Writing.{Wrote, length_of};
ghost use Rattle.std.specs.Prelude.{◌≡◌};

use item_records::Counts;
use refusal::Refusal;

// How many items and code points a file has: what its reader must be lent.
pub fn read_lengths(bytes: &[u8]) -> Result<Counts, Refusal>
    ensures { result ≡ lengths_of (read_file bytes.now) }
{
    edit_read::read_lengths(bytes)
}

// An edit file's items and text into the rooms. All is judged first, so a refusal writes nothing, and 8 comes before 7.
pub fn read(bytes: &[u8], items: &mut [i64], text: &mut [u32]) -> Result<Counts, Refusal>
    ensures { ReadInto (read_file bytes.now) items.old text.old items.new text.new result }
{
    edit_read::read(bytes, items, text)
}

// Whether a file is believed for an original of this length.
pub fn believed(bytes: &[u8], original: usize) -> bool
    ensures { result ≡ believes (read_file bytes.now) original }
{
    edit_read::believed(bytes, original)
}

// How many bytes the edit file of a diff has.
pub fn write_length(items: &[i64], text: &[u32]) -> Result<usize, Refusal>
    ensures { result ≡ length_of (file_of items.now text.now) text.now }
{
    edit_write::write_length(items, text)
}

// A diff as an edit file into a room.
pub fn write(items: &[i64], text: &[u32], out: &mut [u8]) -> Result<usize, Refusal>
    ensures { Wrote (file_of items.now text.now) text.now out.old out.new result }
{
    edit_write::write(items, text, out)
}
