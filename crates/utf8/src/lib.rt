// UTF-8 (RFC 3629): text read from bytes and written to bytes, and how much room each takes. Nothing
// that is not UTF-8 passes, nothing that is is refused; a refusal writes nothing.
#![tactic(auto)]

ghost use Rattle.std.specs.Prelude.{◌≡◌, length};
ghost use Rattle.utf8_read.specs.Reading.{points};
ghost use Rattle.utf8_write.specs.Writing.{encode_all};
ghost use Rattle.utf8.specs.Answers.{read_length_of, read_of, write_length_of, write_of, Answered};

use refusal::Refusal;

// How many code points bytes hold: the room to lend to `read`.
#[tactic(auto, using(crate::proofs::Ways::length_bad, crate::proofs::Ways::length_good))]
#[inline(always)]
pub fn read_length(bytes: &[u8]) -> Result<usize, Refusal>
    ensures { result ≡ read_length_of bytes.now }
{
    let good = utf8_read::good_end_of(bytes);
    if good < bytes.len() {
        return Err(Refusal::Utf8 { offset: good });
    }
    Ok(utf8_points::starts_of(bytes))
}

// The code points of bytes, at the start of a room.
#[tactic(auto, using(crate::proofs::Ways::counted, crate::proofs::Ways::read_refused))]
pub fn read(bytes: &[u8], out: &mut [u32]) -> Result<usize, Refusal>
    ensures { Answered (read_of bytes.now (length out.old)) result (points bytes.now) out.old out.new }
{
    let count = read_length(bytes)?;
    if out.len() < count {
        return Err(Refusal::Room);
    }
    utf8_points::fill(bytes, out);
    Ok(count)
}

// How many bytes code points take: the room to lend to `write`.
#[tactic(auto, using(crate::proofs::Ways::width_bad, crate::proofs::Ways::width_good))]
pub fn write_length(text: &[u32]) -> Result<usize, Refusal>
    ensures { result ≡ write_length_of text.now }
{
    let fine = numbers::scalars_of(text);
    if fine < text.len() {
        return Err(Refusal::CodePoint { index: fine });
    }
    Ok(utf8_write::width_of(text))
}

// The bytes of code points, at the start of a room.
#[tactic(auto, using(crate::proofs::Ways::measured, crate::proofs::Ways::write_refused))]
pub fn write(text: &[u32], out: &mut [u8]) -> Result<usize, Refusal>
    ensures { Answered (write_of text.now (length out.old)) result (encode_all text.now) out.old out.new }
{
    let width = write_length(text)?;
    if out.len() < width {
        return Err(Refusal::Room);
    }
    utf8_write::spill(text, out, width);
    Ok(width)
}
