// UTF-8, read and written (RFC 3629).
ghost use Rattle.answer.specs.Tellings.{ToldBy, tell_count};
ghost use Rattle.refusal.specs.declared.Refusal.{Refusal};
ghost use Rattle.utf8.specs.Answers.{Answered, read_length_of, read_of, write_length_of, write_of};
ghost use Rattle.utf8_read.specs.Reading.{points};
ghost use Rattle.utf8_write.specs.Writing.{encode_all};
ghost use Rattle.std.specs.Prelude.{ℕ, Result, length, ◌≡◌};

use answer::{Answer, Tell};

// How many code points bytes hold: the room to lend to `read`.
#[unsafe(no_mangle)]
pub extern "C" fn fleecelatch_utf8_read_length(bytes: &[u8]) -> Answer
    ensures { result ≡ tell_count (read_length_of bytes.now) }
{
    reconcile::encoding::read_length(bytes).tell()
}

// The code points of bytes, at the start of a room.
#[unsafe(no_mangle)]
pub extern "C" fn fleecelatch_utf8_read(bytes: &[u8], out: &mut [u32]) -> Answer
    ensures { ToldBy tell_count (λ (a : Result ℕ Refusal). Answered (read_of bytes.now (length out.old)) a (points bytes.now) out.old out.new) result }
{
    reconcile::encoding::read(bytes, out).tell()
}

// How many bytes code points take: the room to lend to `write`.
#[unsafe(no_mangle)]
pub extern "C" fn fleecelatch_utf8_write_length(text: &[u32]) -> Answer
    ensures { result ≡ tell_count (write_length_of text.now) }
{
    reconcile::encoding::write_length(text).tell()
}

// The bytes of code points, at the start of a room.
#[unsafe(no_mangle)]
pub extern "C" fn fleecelatch_utf8_write(text: &[u32], out: &mut [u8]) -> Answer
    ensures { ToldBy tell_count (λ (a : Result ℕ Refusal). Answered (write_of text.now (length out.old)) a (encode_all text.now) out.old out.new) result }
{
    reconcile::encoding::write(text, out).tell()
}
