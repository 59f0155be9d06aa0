// UTF-8, read and written (RFC 3629).
ghost use Rattle.utf8.specs.Answers.{Answered, read_length_of, read_of, write_length_of, write_of};
ghost use Rattle.utf8_read.specs.Reading.{points};
ghost use Rattle.utf8_write.specs.Writing.{encode_all};
ghost use Rattle.std.specs.Prelude.{length, ◌≡◌};

use refusal::Refusal;

// How many code points bytes hold: the room to lend to `read`.
pub fn read_length(bytes: &[u8]) -> Result<usize, Refusal>
    ensures { result ≡ read_length_of bytes.now }
{
    utf8::read_length(bytes)
}

// The code points of bytes, at the start of a room.
pub fn read(bytes: &[u8], out: &mut [u32]) -> Result<usize, Refusal>
    ensures { Answered (read_of bytes.now (length out.old)) result (points bytes.now) out.old out.new }
{
    utf8::read(bytes, out)
}

// How many bytes code points take: the room to lend to `write`.
pub fn write_length(text: &[u32]) -> Result<usize, Refusal>
    ensures { result ≡ write_length_of text.now }
{
    utf8::write_length(text)
}

// The bytes of code points, at the start of a room.
pub fn write(text: &[u32], out: &mut [u8]) -> Result<usize, Refusal>
    ensures { Answered (write_of text.now (length out.old)) result (encode_all text.now) out.old out.new }
{
    utf8::write(text, out)
}
