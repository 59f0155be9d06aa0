// The edit file's format: its definitions are in specs/ and its laws in proofs/. Here are the digits, which reader and writer share.
#![tactic(auto)]

ghost use Rattle.std.specs.Prelude.{◌≡◌, ◌<◌};
ghost use Rattle.edit_format.specs.Digits.{value_of};

// The digit that a byte writes in lower-case hex, and 16 for every other byte.
// Kept so: an Option is no plainer, since every caller compares with a base of at most 16, which tells what is no digit too.
#[tactic(auto, using(crate::proofs::DigitLaws::value_low, crate::proofs::DigitLaws::value_ten, crate::proofs::DigitLaws::value_gap, crate::proofs::DigitLaws::value_six, crate::proofs::DigitLaws::value_high))]
pub fn value(b: u8) -> u32
    ensures { result ≡ value_of b }
{
    let x = u32::from(b);
    match b {
        b'0'..=b'9' => x - 48,
        b'a'..=b'f' => x - 87,
        _ => 16,
    }
}

// The digit that a byte writes, of a byte that writes one: the last four bits of a letter are 9 less.
#[tactic(auto, using(crate::proofs::DigitLaws::bits_digit))]
pub fn digit(b: u8) -> u32
    requires { value_of b < 16 }
    ensures { result ≡ value_of b }
{
    let x = u32::from(b);
    (x & 15) + 9 * (x >> 6)
}

// The same for numbers in hex. No branch tells 0 to 9 from a to f, since no processor could foresee it: the bytes between them are those
// with more than 24 here. (Of a decimal number, a compiler leaves one test of `value`.)
#[tactic(auto, using(crate::proofs::DigitLaws::value_low, crate::proofs::DigitLaws::value_high, crate::proofs::DigitLaws::hex_between, crate::proofs::DigitLaws::hex_writes))]
pub fn hex_value(b: u8) -> u32
    ensures { result ≡ value_of b }
{
    let x = u32::from(b);
    if x < 48 {
        return 16;
    }
    if 102 < x {
        return 16;
    }
    if 24 < x + 31 & 63 {
        return 16;
    }
    digit(b)
}
