// The verdict of a check, and refusal 4 of a text.
#![tactic(auto)]

ghost use Rattle.std.specs.Prelude.{◌≡◌};
ghost use Rattle.verdict.specs.Points.{points_from, points_verdict};

use refusal::Refusal;

// Refusal 4 of one text.
pub fn check_text(text: &[u32]) -> Result<(), Refusal>
    ensures { result ≡ points_from text.now 0 }
{
    let bad = numbers::scalars_of(text);
    if bad < text.len() {
        return Err(Refusal::CodePoint { index: bad });
    }
    Ok(())
}

// Refusal 4 of both texts.
pub fn check_texts(original: &[u32], text: &[u32]) -> Result<(), Refusal>
    ensures { result ≡ points_verdict original.now text.now }
{
    check_text(original)?;
    check_text(text)
}
