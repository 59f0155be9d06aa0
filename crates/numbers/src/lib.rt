// Numbers: which are code points and how far those of a text are, an order as a number, and sums over the numbers of a text.
#![tactic(auto)]

ghost use Rattle.std.specs.Prelude.{◌≡◌, ℕ, true, length, position};
ghost use Rattle.numbers.specs.Points.{is_point, no_point, scalars};
ghost use Rattle.numbers.specs.Steps.{step};
ghost use Rattle.numbers.specs.Sums.{IsSmall, Measures, sum_of};

// Whether a number is a code point: no surrogate, and at most 10FFFF. No way out between the tests, so that a caller branches once.
#[tactic(auto, unfolding(crate::specs::Points::is_point))]
pub fn is_point(x: u32) -> bool
    ensures { result ≡ is_point x }
{
    (x < 0xd800) | ((0xe000 <= x) & (x <= 0x10ffff))
}

// Whether the numbers of a block are below the surrogates; they may be and it is not told, since only the bits of all together are looked at. No way out before the end: it is made of vectors.
fn all_low(block: &[u32]) -> bool
    ensures { result ≡ true → scalars block.now ≡ length block.now }
{
    let mut bits: u32 = 0;
    'block: for x in block {
        bits |= *x;
    }
    bits < 0xD800
}

// Whether the numbers of a block are code points: a surrogate has 27 above its lowest eleven bits, and only the bits of all together are held to 10FFFF, which is quicker. So they may be and it is not told, where some are above FFFFF and others above FFFF. No way out before the end: it is made of vectors.
fn all_points(block: &[u32]) -> bool
    ensures { result ≡ true → scalars block.now ≡ length block.now }
{
    let mut points = true;
    let mut bits: u32 = 0;
    'block: for x in block {
        points &= *x / 0x800 != 27;
        bits |= *x;
    }
    points & (bits <= 0x10ffff)
}

// The place of the first number of a block that is no code point. Most blocks hold low numbers alone, nearly all others code points, so that is asked first.
#[tactic(auto, using(crate::proofs::Scalar::none_bad))]
fn first_bad(block: &[u32]) -> Option<usize>
    ensures { result ≡ position no_point block.now }
{
    if all_low(block) || all_points(block) {
        return None;
    }
    block.iter().position(|x| !is_point(*x))
}

// The index of the first number that is no code point; the length where all are.
#[tactic(auto, using(crate::proofs::Scalar::none_left))]
pub fn scalars_of(text: &[u32]) -> usize
    ensures { result ≡ scalars text.now }
{
    let mut passed: usize = 0;
    'parts: for block in text.chunks(256) {
        if let Some(bad) = first_bad(block) {
            return passed + bad;
        }
        passed += block.len();
    }
    passed
}

// 1 for a number that is not below another: a sum of these is made of vectors.
#[tactic(auto, unfolding(crate::specs::Steps::step))]
pub fn at_least(x: u32, least: u32) -> u32
    ensures { result ≡ step x least }
{
    u32::from(least <= x)
}

// The sum of what a measure gives for each number of a text. A block's sum fits in 32 bits, so that the loop over it is made of vectors.
pub fn sum_by<F: Fn(u32) -> u32>(text: &[u32], measure: F) -> usize
    requires callable { F.IsAlwaysCallable measure }
    requires small { IsSmall F.post measure }
    ensures { (f : ℕ → ℕ) → Measures F.post measure f → result ≡ sum_of f text.now }
{
    let mut sum: usize = 0;
    'parts: for block in text.chunks(65536) {
        let mut part: u32 = 0;
        'block: for x in block {
            part += measure(*x);
        }
        sum += part as usize;
    }
    sum
}
