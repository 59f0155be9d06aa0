// Words into a lent text room: a range of the original, and what a run of tokens spells. Each is put
// at a place; what stands before and past it is as it was.
#![tactic(auto)]

ghost use Rattle.std.specs.Prelude.{◌≡◌, ◌+◌, ◌≤◌, length, take, drop};
ghost use Rattle.room.specs.Placed.{Put};
ghost use Rattle.records.specs.Tokens.{tokens_lent, tokens_from, spelling};
ghost use Rattle.words.specs.Words.{Lends, first_start};

use records::Tokens;
use records::each::Records;

// So many code points of the original from a place on.
pub fn put_original(
    original: &[u32],
    from: usize,
    count: usize,
    out: &mut [u32],
    at: usize,
) -> usize
    requires { (from + count ≤ length original.now) × (at + count ≤ length out.old) }
    ensures { Put (take count (drop from original.now)) out.old at out.new result }
{
    room::put_short(&original[from..from + count], out, at)
}

// Where the first of so many tokens starts; 0 where there is none.
// Kept so: an Option is no plainer, since nothing is held back there and any start will do.
#[tactic(auto, using(crate::proofs::Spelling::start_none, crate::proofs::Spelling::start_some))]
fn first_start(tokens: Tokens, first: usize, count: usize) -> usize
    requires { first + count ≤ tokens_lent tokens.spans.now tokens.keys.now }
    ensures { result ≡ first_start (tokens_from tokens.entry.spans.now tokens.entry.keys.now first count) }
{
    if count == 0 {
        return 0;
    }
    tokens.at(first).start as usize
}

// The spelling of so many tokens from the first on. Tokens that follow each other in the text are held
// back and put at once, as most of an insert's are.
pub fn put_tokens(
    text: &[u32],
    tokens: Tokens,
    first: usize,
    count: usize,
    out: &mut [u32],
    at: usize,
) -> usize
    requires { Lends text.now tokens.spans.now tokens.keys.now first count out.old at }
    ensures { Put (spelling text.now tokens.entry.spans.now tokens.entry.keys.now first count) out.old at out.new result }
{
    let mut to = at;
    let mut from = first_start(tokens, first, count);
    let mut held = 0;
    'tokens: for token in tokens.between(first, first + count) {
        let start = token.start as usize;
        let length = token.length as usize;
        if start == from + held {
            held += length;
        } else {
            to = put_original(text, from, held, out, to);
            from = start;
            held = length;
        }
    }
    put_original(text, from, held, out, to)
}
