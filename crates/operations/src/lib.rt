// A list lent as a slice of operation structs: refusal 2 and the length of its text, by a walk from
// the first to the last. What a walk does at one operation is a function of its own, on values.
#![tactic(auto)]

ghost use Rattle.std.specs.Prelude.{◌≡◌, ◌+◌, min};
ghost use Rattle.sizes.specs.Texts.{text_length};
ghost use Rattle.shapes.specs.Tiling.{tiling_of};
ghost use Rattle.operations.specs.Folds.{moved_to, stopped_at, tile_step, tile_all, tile_end, text_by};

use records::{INSERT, Operation, Tokens};
use refusal::Refusal;

// A walk over the tiles: the original's length, the operations seen, how much they consume, and
// whether each one was in its place. It stays at the first that is not.
// Kept so: an Option in place of `good` is no plainer: the walk goes over the whole list, so each clause of `tile_step` and `tile_all` would
// have a case for one that has stopped.
#[derive(Clone, Copy)]
pub struct Tile {
    pub n: usize,
    pub index: usize,
    pub at: usize,
    pub good: bool,
}

fn moved(t: Tile, at: usize) -> Tile
    ensures { result ≡ moved_to t at }
{
    Tile {
        n: t.n,
        index: t.index.saturating_add(1),
        at,
        good: true,
    }
}

fn stopped(t: Tile) -> Tile
    ensures { result ≡ stopped_at t }
{
    Tile { good: false, ..t }
}

pub fn tile_step(t: Tile, o: Operation) -> Tile
    ensures { result ≡ tile_step t o }
{
    if !t.good {
        return t;
    }
    if o.kind == INSERT {
        return moved(t, t.at);
    }
    if o.order == t.at && t.at <= t.n && o.length <= t.n - t.at {
        moved(t, t.at + o.length)
    } else {
        stopped(t)
    }
}

pub fn tile_all(operations: &[Operation], start: Tile) -> Tile
    ensures { result ≡ tile_all operations.now start }
{
    operations.iter().fold(start, |t, o| tile_step(t, *o))
}

pub fn tile_end(t: Tile) -> Result<(), Refusal>
    ensures { result ≡ tile_end t }
{
    if t.good && t.at == t.n {
        Ok(())
    } else {
        Err(Refusal::Tiling { index: t.index })
    }
}

// Refusal 2 of a list over an original of n code points.
pub fn check_tiling(n: usize, operations: &[Operation]) -> Result<(), Refusal>
    ensures { result ≡ tiling_of n operations.now }
{
    let start = Tile {
        n,
        index: 0,
        at: 0,
        good: true,
    };
    tile_end(tile_all(operations, start))
}

// A sum of text with one operation more, capped: by the length of a list that has it alone.
pub fn text_step(tokens: Tokens, n: usize, sum: usize, o: Operation) -> usize
    ensures { result ≡ min 1000000 (sum + text_by n tokens.entry.spans.now tokens.entry.keys.now o) }
{
    let alone = [o.kind, o.order, o.length, o.side, o.first, o.count];
    let more = sizes::text_length(tokens, n, &alone);
    sizes::capped(std::cmp::min(sum, 1000000), more)
}

// The length of a list's text, capped: that of an accepted list is below the cap. n is the length of
// the lent inserted text.
pub fn text_length(tokens: Tokens, n: usize, operations: &[Operation]) -> usize
    ensures { result ≡ min 1000000 (text_length n tokens.entry.spans.now tokens.entry.keys.now operations.now) }
{
    operations
        .iter()
        .fold(0, |sum, o| text_step(tokens, n, sum, *o))
}
