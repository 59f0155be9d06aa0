// Two runs of tokens compared by what they spell, across the tokens' boundaries.
ghost use Rattle.std.specs.Prelude.{◌≡◌};
ghost use Rattle.std.specs.Iterator.{YieldsFirst, item_count};
ghost use Rattle.merging.specs.Lent.{lent_in, spelling_of};
ghost use Rattle.merging.specs.OrderRule.{compare_spelling};
ghost use Rattle.order.specs.Readable.{Run};
ghost use Rattle.order.specs.Spelling.{CanRead, left};

use records::Lent;
use records::each::Records;
use std::cmp::Ordering;

// What is left of a spelling: the rest of one token's text, and then `count` tokens from `next` on.
#[derive(Clone, Copy)]
pub struct Reader<'a> {
    pub lent: Lent<'a>,
    pub rest: &'a [u32],
    pub next: usize,
    pub count: usize,
}

impl<'a> Iterator for Reader<'a> {
    type Item = u32;

    ghost can_next = { CanRead };

    ghost next_gives = { YieldsFirst left };

    ghost remaining = { item_count left };

    fn next(&mut self) -> Option<u32> {
        // Kept so: a `loop`, since tokens are passed until one has text; no range counts them.
        'tokens: loop {
            if let Some((point, rest)) = self.rest.split_first() {
                self.rest = rest;
                return Some(*point);
            }
            if self.count == 0 {
                return None;
            }
            let token = self.lent.tokens.at(self.next);
            let start = token.start as usize;
            self.rest = &self.lent.text[start..start + token.length as usize];
            self.next += 1;
            self.count -= 1;
        }
    }
}

// What `count` tokens from `first` on spell.
fn read<'a>(lent: Lent<'a>, first: usize, count: usize) -> Reader<'a>
    requires { Run lent.text.now lent.tokens.spans.now lent.tokens.keys.now first count }
    ensures can { CanRead result }
    ensures all { left result ≡ spelling_of (lent_in lent.entry) first count }
{
    Reader {
        lent,
        rest: &[],
        next: first,
        count,
    }
}

// By spelling, code point by code point, a beginning first: the tokens from `first` on, `count` of
// them, against those from `other` on, `others` of them.
pub fn compare_spelling(
    lent: Lent,
    first: usize,
    count: usize,
    other: usize,
    others: usize,
) -> Ordering
    requires run { Run lent.text.now lent.tokens.spans.now lent.tokens.keys.now first count }
    requires run_2 { Run lent.text.now lent.tokens.spans.now lent.tokens.keys.now other others }
    ensures { result ≡ compare_spelling (spelling_of (lent_in lent.entry) first count) (spelling_of (lent_in lent.entry) other others) }
{
    read(lent, first, count).cmp(read(lent, other, others))
}
