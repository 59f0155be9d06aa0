// The search of Knuth, Morris and Pratt, linear in old and new. The fallback table stands in lent room.
ghost use Rattle.std.specs.Prelude.{◌≡◌, ◌≤◌, length};
ghost use Rattle.overlap.specs.Overlap.{overlap_of, Answered};
ghost use Rattle.overlap.specs.Table.{Table, Fits, Filled};

use crate::Range;
use refusal::Refusal;

// The most keys of a side.
const LIMIT: usize = 8192;

// table[j] becomes the length of the longest beginning of new[..=j], short of the whole, that also
// ends it. Past new's length the table is left as it was.
// Kept so: what may not change, the line on the overlap scan of docs/STATEMENTS.md. The scan nests its fallback loop, so that
// the two have no function for it in common.
pub fn fill(new: &[u32], table: &mut [u32])
    requires { Fits new.now table.old }
    ensures { Filled new.now table.old table.new }
{
    if new.is_empty() {
        return;
    }
    table[0] = 0;
    let mut matched: usize = 0;
    // Kept so: an iterator over new is no plainer, since new and table are read at other places too, and the table is written.
    'fill: for i in 1..new.len() {
        let key = new[i];
        'fall: loop {
            if key == new[matched] {
                matched += 1;
                break;
            }
            if matched == 0 {
                break;
            }
            matched = table[matched - 1] as usize;
        }
        table[i] = matched as u32;
    }
}

// Goes through old once. At each place `matched` is the length of the longest beginning of new that
// ends there, so that a length is first reached at the first occurrence.
#[tactic(auto, using(crate::proofs::Turns::scanned_longer, crate::proofs::Turns::scanned_kept, crate::proofs::Turns::scanned_whole))]
pub fn scan(old: &[u32], new: &[u32], table: &[u32]) -> Range
    requires table { Table new.now table.now (length new.now) }
    requires in_bounds { length new.now ≤ length table.now }
    ensures { result ≡ overlap_of old.now new.now }
{
    if new.is_empty() {
        return Range { start: 0, end: 0 };
    }
    let mut start = 0;
    let mut end = 0;
    let mut matched: usize = 0;
    'found: {
        'scan: for (i, key) in old.iter().enumerate() {
            'fall: loop {
                if *key == new[matched] {
                    matched += 1;
                    if end - start < matched {
                        end = i + 1;
                        start = end - matched;
                        if matched == new.len() {
                            break 'found Range { start, end };
                        }
                    }
                    continue 'scan;
                }
                if matched == 0 {
                    continue 'scan;
                }
                matched = table[matched - 1] as usize;
            }
        }
        Range { start, end }
    }
}

// The longest beginning of new that occurs in old, at its first occurrence; 0..0 if there is none.
// The fallback table is made at the start of work.
#[tactic(auto, unfolding(crate::specs::Overlap::answer_of))]
pub fn find_longest_prefix_contained_within(
    old: &[u32],
    new: &[u32],
    work: &mut [u32],
) -> Result<Range, Refusal>
    ensures { Answered old.now new.now work.old work.new result }
{
    if LIMIT < old.len() || LIMIT < new.len() {
        return Err(Refusal::Size);
    }
    if work.len() < new.len() {
        return Err(Refusal::Room);
    }
    fill(new, work);
    Ok(scan(old, new, work))
}
