// The overlap of inserts, called alone.
ghost use Rattle.overlap.specs.Overlap.{Answered};

use overlap::Range;
use refusal::Refusal;

// The longest beginning of new that occurs in old, at its first occurrence; 0..0 if there is none.
// The fallback table is made at the start of work.
pub fn find_longest_prefix_contained_within(
    old: &[u32],
    new: &[u32],
    work: &mut [u32],
) -> Result<Range, Refusal>
    ensures { Answered old.now new.now work.old work.new result }
{
    overlap::find_longest_prefix_contained_within::find_longest_prefix_contained_within(
        old, new, work,
    )
}
