// The overlap of inserts, called alone.
ghost use Rattle.answer.specs.Tellings.{ToldBy, tell_range};
ghost use Rattle.overlap.specs.Overlap.{Answered};

use answer::{Answer, Tell};

// The longest beginning of new that occurs in old, at its first occurrence; 0..0 if there is none.
// The fallback table is made at the start of work.
#[unsafe(no_mangle)]
pub extern "C" fn fleecelatch_find_longest_prefix_contained_within(
    old: &[u32],
    new: &[u32],
    work: &mut [u32],
) -> Answer
    ensures { ToldBy tell_range (Answered old.now new.now work.old work.new) result }
{
    reconcile::insert_overlap::find_longest_prefix_contained_within(old, new, work).tell()
}
