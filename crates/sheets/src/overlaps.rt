// "old 0 1 9 0 2 5: new 9 0 2 5 1 gives 2..6; 0 2 gives 3..5; 0 4 gives 0..1; empty gives 0..0."
use reconcile::insert_overlap::find_longest_prefix_contained_within;

pub fn longest() -> bool {
    gives(&[9, 0, 2, 5, 1], 2, 6)
}

pub fn whole() -> bool {
    gives(&[0, 2], 3, 5)
}

pub fn beginning() -> bool {
    gives(&[0, 4], 0, 1)
}

pub fn nothing() -> bool {
    gives(&[], 0, 0)
}

fn gives(new: &[u32], start: usize, end: usize) -> bool {
    let old = [0u32, 1, 9, 0, 2, 5];
    let mut work = [0u32; 8];
    find_longest_prefix_contained_within(&old, new, &mut work).is_ok_and(|range| range.start
        == start
        && range.end == end)
}
