// ""abcde" with 2, "X", -2 replays to "abX"; covering refuses 9 with 1 left. 3, -3 refuses 6: position 3, requested 3, available 2. The
// most negative number: position 0, available 5."
use reconcile::diffs::{from_covering_diff, from_diff};
use refusal::Refusal;

const ORIGINAL: [u32; 5] = [97, 98, 99, 100, 101];

pub fn unmentioned() -> bool {
    let items = [0i64, 2, 0, 1, 0, 1, 0, -2, 0];
    let text = [88u32];
    let due = [97u32, 98, 88];
    let mut out = [0u32; 16];
    from_diff(&ORIGINAL, &items, &text, &mut out) == Ok(due.len())
        && out.starts_with(&due)
        && from_covering_diff(&ORIGINAL, &items, &text, &mut out)
            == Err(Refusal::Unmentioned { left: 1 })
}

pub fn too_long() -> bool {
    let due = Refusal::Short {
        position: 3,
        requested: 3,
        available: 2,
    };
    both_refuse(&[0, 3, 0, 0, -3, 0], due)
}

pub fn most_negative() -> bool {
    let due = Refusal::Short {
        position: 0,
        requested: 9223372036854775808,
        available: 5,
    };
    both_refuse(&[0, i64::MIN, 0], due)
}

fn both_refuse(items: &[i64], due: Refusal) -> bool {
    let mut out = [0u32; 16];
    from_diff(&ORIGINAL, items, &[], &mut out) == Err(due)
        && from_covering_diff(&ORIGINAL, items, &[], &mut out) == Err(due)
}
