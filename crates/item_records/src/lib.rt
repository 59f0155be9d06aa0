// A diff item in its flat slice: three numbers with a sign, its kind, its number or start, and its length.
#![tactic(auto)]

ghost use Rattle.std.specs.Prelude.{◌≡◌, [], ◌∷◌, ◌+◌, ◌<◌, ◌≤◌, length, pos, neg_ℤ};
ghost use Rattle.room.specs.Placed.{placed};

// How many items and how many code points of text a diff has.
#[derive(Clone, Copy)]
pub struct Counts {
    pub items: usize,
    pub text: usize,
}

// A retain's number, a place or a length.
pub fn plain_number(n: usize) -> i64
    requires { n < 9223372036854775808 }
    ensures { result ≡ pos n }
{
    n as i64
}

// A delete's number.
pub fn dropped_number(n: usize) -> i64
    requires { n < 9223372036854775808 }
    ensures { result ≡ neg_ℤ (pos n) }
{
    -(n as i64)
}

// One item's numbers at a place of the items' room.
pub fn put_record(items: &mut [i64], at: usize, kind: i64, number: i64, size: i64)
    requires { at + 3 ≤ length items.old }
    ensures { items.new ≡ placed items.old at (kind ∷ number ∷ size ∷ []) }
{
    room::put(&[kind, number, size], items, at);
}
