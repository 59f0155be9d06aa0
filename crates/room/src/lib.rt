// Writing into lent rooms. A run of values is put at a place; what stands before and past it is as it was.
#![tactic(auto)]

ghost use Rattle.std.specs.Prelude.{◌+◌, ◌≤◌, length};
ghost use Rattle.room.specs.Placed.{Put};

pub fn put<T: Copy>(src: &[T], out: &mut [T], at: usize) -> usize
    requires { at + length src.now ≤ length out.old }
    ensures { Put src.now out.old at out.new result }
{
    let end = at + src.len();
    out[at..end].copy_from_slice(src);
    end
}

// The same of a run that is mostly short, and whose length is not known where it is put.
// Kept so: tried, and slower: the library's copy of such a run is a call.
pub fn put_short<T: Copy>(src: &[T], out: &mut [T], at: usize) -> usize
    requires { at + length src.now ≤ length out.old }
    ensures { Put src.now out.old at out.new result }
{
    'put: for (i, x) in src.iter().enumerate() {
        out[at + i] = *x;
    }
    at + src.len()
}
