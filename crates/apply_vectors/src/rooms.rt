// A call run in rooms of several lengths.

// The length of a room that is ample.
pub const AMPLE: usize = 2048;

// The lengths of the rooms of a call: for a text, for cursors, for spans and for their text; 0 where it has none.
pub type Lengths = [usize; 4];

// Whether a call gives what is due in rooms that are ample and in those asked, and is refused where one of these is a number too short;
// a room of none cannot be. The closure runs the call in rooms of some lengths, of which one may be short.
pub fn agrees<F: Fn(Lengths, bool) -> bool>(asked: Lengths, gives: F) -> bool
    requires { F.IsAlwaysCallable gives }
{
    if !gives([AMPLE; 4], false) || !gives(asked, false) {
        return false;
    }
    for (i, length) in asked.iter().enumerate() {
        if *length != 0 {
            let mut short = asked;
            short[i] -= 1;
            if !gives(short, true) {
                return false;
            }
        }
    }
    true
}
