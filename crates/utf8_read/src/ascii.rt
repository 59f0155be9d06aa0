// ASCII, of bytes and of the numbers of a text alike: whether a run is, how far it goes, and the values of a run put into a room as others.
ghost use Rattle.std.specs.Prelude.{◌≡◌, ℕ, true, ltb, ◌+◌, ◌<◌, ◌≤◌, List, length};
ghost use Rattle.std.specs.List.{All, AllWithin, AllZip};
ghost use Rattle.room.specs.Placed.{Put};

// A byte, or a number of a text.
pub trait Unit: Copy {
    ghost value: { Self → ℕ };

    fn is_ascii(self) -> bool
        ensures { result ≡ ltb (value self) 0x80 };
}

impl Unit for u8 {
    ghost value = { λ x. x };

    fn is_ascii(self) -> bool {
        self < 0x80
    }
}

impl Unit for u32 {
    ghost value = { λ x. x };

    fn is_ascii(self) -> bool {
        self < 0x80
    }
}

// Whether a run is ASCII. No way out before the end: it is made of vectors.
pub fn all_ascii<T: Unit>(run: &[T]) -> bool
    ensures { result ≡ true → All (λ x. T.value x < 0x80) run.now }
{
    let mut ascii = true;
    'run: for x in run {
        ascii &= x.is_ascii();
    }
    ascii
}

// How far blocks of N ASCII values go from a place on.
pub fn ascii_end<T: Unit, const N: usize>(run: &[T], at: usize) -> usize
    requires place { at ≤ length run.now }
    requires some { 0 < N }
    ensures { (at ≤ result) × (result ≤ length run.now) × AllWithin (λ x. T.value x < 0x80) run.now at result }
{
    let mut end = at;
    'far: for block in run[at..].chunks_exact(N) {
        if !all_ascii(block) {
            return end;
        }
        end += N;
    }
    end
}

// A run put at a place of a room, each value as another; the place behind it is handed back.
pub fn put_as<T: Copy, U: Copy, F: Fn(T) -> U>(src: &[T], out: &mut [U], at: usize, f: F) -> usize
    requires fits { at + length src.now ≤ length out.old }
    requires may { All (F.pre f) src.now }
    ensures { (others : List U) × AllZip (F.post f) src.now others × Put others out.old at out.new result }
{
    'put: for (i, x) in src.iter().enumerate() {
        out[at + i] = f(*x);
    }
    at + src.len()
}
