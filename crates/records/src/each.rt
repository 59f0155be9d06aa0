// Records one after the other. A view of what is lent says how many records it has and gives the one at a
// place by value; `each` goes over all of them, `between` over those of a range.
ghost use Rattle.std.specs.Prelude.{◌≡◌, ℕ, ◌+◌, ◌-◌, ◌<◌, ◌≤◌, MatchOption};
ghost use Rattle.std.specs.Iterator.{at_most};
ghost use Rattle.records.specs.Each.{places, Comes, Ends};

pub trait Records: Copy {
    type Record;

    ghost count: { Self → ℕ };

    ghost record_at: { Self → ℕ → Self.Record };

    // How many there are.
    fn count(self) -> usize
        ensures { result ≡ count self };

    // The one at a place.
    fn at(self, i: usize) -> Self::Record
        requires { i < count self }
        ensures { result ≡ record_at self i };

    // All of them, from the first on.
    fn each(self) -> Each<Self>
        ensures { result ≡ places self 0 (count self) }
    {
        Each {
            records: self,
            next: 0,
            end: self.count(),
        }
    }

    // Those from a place on to an end.
    fn between(self, first: usize, end: usize) -> Each<Self>
        requires { end ≤ count self }
        ensures { result ≡ places self first end }
    {
        Each {
            records: self,
            next: first,
            end,
        }
    }
}

// The records of a view from a place on to an end.
#[derive(Clone, Copy)]
pub struct Each<R> {
    records: R,
    next: usize,
    end: usize,
}

impl<R: Records> Iterator for Each<R> {
    type Item = R::Record;

    ghost can_next = { λ s. s.end ≤ R.count s.records };

    ghost next_gives = { λ s r t. MatchOption r (Ends R.record_at s t) (Comes R.record_at s t) };

    ghost remaining = { λ s. at_most (s.end - s.next) };

    fn next(&mut self) -> Option<R::Record> {
        if self.end <= self.next {
            return None;
        }
        let i = self.next;
        self.next = i + 1;
        Some(self.records.at(i))
    }
}
