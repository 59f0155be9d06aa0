// Every answer as four numbers, as C is handed it. How each is told is a definition of specs/, and
// every statement of an export speaks by it.
#![tactic(auto)]

ghost use Rattle.std.specs.Prelude.{◌≡◌};
ghost use Rattle.answer.specs.declared.Answer.{Answer};
ghost use Rattle.answer.specs.Tellings.{told, tell_counts, of_range, of_elongated, of_merged, of_applied, of_history, of_all, of_diff, tell_believed, tell_outcome, tell_refusal};

use apply::{Applied, WithAll, WithHistory};
use merge_files::Outcome;
use overlap::Range;
use refusal::Refusal;

// refusal 0: accepted, and the others are the answer's counts, 0 after the last. Else the number of
// the refusal, and the others are what it carries, 0 after the last.
#[repr(C)]
#[derive(Clone, Copy)]
pub struct Answer {
    pub refusal: u64,
    pub first: u64,
    pub second: u64,
    pub third: u64,
}

fn tell_counts(first: usize, second: usize, third: usize) -> Answer
    ensures { result ≡ tell_counts first second third }
{
    Answer {
        refusal: 0,
        first: first as u64,
        second: second as u64,
        third: third as u64,
    }
}

// What is told as four numbers.
pub trait Tell {
    ghost telling: { Self → Answer };

    fn tell(self) -> Answer
        ensures { result ≡ telling self };
}

impl Tell for Refusal {
    ghost telling = { tell_refusal };

    fn tell(self) -> Answer {
        let values = self.values();
        Answer {
            refusal: self.number() as u64,
            first: values.first,
            second: values.second,
            third: values.third,
        }
    }
}

impl<T: Tell> Tell for Result<T, Refusal> {
    ghost telling = { told T.telling };

    fn tell(self) -> Answer {
        match self {
            Ok(value) => value.tell(),
            Err(why) => why.tell(),
        }
    }
}

impl Tell for usize {
    ghost telling = { λ n. tell_counts n 0 0 };

    fn tell(self) -> Answer {
        tell_counts(self, 0, 0)
    }
}

impl Tell for Range {
    ghost telling = { of_range };

    fn tell(self) -> Answer {
        tell_counts(self.start, self.end, 0)
    }
}

impl Tell for elongate::Written {
    ghost telling = { of_elongated };

    fn tell(self) -> Answer {
        tell_counts(self.operations, self.tokens, 0)
    }
}

impl Tell for edited_text::Counts {
    ghost telling = { of_merged };

    fn tell(self) -> Answer {
        tell_counts(self.operations, self.cursors, 0)
    }
}

impl Tell for Applied {
    ghost telling = { of_applied };

    fn tell(self) -> Answer {
        tell_counts(self.text, self.cursors, 0)
    }
}

impl Tell for WithHistory {
    ghost telling = { of_history };

    fn tell(self) -> Answer {
        tell_counts(self.spans, self.text, 0)
    }
}

impl Tell for WithAll {
    ghost telling = { of_all };

    fn tell(self) -> Answer {
        tell_counts(self.text, self.spans, self.history_text)
    }
}

impl Tell for item_records::Counts {
    ghost telling = { of_diff };

    fn tell(self) -> Answer {
        tell_counts(self.items, self.text, 0)
    }
}

impl Tell for bool {
    ghost telling = { tell_believed };

    fn tell(self) -> Answer {
        tell_counts(self as usize, 0, 0)
    }
}

impl Tell for Outcome {
    ghost telling = { tell_outcome };

    fn tell(self) -> Answer {
        match self {
            Outcome::Merged(bytes) => tell_counts(bytes, 0, 0),
            Outcome::Refused(bytes) => tell_counts(bytes, 1, 0),
            Outcome::Room => Refusal::Room.tell(),
        }
    }
}
