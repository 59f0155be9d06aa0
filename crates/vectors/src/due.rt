// What a case's answer line says, and whether a call's answer is that.
ghost use Rattle.std.specs.Prelude.{◌≢◌, ◌↔◌, IsTrue};
ghost use Rattle.vectors.specs.Answers.{Begins, IsDue};

use refusal::{Refusal, Values};

// An answer, as its line says it: 0 and the counts, or a refusal's number and values; 0 after the last.
#[derive(Clone, Copy, Debug, PartialEq, Eq)]
pub struct Due {
    pub number: usize,
    pub values: Values,
}

#[derive(Clone, Copy)]
pub struct DueLine {
    pub due: Due,
    // The offset behind the line.
    pub next: usize,
}

pub fn due_at(bytes: &[u8], at: usize) -> DueLine {
    let mut answer = [0u64; 4];
    let next = crate::number::numbers(bytes, at, &mut answer).next;
    let [number, first, second, third] = answer;
    DueLine {
        due: Due {
            number: number as usize,
            values: Values {
                first,
                second,
                third,
            },
        },
        next,
    }
}

impl Due {
    pub fn is_refusal(self) -> bool
        ensures { IsTrue result ↔ (self.number ≢ 0) }
    {
        self.number != 0
    }

    // Whether the line has these counts behind its first number; what it has behind them is not asked.
    pub fn begins_with(self, counts: &[usize]) -> bool
        ensures { IsTrue result ↔ Begins self counts.now }
    {
        let Values {
            first,
            second,
            third,
        } = self.values;
        [first as usize, second as usize, third as usize].starts_with(counts)
    }

    // Whether a call's answer is due: as many counts as it has, or the refusal with all its values.
    pub fn is_answer<const N: usize>(self, answer: Result<[usize; N], Refusal>) -> bool
        ensures { IsTrue result ↔ IsDue self answer.entry }
    {
        match answer {
            Ok(counts) => !self.is_refusal() && self.begins_with(&counts),
            Err(why) => self.number == why.number() && self.values == why.values(),
        }
    }
}

impl From<Refusal> for Due {
    fn from(why: Refusal) -> Due {
        Due {
            number: why.number(),
            values: why.values(),
        }
    }
}
