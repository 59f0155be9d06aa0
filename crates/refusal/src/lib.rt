// The ten refusals: what a call answers in place of a value. The paper's number of a refusal and the
// values it carries are definitions of specs/, and every statement about a refusal speaks by them.
#![tactic(auto)]

ghost use Rattle.std.specs.Prelude.{◌≡◌, [], ◌∷◌};
ghost use Rattle.refusal.specs.Numbers.{number, values, padded};

// Fields are what the paper says a refusal carries.
#[derive(Clone, Copy, Debug, PartialEq, Eq)]
pub enum Refusal {
    // 1: an operation or a diff item that is no record of its kind.
    Record {
        index: usize,
    },
    // 2: retains and deletes that do not tile the original.
    Tiling {
        index: usize,
    },
    // 3: a size limit is passed.
    Size,
    // 4: a number that is no code point.
    CodePoint {
        index: usize,
    },
    // 5: a cursor past the end of its text.
    Cursor {
        place: usize,
    },
    // 6: a diff number that asks more than is left.
    Short {
        position: usize,
        requested: u64,
        available: usize,
    },
    // 7: a lent room is shorter than asked.
    Room,
    // 8: an edit file breaks a rule.
    Line {
        line: usize,
    },
    // 9: original text that a covering replay leaves unmentioned.
    Unmentioned {
        left: usize,
    },
    // 10: bytes that are no UTF-8.
    Utf8 {
        offset: usize,
    },
}

// The values that a refusal carries, 0 after the last: what a caller of another language is handed.
#[derive(Clone, Copy, Debug, PartialEq, Eq)]
pub struct Values {
    pub first: u64,
    pub second: u64,
    pub third: u64,
}

impl Refusal {
    // The paper's number.
    pub fn number(self) -> usize
        ensures { result ≡ number self }
    {
        match self {
            Refusal::Record { .. } => 1,
            Refusal::Tiling { .. } => 2,
            Refusal::Size => 3,
            Refusal::CodePoint { .. } => 4,
            Refusal::Cursor { .. } => 5,
            Refusal::Short { .. } => 6,
            Refusal::Room => 7,
            Refusal::Line { .. } => 8,
            Refusal::Unmentioned { .. } => 9,
            Refusal::Utf8 { .. } => 10,
        }
    }

    pub fn values(self) -> Values
        ensures { result ≡ padded (values self) }
    {
        let (first, second, third) = match self {
            Refusal::Size | Refusal::Room => (0, 0, 0),
            Refusal::Record { index: n }
            | Refusal::Tiling { index: n }
            | Refusal::CodePoint { index: n }
            | Refusal::Cursor { place: n }
            | Refusal::Line { line: n }
            | Refusal::Unmentioned { left: n }
            | Refusal::Utf8 { offset: n } => (n as u64, 0, 0),
            Refusal::Short {
                position,
                requested,
                available,
            } => (position as u64, requested, available as u64),
        };
        Values {
            first,
            second,
            third,
        }
    }
}
