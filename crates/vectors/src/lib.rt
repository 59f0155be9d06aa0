// Reads the oracle's vector files: lines of decimal numbers, one space between, each line an array.
// What the programs that replay them share. The statements keep a caller's loops within the bytes
// and the rooms; what a line says is for the programs to compare.
#![tactic(auto)]

mod due;
mod number;

pub use due::{Due, DueLine, due_at};
pub use number::{FromDecimal, Line, behind, numbers};

// How many cases agree, and how many differ.
#[derive(Clone, Copy, Default)]
pub struct Tally {
    pub agree: u64,
    pub differ: u64,
}

impl Tally {
    // One case more.
    pub fn with(self, agrees: bool) -> Tally {
        if agrees {
            Tally {
                agree: self.agree.wrapping_add(1),
                ..self
            }
        } else {
            Tally {
                differ: self.differ.wrapping_add(1),
                ..self
            }
        }
    }
}

// Calls at each case from the first offset on; the closure gives the offset behind the case. One that does not go on is the last.
// Kept so: a `while`, since a step is as long as the case that was read; no range counts it.
pub fn each_case<F: FnMut(usize) -> usize>(end: usize, mut case_at: F)
    requires { (state : F) (x : _) → F.pre state x }
{
    let mut at = 0;
    'cases: while at < end {
        let next = case_at(at);
        if next <= at {
            break 'cases;
        }
        at = next;
    }
}

// Whether a call gives the case's answer, and the offset behind the case.
#[derive(Clone, Copy)]
pub struct Case {
    pub agrees: bool,
    pub next: usize,
}

// Runs each case, and tells how many agree.
pub fn replay<F: FnMut(usize) -> Case>(name: &[u8], end: usize, mut case_at: F)
    requires { (state : F) (x : _) → F.pre state x }
{
    let mut tally = Tally::default();
    each_case(end, |at| {
        let case = case_at(at);
        tally = tally.with(case.agrees);
        case.next
    });
    report(name, tally);
}

// `name: A agree, D differ`, on standard output.
// Kept so: written piece by piece, since `Display` asks each program for a handle of its runtime and is no plainer.
pub fn report(name: &[u8], tally: Tally) {
    io::write_all(1, name);
    io::write_all(1, b": ");
    io::print_decimal(1, tally.agree);
    io::write_all(1, b" agree, ");
    io::print_decimal(1, tally.differ);
    io::write_all(1, b" differ\n");
}
