// Runs every sheet of document 01 against the public calls, and tells of each whether it holds.
#![tactic(auto)]

mod files;
mod merges;
mod overlaps;
mod replays;

use vectors::Tally;

fn main() {
    let sheets: [(&[u8], bool); 13] = [
        (b"overlap of 9 0 2 5 1", overlaps::longest()),
        (b"overlap of 0 2", overlaps::whole()),
        (b"overlap of 0 4", overlaps::beginning()),
        (b"overlap of nothing", overlaps::nothing()),
        (b"replay of 2, X, -2", replays::unmentioned()),
        (b"replay of 3, -3", replays::too_long()),
        (
            b"replay of the most negative number",
            replays::most_negative(),
        ),
        (b"merge over abcdef", merges::abcdef()),
        (b"merge of p q and q r", merges::added()),
        (b"merge of the same change", merges::same_change()),
        (b"merge of nothing", merges::nothing()),
        (b"the program over abcdef", files::abcdef()),
        (b"the program, empty everything", files::nothing()),
    ];
    let mut tally = Tally::default();
    for (name, holds) in sheets {
        tell(name, holds);
        tally = tally.with(holds);
    }
    vectors::report(b"sheets", tally);
}

// The line of a sheet.
fn tell(name: &[u8], holds: bool) {
    io::write_all(1, name);
    if holds {
        io::write_all(1, b": holds\n");
    } else {
        io::write_all(1, b": differs\n");
    }
}
