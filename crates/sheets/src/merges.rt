// The merges, by the calls: the merged operations and cursors, and of the merged list its text, history, diff and edit file.
use reconcile::diffs::to_diff;
use reconcile::edit_files::write;
use reconcile::lists::merge;
use reconcile::views::{apply, apply_with_all, apply_with_history};
use records::{Lent, List, Tokens};

// Two lists over what is lent, and what is due of them.
#[derive(Clone, Copy)]
struct Sheet<'a> {
    lent: Lent<'a>,
    left: List<'a>,
    right: List<'a>,
    merged: List<'a>,
    // The text of the merged list, its history and the history's text, and its diff as an edit file.
    spelt: &'a [u32],
    history: &'a [usize],
    told: &'a [u32],
    lines: &'a [u8],
}

// A list of no operations and no cursors.
const NOTHING: List<'static> = List {
    operations: &[],
    cursors: &[],
};

// "Original "abcdef"; left keeps 2, drops 2, adds "X", keeps 2; right keeps 3, drops 2, adds "Y", keeps 1. Text "abXYf"; history
// unchanged ab, removed left cd, removed right e, added left X, added right Y, unchanged f. Left cursor 3 stays 3; right cursor 3
// becomes 2, 4 stays 4."
pub fn abcdef() -> bool {
    let text = [88u32, 89];
    let sheet = Sheet {
        lent: Lent {
            original: &[97, 98, 99, 100, 101, 102],
            text: &text,
            tokens: Tokens {
                spans: &[0, 1, 1, 1],
                keys: &text,
            },
        },
        left: List {
            operations: &[
                2, 0, 2, 0, 0, 0, 0, 2, 2, 0, 0, 0, 1, 4, 1, 0, 0, 1, 2, 4, 2, 0, 0, 0,
            ],
            cursors: &[1, 3],
        },
        right: List {
            operations: &[
                2, 0, 3, 1, 0, 0, 0, 3, 2, 1, 0, 0, 1, 5, 1, 1, 1, 1, 2, 5, 1, 1, 0, 0,
            ],
            cursors: &[2, 3, 3, 4],
        },
        merged: List {
            operations: &[
                2, 0, 2, 0, 0, 0, 0, 2, 2, 0, 0, 0, 0, 4, 1, 1, 0, 0, 1, 5, 1, 0, 0, 1, 1, 5, 1, 1,
                1, 1, 2, 5, 1, 0, 0, 0,
            ],
            cursors: &[2, 2, 1, 3, 3, 4],
        },
        spelt: &[97, 98, 88, 89, 102],
        history: &[
            0, 0, 0, 2, 2, 0, 2, 2, 2, 1, 4, 1, 1, 0, 5, 1, 1, 1, 6, 1, 0, 0, 7, 1,
        ],
        told: &[97, 98, 99, 100, 101, 88, 89, 102],
        lines: b"form=1\noriginal=6\nresult=5\nitems=6\nkeep=2\ndrop=2\ndrop=1\nadd=58\nadd=59\nkeep=1\nend=6\n",
    };
    sheet.holds()
}

// "Empty original, left adds p q, right adds q r: "pqr"; right cursors 0, 1, 2 become 1, 2, 3."
pub fn added() -> bool {
    let text = [112u32, 113, 113, 114];
    let spelt = [112u32, 113, 114];
    let sheet = Sheet {
        lent: Lent {
            original: &[],
            text: &text,
            tokens: Tokens {
                spans: &[0, 1, 1, 1, 2, 1, 3, 1],
                keys: &text,
            },
        },
        left: List {
            operations: &[1, 0, 2, 0, 0, 2],
            cursors: &[],
        },
        right: List {
            operations: &[1, 0, 2, 1, 2, 2],
            cursors: &[1, 0, 2, 1, 3, 2],
        },
        merged: List {
            operations: &[1, 0, 2, 0, 0, 2, 1, 0, 1, 1, 3, 1],
            cursors: &[1, 1, 2, 2, 3, 3],
        },
        spelt: &spelt,
        history: &[1, 0, 0, 2, 1, 1, 2, 1],
        told: &spelt,
        lines: b"form=1\noriginal=0\nresult=3\nitems=2\nadd=70 71\nadd=72\nend=2\n",
    };
    sheet.holds()
}

// "Original "a", both drop 1 and add "b": text "b", two operations, both right."
pub fn same_change() -> bool {
    let text = [98u32, 98];
    let right = List {
        operations: &[0, 0, 1, 1, 0, 0, 1, 1, 1, 1, 1, 1],
        cursors: &[],
    };
    let sheet = Sheet {
        lent: Lent {
            original: &[97],
            text: &text,
            tokens: Tokens {
                spans: &[0, 1, 1, 1],
                keys: &text,
            },
        },
        left: List {
            operations: &[0, 0, 1, 0, 0, 0, 1, 1, 1, 0, 0, 1],
            cursors: &[],
        },
        right,
        merged: right,
        spelt: &[98],
        history: &[2, 1, 0, 1, 1, 1, 1, 1],
        told: &[97, 98],
        lines: b"form=1\noriginal=1\nresult=1\nitems=2\ndrop=1\nadd=62\nend=2\n",
    };
    sheet.holds()
}

// "Empty everything: `form=1`, `original=0`, `result=0`, `items=0`, `end=0`."
pub fn nothing() -> bool {
    let sheet = Sheet {
        lent: Lent {
            original: &[],
            text: &[],
            tokens: Tokens {
                spans: &[],
                keys: &[],
            },
        },
        left: NOTHING,
        right: NOTHING,
        merged: NOTHING,
        spelt: &[],
        history: &[],
        told: &[],
        lines: b"form=1\noriginal=0\nresult=0\nitems=0\nend=0\n",
    };
    sheet.holds()
}

impl<'a> Sheet<'a> {
    // Whether the merge gives the operations and cursors due, and the merged list what is due of it.
    fn holds(self) -> bool {
        self.merges() && self.applies() && self.tells() && self.tells_all() && self.files()
    }

    fn merges(self) -> bool {
        let mut operations = [0usize; 96];
        let mut cursors = [0usize; 32];
        let mut work = [0u32; 32];
        let answer = merge(
            self.lent.original,
            self.lent.text,
            self.lent.tokens.spans,
            self.lent.tokens.keys,
            self.left.operations,
            self.right.operations,
            self.left.cursors,
            self.right.cursors,
            &mut operations,
            &mut cursors,
            &mut work,
        );
        answer.is_ok_and(|n| {
            n.operations == self.merged.operations.len() / 6
                && n.cursors == self.merged.cursors.len() / 2
        }) && operations.starts_with(self.merged.operations)
            && cursors.starts_with(self.merged.cursors)
    }

    // The text of the merged list, and its cursors.
    fn applies(self) -> bool {
        let mut out = [0u32; 16];
        let mut moved = [0usize; 32];
        let answer = apply(
            self.lent.original,
            self.lent.text,
            self.lent.tokens.spans,
            self.lent.tokens.keys,
            self.merged.operations,
            self.merged.cursors,
            &mut out,
            &mut moved,
        );
        answer.is_ok_and(|n| {
            n.text == self.spelt.len() && n.cursors == self.merged.cursors.len() / 2
        }) && out.starts_with(self.spelt)
            && moved.starts_with(self.merged.cursors)
    }

    // Its history.
    fn tells(self) -> bool {
        let mut spanned = [0usize; 64];
        let mut out = [0u32; 16];
        let answer = apply_with_history(
            self.lent.original,
            self.lent.text,
            self.lent.tokens.spans,
            self.lent.tokens.keys,
            self.merged.operations,
            &mut spanned,
            &mut out,
        );
        answer.is_ok_and(|n| n.spans == self.history.len() / 4 && n.text == self.told.len())
            && out.starts_with(self.told)
            && spanned.starts_with(self.history)
    }

    // Both by one call.
    fn tells_all(self) -> bool {
        let mut out = [0u32; 16];
        let mut moved = [0usize; 32];
        let mut spanned = [0usize; 64];
        let mut words = [0u32; 16];
        let answer = apply_with_all(
            self.lent.original,
            self.lent.text,
            self.lent.tokens.spans,
            self.lent.tokens.keys,
            self.merged.operations,
            self.merged.cursors,
            &mut out,
            &mut moved,
            &mut spanned,
            &mut words,
        );
        answer.is_ok_and(|n| {
            n.text == self.spelt.len()
                && n.cursors == self.merged.cursors.len() / 2
                && n.spans == self.history.len() / 4
                && n.history_text == self.told.len()
        }) && out.starts_with(self.spelt)
            && moved.starts_with(self.merged.cursors)
            && spanned.starts_with(self.history)
            && words.starts_with(self.told)
    }

    // Its diff, as an edit file.
    fn files(self) -> bool {
        let mut items = [0i64; 48];
        let mut added = [0u32; 16];
        let Ok(n) = to_diff(
            self.lent.original,
            self.lent.text,
            self.lent.tokens.spans,
            self.lent.tokens.keys,
            self.merged.operations,
            &mut items,
            &mut added,
        ) else {
            return false;
        };
        if 16 < n.items || 16 < n.text {
            return false;
        }
        let mut out = [0u8; 256];
        write(&items[..n.items * 3], &added[..n.text], &mut out) == Ok(self.lines.len())
            && out.starts_with(self.lines)
    }
}
