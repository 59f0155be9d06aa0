// The replay of a diff over an original: plain, as from_diff does it, and covering, which refuses a diff that leaves text unmentioned.
#![tactic(auto)]

ghost use Rattle.std.specs.Prelude.{◌≡◌, ◌≤◌, length, ltb, Ok};
ghost use Rattle.room.specs.Placed.{Put};
ghost use Rattle.verdict.specs.Verdicts.{and_then};
ghost use Rattle.diff.specs.Checks.{refuse_if};
ghost use Rattle.refusal.specs.declared.Refusal.TheVariants.{Unmentioned};
ghost use Rattle.replay.specs.Answers.{diff, text_of, always, plain, covering, judged, length_of, Replayed};

use diff::diff::{Item, Items};
use records::each::Records;
use refusal::Refusal;
use string_builder::StringBuilder;

// What the checks of a plain replay find: how much is left unmentioned and how long the replayed text is.
#[derive(Clone, Copy, Debug, PartialEq, Eq)]
pub struct Judged {
    pub left: usize,
    pub length: usize,
}

impl Judged {
    // The length of a covering replay; refusal 9 where something is left.
    fn covering(self) -> Result<usize, Refusal>
        ensures { result ≡ and_then (refuse_if (ltb 0 self.left) (Unmentioned self.left)) (Ok self.length) }
    {
        if 0 < self.left {
            return Err(Refusal::Unmentioned { left: self.left });
        }
        Ok(self.length)
    }
}

fn judge(original: &[u32], items: Items) -> Result<Judged, Refusal>
    ensures { result ≡ judged (diff original.now items.entry.numbers.now items.entry.text.now) }
{
    if 65535 < original.len() || 8192 < items.count() || 131070 < items.text.len() {
        return Err(Refusal::Size);
    }
    let used = items.survey()?;
    verdict::check_texts(original, items.text)?;
    let used = used?;
    let reached = items.walk(original.len())?;
    Ok(Judged {
        left: original.len() - reached.position,
        length: reached.kept + used,
    })
}

// The replayed text, at the start of a room that it fits.
fn build(original: &[u32], items: Items, out: &mut [u32]) -> usize
    requires { length (text_of (diff original.now items.numbers.now items.text.now)) ≤ length out.old }
    ensures { Put (text_of (diff original.now items.entry.numbers.now items.entry.text.now)) out.old 0 out.new result }
{
    let mut builder = StringBuilder::new(original);
    let mut at: usize = 0;
    'items: for item in items.each() {
        match item {
            Item::Retain(n) => at = builder.retain(n as usize, out, at),
            Item::Delete(n) => builder.delete(n as usize),
            Item::Insert { start, length } => {
                at = builder.insert(&items.text[start..start + length], out, at);
            }
            Item::Neither => {}
        }
    }
    at
}

// The room's check, and the building.
fn fill(original: &[u32], items: Items, out: &mut [u32], len: usize) -> Result<usize, Refusal>
    requires { len ≡ length (text_of (diff original.now items.numbers.now items.text.now)) }
    ensures { Replayed always (diff original.now items.entry.numbers.now items.entry.text.now) out.old result out.new }
{
    if out.len() < len {
        return Err(Refusal::Room);
    }
    Ok(build(original, items, out))
}

// The length of the replayed text, plain. Kept so: here and in the three calls after it a struct of both slices is no plainer, since each is handed on as C lends it and makes the `Items` once.
#[tactic(auto, unfolding(crate::specs::Answers::judged, crate::specs::Answers::length_of))]
pub fn from_diff_length(original: &[u32], items: &[i64], text: &[u32]) -> Result<usize, Refusal>
    ensures { result ≡ length_of plain (diff original.now items.now text.now) }
{
    Ok(judge(original, Items::new(items, text))?.length)
}

// The length of the replayed text, covering.
#[tactic(auto, unfolding(crate::specs::Answers::judged, crate::specs::Answers::covering, crate::specs::Answers::length_of, diff::specs::Checks::covers))]
pub fn from_covering_diff_length(
    original: &[u32],
    items: &[i64],
    text: &[u32],
) -> Result<usize, Refusal>
    ensures { result ≡ length_of covering (diff original.now items.now text.now) }
{
    judge(original, Items::new(items, text))?.covering()
}

// The replayed text, plain: what the diff leaves unmentioned is dropped.
pub fn from_diff(
    original: &[u32],
    items: &[i64],
    text: &[u32],
    out: &mut [u32],
) -> Result<usize, Refusal>
    ensures { Replayed plain (diff original.now items.now text.now) out.old result out.new }
{
    let len = from_diff_length(original, items, text)?;
    fill(original, Items::new(items, text), out, len)
}

// The replayed text, covering: a diff that leaves some of the original unmentioned is refused.
pub fn from_covering_diff(
    original: &[u32],
    items: &[i64],
    text: &[u32],
    out: &mut [u32],
) -> Result<usize, Refusal>
    ensures { Replayed covering (diff original.now items.now text.now) out.old result out.new }
{
    let len = from_covering_diff_length(original, items, text)?;
    fill(original, Items::new(items, text), out, len)
}
