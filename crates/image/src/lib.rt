// An image judged whole before any work on it: its head, bindings and root, and that it ends there. Only the bindings are stored.
#![tactic(auto)]

ghost use Rattle.std.specs.Prelude.{◌+◌, ◌≤◌, length};
ghost use Rattle.store.specs.Sizes.{store_size};
ghost use Rattle.image.specs.Judging.{BehindHead, syntax_kind, Judges, JudgesTree};
ghost use Rattle.numbers.specs.Limits.{most_image};
ghost use Rattle.scopes.specs.Sets.{set_scopes};
ghost use Rattle.words.specs.Section.{most_words};

use bindings::loading;
use head::{Front, Head};
use numbers::Cursor;
use refusals::Refusal;

// What the jobs know of an image without fault.
#[derive(Clone, Copy)]
pub struct Judgement {
    pub front: Front,
    // Where the root begins.
    pub root: usize,
    // The charge for loading the root.
    pub size: u32,
    // How many bindings stand in the store.
    pub bindings: u32,
}

// The bindings behind the front f, into the store from its start, and the root; `s` is the image from there on.
fn judge_rest(f: Front, s: &[u8], store: &mut [u64]) -> Result<Judgement, Refusal>
    requires image { (f.end + length s.now ≤ most_image) × (f.head.scopes ≤ set_scopes) × (f.head.words ≤ most_words) }
    requires held { store_size ≤ length store.old }
    ensures { BehindHead f s.now store.new result }
{
    let c = Cursor { at: f.end };
    let counts = f.head.counts();
    let (bindings, past) = loading::read_bindings(c, s, counts, store)?;
    let (size, _) = roots::measure_syntax_root(past, c.after(s, past), counts)?;
    Ok(Judgement {
        front: f,
        root: past.at,
        size,
        bindings: bindings as u32,
    })
}

// A syntax image, whose bindings are in the store afterwards.
pub fn judge_syntax(image: &[u8], store: &mut [u64]) -> Result<Judgement, Refusal>
    requires { store_size ≤ length store.old }
    ensures { Judges syntax_kind image.now store.new result }
{
    if Cursor::MOST_IMAGE < image.len() {
        return Err(Refusal::OverLimit);
    }
    let (head, c) = head::read_head(image, Head::SYNTAX)?;
    let start = Cursor { at: 0 };
    let front = Front { head, end: c.at };
    judge_rest(front, start.after(image, c), store)
}

// A tree image, each variable of which has an enclosing function of its name.
pub fn judge_tree(image: &[u8]) -> Result<Judgement, Refusal>
    ensures { JudgesTree image.now result }
{
    if Cursor::MOST_IMAGE < image.len() {
        return Err(Refusal::OverLimit);
    }
    let (head, c) = head::read_head(image, Head::TREE)?;
    let start = Cursor { at: 0 };
    let (extent, _) = roots::measure_tree_root(c, start.after(image, c), head.counts())?;
    if !extent.owned {
        return Err(Refusal::Unowned);
    }
    Ok(Judgement {
        front: Front { head, end: c.at },
        root: c.at,
        size: extent.size,
        bindings: 0,
    })
}
