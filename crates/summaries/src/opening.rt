// A tree image judged and measured. Code 3 is not asked: an open tree has a summary too.
ghost use Rattle.summaries.specs.Opening.{Opens};

use head::{Counts, Head};
use numbers::Cursor;
use refusals::Refusal;

// Where the root begins, what the head declares, and how many things the tree is.
#[derive(Clone, Copy)]
pub struct Opened {
    pub root: usize,
    pub counts: Counts,
    pub size: u32,
}

pub fn open(image: &[u8]) -> Result<Opened, Refusal>
    ensures { Opens image.now result }
{
    if Cursor::MOST_IMAGE < image.len() {
        return Err(Refusal::OverLimit);
    }
    let (h, c) = head::read_head(image, Head::TREE)?;
    let counts = h.counts();
    let front = Cursor { at: 0 };
    let rest = front.after(image, c);
    roots::measure_tree_root(c, rest, counts)?;
    let span = places::pass_over(c, rest, counts);
    Ok(Opened {
        root: c.at,
        counts,
        size: span.size,
    })
}
