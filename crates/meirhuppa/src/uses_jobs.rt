// Where is this bit used (document 02, T-10): the summary of a tree image, a question to it, and a part of the tree replaced. With neither phase nor
// budget nor table.
ghost use Rattle.requests.specs.Uses.{summary_job, uses_job};
ghost use Rattle.requests.specs.Replacing.{replace_job};
ghost use Rattle.meirhuppa.specs.UsesJobs.{RefusedAnswer, SummaryAnswered, UsesAnswered, ReplaceAnswered};

use crate::answers::Answer;
use summaries::refusal::UsesRefusal;

// How many variables have a name, and the place of the first; both are 0 with a refusal.
#[repr(C)]
#[derive(Clone, Copy)]
pub struct Uses {
    pub code: u32,
    pub count: u32,
    pub first: u32,
}

fn refused(f: UsesRefusal) -> Answer
    ensures { RefusedAnswer f result }
{
    Answer::refused(f.code(), 0)
}

// The summary of a tree, into `summary`. The length counts bytes, four for each word.
pub fn meirhuppa_summary(image: &[u8], summary: &mut [u32]) -> Answer
    ensures { SummaryAnswered (summary_job image.now summary.old) result summary.new }
{
    match summaries::make(image, summary) {
        Ok(names) => Answer::written(4 * (2 + 2 * names), 0),
        Err(f) => refused(f),
    }
}

// A question to the summary of a tree.
pub fn meirhuppa_uses(image: &[u8], summary: &[u32], name: u32) -> Uses
    ensures { UsesAnswered (uses_job image.now summary.now name) result }
{
    match summaries::ask(image, summary, name) {
        Ok(entry) => Uses {
            code: 0,
            count: entry.count,
            first: entry.first,
        },
        Err(f) => Uses {
            code: f.code(),
            count: 0,
            first: 0,
        },
    }
}

// The tree with another part at a place, into `out`; the summary is brought up to date.
pub fn meirhuppa_replace(
    image: &[u8],
    place: u32,
    part: &[u8],
    summary: &mut [u32],
    out: &mut [u8],
) -> Answer
    ensures { ReplaceAnswered (replace_job image.now place part.now summary.old out.old) result summary.new out.new }
{
    match replacing::replace(image, place, part, summary, out) {
        Ok(length) => Answer::written(length, 0),
        Err(f) => refused(f),
    }
}
