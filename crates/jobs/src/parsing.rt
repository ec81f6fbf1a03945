// The job parse: the tree image of an expanded syntax image.
ghost use Rattle.std.specs.Prelude.{◌≡◌, ◌+◌, ◌≤◌, length};
ghost use Rattle.model.specs.Jobs.{parse_ending};
ghost use Rattle.store.specs.Sizes.{held_size};
ghost use Rattle.table.specs.Lending.{Lent};
ghost use Rattle.finish.specs.Ends.{EndsAs};
ghost use Rattle.image.specs.Judging.{syntax_kind};
ghost use Rattle.jobs.specs.Working.{Loaded, itself, Worked, parsing, job_ending};

use crate::loading;
use finish::Ending;
use image::Judgement;
use steps::{Out, State, Stop};
use store::carried;

// The root, charged for, is built in the table and parsed. The rules start with nothing carried, so the store does too; parsing does not look.
fn parse_root(
    image: &[u8],
    j: Judgement,
    store: &mut [u64],
    table: &mut [u32],
    s: State,
) -> Result<Out, Stop>
    requires loaded { Loaded syntax_kind image.now store.old j table.old s }
    requires wide { held_size ≤ length store.old }
    ensures { Worked parsing itself image.now store.old j s store.new table.new result }
{
    loading::carry_nothing(store);
    let b = builder::object(table, s.top, image, j.root, j.front.head.scopes);
    parse::parse(table, store, s.raised(b.top), b.at, 0, State::MOST_ENTRIES)
}

// The root, charged for, is parsed, and its tree written.
fn parse_loaded(
    out: &mut [u8],
    image: &[u8],
    j: Judgement,
    store: &mut [u64],
    table: &mut [u32],
    s: State,
    budget: u32,
) -> Ending
    requires loaded { Loaded syntax_kind image.now store.old j table.old s }
    requires wide { held_size ≤ length store.old }
    requires paid { s.left + j.size ≡ budget }
    ensures { EndsAs (job_ending parsing budget (length out.old) image.now) out.old out.new result }
{
    match parse_root(image, j, store, table, s) {
        Ok(o) => finish::finish_tree(out, image, j.front, table, o, budget),
        Err(f) => loading::stopped(f, budget),
    }
}

// How the job ends, with a table as the budget wants it.
pub fn parse_work(out: &mut [u8], image: &[u8], table: &mut [u32], budget: u32) -> Ending
    requires { Lent table.old budget }
    ensures { EndsAs (parse_ending image.now budget (length out.old)) out.old out.new result }
{
    let mut store = [0u64; carried::HELD];
    match image::judge_syntax(image, &mut store) {
        Ok(j) => match loading::begin(j, budget) {
            Ok(s) => parse_loaded(out, image, j, &mut store, table, s, budget),
            Err(f) => loading::stopped(f, budget),
        },
        Err(f) => Ending::Refused(f, 0),
    }
}
