// The job evaluate: the value of a tree image.
ghost use Rattle.std.specs.Prelude.{◌≡◌, ◌+◌, length};
ghost use Rattle.model.specs.Jobs.{evaluate_ending};
ghost use Rattle.table.specs.Lending.{Lent};
ghost use Rattle.finish.specs.Ends.{EndsAs};
ghost use Rattle.image.specs.Judging.{tree_kind};
ghost use Rattle.jobs.specs.Working.{Loaded, Empty, itself, Worked, evaluating, job_ending};

use crate::loading;
use finish::Ending;
use image::Judgement;
use steps::{Out, State, Stop};

// The root, charged for, is built in the table and evaluated, in no macro's use: the store stays empty.
fn evaluate_root(
    image: &[u8],
    j: Judgement,
    store: &mut [u64],
    table: &mut [u32],
    s: State,
) -> Result<Out, Stop>
    requires loaded { Loaded tree_kind image.now store.old j table.old s }
    requires empty { Empty store.old }
    ensures { Worked evaluating itself image.now store.old j s store.new table.new result }
{
    let b = builder::tree(table, s.top, image, j.root, j.front.head.scopes);
    expand::evaluate(
        table,
        store,
        s.raised(b.top),
        b.at,
        applying::nowhere(),
        State::MOST_ENTRIES,
    )
}

// The root, charged for, is evaluated, and its value written.
fn evaluate_loaded(
    out: &mut [u8],
    image: &[u8],
    j: Judgement,
    store: &mut [u64],
    table: &mut [u32],
    s: State,
    budget: u32,
) -> Ending
    requires loaded { Loaded tree_kind image.now store.old j table.old s }
    requires empty { Empty store.old }
    requires paid { s.left + j.size ≡ budget }
    ensures { EndsAs (job_ending evaluating budget (length out.old) image.now) out.old out.new result }
{
    match evaluate_root(image, j, store, table, s) {
        Ok(o) => finish::finish_tree(out, image, j.front, table, o, budget),
        Err(f) => loading::stopped(f, budget),
    }
}

// How the job ends, with a table as the budget wants it.
pub fn evaluate_work(out: &mut [u8], image: &[u8], table: &mut [u32], budget: u32) -> Ending
    requires { Lent table.old budget }
    ensures { EndsAs (evaluate_ending image.now budget (length out.old)) out.old out.new result }
{
    // No bindings are read or made, and nothing is carried: a word will do.
    let mut store = [0u64; 1];
    match image::judge_tree(image) {
        Ok(j) => match loading::begin(j, budget) {
            Ok(s) => evaluate_loaded(out, image, j, &mut store, table, s, budget),
            Err(f) => loading::stopped(f, budget),
        },
        Err(f) => Ending::Refused(f, 0),
    }
}
