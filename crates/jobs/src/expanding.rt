// The job expand: a syntax image without macros, from one with macros, at a phase.
ghost use Rattle.std.specs.Prelude.{◌≡◌, ◌+◌, ◌≤◌, length};
ghost use Rattle.model.specs.Trees.{stx};
ghost use Rattle.model.specs.Jobs.{expand_ending};
ghost use Rattle.store.specs.Sizes.{held_size};
ghost use Rattle.table.specs.Lending.{Lent};
ghost use Rattle.finish.specs.Ends.{EndsAs};
ghost use Rattle.image.specs.Judging.{syntax_kind};
ghost use Rattle.jobs.specs.Working.{Loaded, Worked, FewBindings, expanding, job_ending};

use crate::loading;
use expand::Surroundings;
use finish::Ending;
use image::Judgement;
use refusals::Refusal;
use steps::{Out, State, Stop};
use store::carried;

// The root, charged for, is built in the table and expanded, with the core meanings, no stops and nothing carried.
fn expand_root(
    image: &[u8],
    j: Judgement,
    store: &mut [u64],
    table: &mut [u32],
    s: State,
    phase: u32,
) -> Result<Out, Stop>
    requires loaded { Loaded syntax_kind image.now store.old j table.old s }
    requires wide { held_size ≤ length store.old }
    ensures worked { Worked (expanding phase) stx image.now store.old j s store.new table.new result }
    ensures few_bindings { FewBindings result }
{
    loading::carry_nothing(store);
    let b = builder::object(table, s.top, image, j.root, j.front.head.scopes);
    let at = Surroundings {
        entries: State::MOST_ENTRIES,
        phase,
        meanings: 0,
        stops: 0,
    };
    expand::expand(table, store, s.raised(b.top), b.at, at)
}

// The root, charged for, is expanded, and the result written with all bindings.
fn expand_loaded(
    out: &mut [u8],
    image: &[u8],
    j: Judgement,
    store: &mut [u64],
    table: &mut [u32],
    s: State,
    phase: u32,
    budget: u32,
) -> Ending
    requires loaded { Loaded syntax_kind image.now store.old j table.old s }
    requires wide { held_size ≤ length store.old }
    requires paid { s.left + j.size ≡ budget }
    ensures { EndsAs (job_ending (expanding phase) budget (length out.old) image.now) out.old out.new result }
{
    match expand_root(image, j, store, table, s, phase) {
        Ok(o) => finish::finish_syntax(out, image, j.front, store, table, o, budget),
        Err(f) => loading::stopped(f, budget),
    }
}

// The image past the test of the phase, with words for its bindings and what is carried. Where the job stops at code 6, the two that compete
// are still in them.
pub fn expand_image(
    out: &mut [u8],
    image: &[u8],
    store: &mut [u64],
    table: &mut [u32],
    phase: u32,
    budget: u32,
) -> Ending
    requires lent { Lent table.old budget }
    requires wide { held_size ≤ length store.old }
    ensures { EndsAs (job_ending (expanding phase) budget (length out.old) image.now) out.old out.new result }
{
    match image::judge_syntax(image, store) {
        Ok(j) => match loading::begin(j, budget) {
            Ok(s) => expand_loaded(out, image, j, store, table, s, phase, budget),
            Err(f) => loading::stopped(f, budget),
        },
        Err(f) => Ending::Refused(f, 0),
    }
}

// How the job ends, with a table as the budget wants it.
pub fn expand_work(
    out: &mut [u8],
    image: &[u8],
    table: &mut [u32],
    phase: u32,
    budget: u32,
) -> Ending
    requires { Lent table.old budget }
    ensures { EndsAs (expand_ending image.now phase budget (length out.old)) out.old out.new result }
{
    if table::Sets::LAST_PHASE < phase {
        return Ending::Refused(Refusal::NoPhase, 0);
    }
    let mut store = [0u64; carried::HELD];
    expand_image(out, image, &mut store, table, phase, budget)
}
