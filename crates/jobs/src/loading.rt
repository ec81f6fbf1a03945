// Before and after the work: the charge for loading, what is carried at the start, and what a refusal of the work has cost.
ghost use Rattle.std.specs.Prelude.{◌≡◌, ◌-◌, ◌≤◌, length};
ghost use Rattle.model.specs.Scopes.{no_scopes};
ghost use Rattle.store.specs.Sizes.{held_size};
ghost use Rattle.store.specs.Words.{Carries};
ghost use Rattle.steps.specs.States.{charge_of};
ghost use Rattle.finish.specs.declared.Ending.TheVariants.{Stopped};
ghost use Rattle.jobs.specs.Working.{begun};

use finish::Ending;
use image::Judgement;
use scopes::ScopeSet;
use steps::{State, Stop};
use store::carried;
use store::carried::Carried;

// The state in which the work on a judged image begins: its root is charged for.
pub fn begin(j: Judgement, budget: u32) -> Result<State, Stop>
    ensures { result ≡ charge_of j.size (begun j budget) }
{
    let head = j.front.head;
    let s = State {
        top: 1,
        left: budget,
        names: head.names,
        scopes: head.scopes,
        bindings: j.bindings,
    };
    s.charge(j.size)
}

// Nothing is prunable yet, and there are no use scopes.
pub fn carry_nothing(store: &mut [u64])
    requires { held_size ≤ length store.old }
    ensures { Carries no_scopes no_scopes store.old store.new }
{
    carried::put(
        store,
        Carried {
            prunable: ScopeSet::empty(),
            uses: ScopeSet::empty(),
        },
    );
}

// A refusal, after the units charged.
pub fn stopped(f: Stop, budget: u32) -> Ending
    requires { f.left ≤ budget }
    ensures { result ≡ Stopped f.refusal f.rivals (budget - f.left) }
{
    Ending::Stopped(f.refusal, f.rivals, budget - f.left)
}
