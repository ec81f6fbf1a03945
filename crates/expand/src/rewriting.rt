// Document 01, 'Expanding': what a macro's value makes of a form, and what a form leaves to be expanded in its place.
ghost use Rattle.std.specs.Prelude.{◌≤◌, length};
ghost use Rattle.scopes.specs.Sets.{Declared};
ghost use Rattle.store.specs.Sizes.{held_size};
ghost use Rattle.steps.specs.States.{Held};
ghost use Rattle.scoping.specs.Changing.{ReadyObject};
ghost use Rattle.expand.specs.Leaves.{UsesScope, MarksUse, ReadyBack, Backs};
ghost use Rattle.expand.specs.InPlace.{ReadyScoped, Scoped};

use crate::Surroundings;
use refusals::Refusal;
use scopes::Scope;
use scoping::{Binder, Mark};
use steps::{Out, State, Stop};
use store::carried;
use store::carried::Carried;
use table::Node;

// ---- a macro's use

// From here on k is prunable in the expansion in progress, and one of its use scopes.
#[tactic(auto, using(crate::proofs::Marking::laws))]
fn use_scope(store: &mut [u64], k: Scope)
    requires { (held_size ≤ length store.old) × Declared k }
    ensures { UsesScope k.0 store.old store.new }
{
    let now = carried::get(store);
    carried::put(
        store,
        Carried {
            prunable: now.prunable.add(k),
            uses: now.uses.add(k),
        },
    );
}

// Its form i, marked by two fresh scopes, the first of which is its use scope.
#[tactic(auto, using(crate::proofs::Marking::laws))]
pub fn marked(
    table: &mut [u32],
    store: &mut [u64],
    s: State,
    i: u32,
    phase: u32,
) -> Result<Mark, Stop>
    requires { ReadyObject table.old s i × Held store.old s }
    ensures { MarksUse phase store.old store.new table.old table.new s i result }
{
    let m = scoping::mark_form(table, s, i, phase)?;
    use_scope(store, m.uses);
    Ok(m)
}

// What a macro's use evaluated to, with the introduction scope flipped again.
#[tactic(auto, using(crate::proofs::Leaves::laws))]
pub fn back(table: &mut [u32], s: State, i: u32, phase: u32, intro: Scope) -> Result<Out, Stop>
    requires { ReadyBack table.old s i × Declared intro }
    ensures { Backs phase intro.0 table.old table.new s i result }
{
    if Node::LIST < table::get_node(table, i).tag {
        return s.refuse(Refusal::NoSyntax);
    }
    scoping::flip_in(table, s, i, phase, intro)
}

// ---- what is expanded next

// The body that a form leaves to be expanded in its place: where it lies, the scope that is prunable in it, and the meanings there.
#[derive(Clone, Copy)]
pub struct Next {
    pub at: u32,
    pub scope: Scope,
    pub meanings: u32,
    pub state: State,
}

// The body with the binder's scope added, and the binder's name meaning the thing.
#[tactic(auto, using(crate::proofs::InPlace::laws))]
pub fn scoped(
    table: &mut [u32],
    s: State,
    b: Binder,
    kind: u32,
    thing: u32,
    body: u32,
    at: Surroundings,
) -> Result<Next, Stop>
    requires { ReadyScoped table.old s b kind thing body at }
    ensures { Scoped at table.old table.new s b kind thing body result }
{
    let o = scoping::add_to(table, s, body, at.phase, b.scope)?;
    let m = environment::extend(table, o.state.top, b.name, kind, thing, at.meanings);
    Ok(Next {
        at: o.at,
        scope: b.scope,
        meanings: m.at,
        state: o.state.raised(m.top),
    })
}
