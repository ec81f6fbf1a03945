// Document 01, 'Expanding': scopes added, flipped and pruned at a charge, fresh names and scopes, and what a binder and a macro's use do
// with them.
#![tactic(auto)]

ghost use Rattle.std.specs.Prelude.{◌≡◌, ℕ, ◌+◌, ◌≤◌, ◌<◌, length};
ghost use Rattle.model.specs.Objects.{add_scope, flip_scope, prune_scopes};
ghost use Rattle.parse.specs.Parsing.{unpaid};
ghost use Rattle.scopes.specs.Sets.{scopes_of, Declared};
ghost use Rattle.things.specs.Measuring.{Seen};
ghost use Rattle.scoping.specs.Changing.{ReadyObject, Changes};
ghost use Rattle.copying.specs.Copying.{Copyable};
ghost use Rattle.scoping.specs.Fresh.{fresh_scope_of, Takes, Puts, PutsBinder, Keys, Added, ReadyBinder, Binds, BindsFresh, Marks, MarksFresh};
ghost use Rattle.store.specs.Sizes.{held_size, most_bindings};

use refusals::Refusal;
use scopes::{Name, Scope, ScopeSet, Symbol};
use steps::{Out, State, Stop};
use store::bindings;
use store::bindings::Binding;
use store::resolving::Resolving;
use things::Made;

// ---- changes of scopes, charged the object's size. One function with the change as a closure is no plainer: each is the one call between
// the charge and the answer.

pub fn add_to(table: &mut [u32], s: State, i: u32, phase: u32, k: Scope) -> Result<Out, Stop>
    requires { ReadyObject table.old s i × Declared k }
    ensures { Changes (add_scope k.0 phase) table.old table.new s i result }
{
    let t = s.charge(things::measure(table, i).weight)?;
    let m = copying::add_scope(table, t.top, i, phase, k);
    Ok(Out {
        at: m.at,
        state: t.raised(m.top),
    })
}

pub fn flip_in(table: &mut [u32], s: State, i: u32, phase: u32, k: Scope) -> Result<Out, Stop>
    requires { ReadyObject table.old s i × Declared k }
    ensures { Changes (flip_scope k.0 phase) table.old table.new s i result }
{
    let t = s.charge(things::measure(table, i).weight)?;
    let m = copying::flip_scope(table, t.top, i, phase, k);
    Ok(Out {
        at: m.at,
        state: t.raised(m.top),
    })
}

pub fn prune_from(
    table: &mut [u32],
    s: State,
    i: u32,
    phase: u32,
    prunable: ScopeSet,
) -> Result<Out, Stop>
    requires { ReadyObject table.old s i }
    ensures { Changes (prune_scopes (scopes_of prunable) phase) table.old table.new s i result }
{
    let t = s.charge(things::measure(table, i).weight)?;
    let m = copying::prune_scopes(table, t.top, i, phase, prunable);
    Ok(Out {
        at: m.at,
        state: t.raised(m.top),
    })
}

// ---- a binder

// What a binder became, and the state after it is bound.
#[derive(Clone, Copy)]
pub struct Binder {
    pub name: Name,
    pub scope: Scope,
    pub at: u32,
    pub state: State,
}

// The next name and the next scope, and the charge for the binder: the state's last name and scope are then those.
fn take(s: State) -> Result<State, Stop>
    requires { s.bindings ≤ most_bindings }
    ensures { Takes s result }
{
    if Name::MOST <= s.names {
        return Err(s.stop(Refusal::NoNameLeft));
    }
    if Scope::MOST <= s.scopes {
        return Err(s.stop(Refusal::NoScopeLeft));
    }
    let t = State {
        names: s.names + 1,
        scopes: s.scopes + 1,
        ..s
    };
    t.charge(1)
}

// The binding of the identifier i to a name at a phase.
fn key(table: &[u32], i: u32, name: Name, phase: u32) -> Binding
    requires { Seen table.now i }
    ensures { Keys table.now i name.0 phase result }
{
    let n = table::get_node(table, i);
    let set = forms::set_at(table::get_sets(table, i), phase);
    Binding {
        symbol: Symbol(n.content),
        target: name,
        set,
    }
}

fn put(store: &mut [u64], s: State, b: Binding) -> Result<State, Stop>
    requires { (s.bindings ≤ most_bindings) × (held_size ≤ length store.old) }
    ensures { Puts store.old store.new s b result }
{
    if Resolving::MOST as u32 <= s.bindings {
        return Err(s.stop(Refusal::NoBindingLeft));
    }
    bindings::insert(store, s.bindings as usize, b);
    Ok(State {
        bindings: s.bindings + 1,
        ..s
    })
}

// The same with the binder, which lies at the index.
fn put_binder(
    store: &mut [u64],
    s: State,
    b: Binding,
    name: Name,
    scope: Scope,
    at: u32,
) -> Result<Binder, Stop>
    requires { (s.bindings ≤ most_bindings) × (held_size ≤ length store.old) }
    ensures { PutsBinder name scope at store.old store.new s b result }
{
    let state = put(store, s, b)?;
    Ok(Binder {
        name,
        scope,
        at,
        state,
    })
}

fn with_scope(table: &mut [u32], top: u32, i: u32, phase: u32, k: Scope) -> Made
    requires { Copyable table.old top i × Declared k }
    ensures { Added phase k.0 table.old table.new top i result.at result.top }
{
    copying::add_scope(table, top, i, phase, k)
}

// The scope is added to the identifier, which is bound to the name.
fn bind(
    table: &mut [u32],
    store: &mut [u64],
    s: State,
    name: Name,
    scope: Scope,
    id: u32,
    phase: u32,
) -> Result<Binder, Stop>
    requires { ReadyBinder table.old store.old (unpaid s) id × Declared scope × (name.0 < 1024) }
    ensures { Binds phase store.old store.new table.old table.new s name.0 scope.0 id result }
{
    let m = with_scope(table, s.top, id, phase, scope);
    let b = key(table, m.at, name, phase);
    let t = s.raised(m.top);
    put_binder(store, t, b, name, scope, m.at)
}

pub fn bind_fresh(
    table: &mut [u32],
    store: &mut [u64],
    s: State,
    id: u32,
    phase: u32,
) -> Result<Binder, Stop>
    requires { ReadyBinder table.old store.old s id }
    ensures { BindsFresh phase store.old store.new table.old table.new s id result }
{
    let name = Name(s.names);
    let t = take(s)?;
    bind(table, store, t, name, Scope(t.scopes), id, phase)
}

// ---- a macro's use

// The form with the use scope added, which is prunable in what the macro makes of it, and the introduction scope flipped, which is flipped
// again there.
#[derive(Clone, Copy)]
pub struct Mark {
    pub at: u32,
    pub uses: Scope,
    pub intro: Scope,
    pub state: State,
}

fn fresh_scope(s: State) -> Result<State, Stop>
    ensures { result ≡ fresh_scope_of s }
{
    if Scope::MOST <= s.scopes {
        return Err(s.stop(Refusal::NoScopeLeft));
    }
    Ok(State {
        scopes: s.scopes + 1,
        ..s
    })
}

// With the scopes that were taken.
fn mark_by(
    table: &mut [u32],
    s: State,
    form: u32,
    phase: u32,
    uses: Scope,
    intro: Scope,
) -> Result<Mark, Stop>
    requires { ReadyObject table.old s form × Declared uses × Declared intro }
    ensures { Marks phase uses.0 intro.0 table.old table.new s form result }
{
    let o = add_to(table, s, form, phase, uses)?;
    let p = flip_in(table, o.state, o.at, phase, intro)?;
    Ok(Mark {
        at: p.at,
        uses,
        intro,
        state: p.state,
    })
}

pub fn mark_form(table: &mut [u32], s: State, form: u32, phase: u32) -> Result<Mark, Stop>
    requires { ReadyObject table.old s form }
    ensures { MarksFresh phase table.old table.new s form result }
{
    let t = fresh_scope(s)?;
    let u = fresh_scope(t)?;
    mark_by(table, u, form, phase, Scope(t.scopes), Scope(u.scopes))
}
