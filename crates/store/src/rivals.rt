// Who competes (document 02, T-04): the first two candidates that no other candidate contains. Asked only where resolving is ambiguous, which
// ends the job; so each candidate is held against all others.
ghost use Rattle.std.specs.Prelude.{◌≡◌, ◌&&◌, ◌*◌, ◌≤◌, length};
ghost use Rattle.model.specs.Resolving.{candidate, candidates};
ghost use Rattle.model.specs.Competing as model;
ghost use Rattle.scopes.specs.Sets.{scopes_of};
ghost use Rattle.store.specs.Words.{bind_of, binds_of};
ghost use Rattle.store.specs.Rivalry.{rivals_of, NextRival};
ghost use Rattle.store.specs.Sizes.{binding_size};

use crate::bindings;
use crate::bindings::Binding;
use scopes::{ScopeSet, Symbol};

// The places of two bindings in the order of an image, counted from 1; both 0 where none compete.
#[derive(Clone, Copy)]
pub struct Rivals {
    pub first: u32,
    pub second: u32,
}

impl Rivals {
    pub fn none() -> Self
        ensures { rivals_of result ≡ model.no_rivals }
    {
        Rivals {
            first: 0,
            second: 0,
        }
    }
}

// Whether c contains b, and is another.
fn contains(c: Binding, b: Binding) -> bool
    ensures { result ≡ model.contained (bind_of b) (bind_of c) }
{
    b.set.within(c.set) && !c.set.within(b.set)
}

// Whether c is a candidate for symbol x with set s that contains b, and another.
fn outdoes(c: Binding, b: Binding, x: Symbol, s: ScopeSet) -> bool
    ensures { result ≡ (candidate x.0 (scopes_of s) (bind_of c) && model.contained (bind_of b) (bind_of c)) }
{
    c.is_candidate(x, s) && contains(c, b)
}

// Whether no other candidate among the first count bindings contains b.
fn is_uncontained(store: &[u64], count: u32, b: Binding, x: Symbol, s: ScopeSet) -> bool
    requires { count * binding_size ≤ length store.now }
    ensures { result ≡ model.uncontained (bind_of b) (candidates x.0 (scopes_of s) (binds_of store.now count)) }
{
    for i in 0..count as usize {
        if outdoes(bindings::get(store, i), b, x, s) {
            return false;
        }
    }
    true
}

fn competes(store: &[u64], count: u32, b: Binding, x: Symbol, s: ScopeSet) -> bool
    requires { count * binding_size ≤ length store.now }
    ensures { result ≡ model.competes x.0 (scopes_of s) (binds_of store.now count) (bind_of b) }
{
    b.is_candidate(x, s) && is_uncontained(store, count, b, x, s)
}

// The place of the first binding that competes behind the first `past` bindings.
fn next_rival(store: &[u64], count: u32, past: u32, x: Symbol, s: ScopeSet) -> Option<u32>
    requires { (count * binding_size ≤ length store.now) × (past ≤ count) }
    ensures { NextRival x.0 (scopes_of s) store.now count past result }
{
    for i in past..count {
        if competes(store, count, bindings::get(store, i as usize), x, s) {
            return Some(i + 1);
        }
    }
    None
}

// The first two that compete for symbol x with set s, by the first count bindings of the store.
pub fn first_two(store: &[u64], count: u32, x: Symbol, s: ScopeSet) -> Rivals
    requires { count * binding_size ≤ length store.now }
    ensures { rivals_of result ≡ model.rivals x.0 (scopes_of s) (binds_of store.now count) }
{
    let Some(first) = next_rival(store, count, 0, x, s) else {
        return Rivals::none();
    };
    let Some(second) = next_rival(store, count, first, x, s) else {
        return Rivals::none();
    };
    Rivals { first, second }
}
