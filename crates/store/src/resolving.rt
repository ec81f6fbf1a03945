// Resolving an identifier in one pass over the store.
ghost use Rattle.std.specs.Prelude.{◌≡◌, ◌*◌, ◌≤◌, length};
ghost use Rattle.model.specs.Competing.{rivals};
ghost use Rattle.scopes.specs.Sets.{scopes_of};
ghost use Rattle.store.specs.Words.{bind_of, binds_of};
ghost use Rattle.store.specs.Pass.{seen_of, none_seen, alone, joined, beyond_all, taking, seeing, meaning};
ghost use Rattle.store.specs.Rivalry.{decision, decided, found_of};
ghost use Rattle.store.specs.Sizes.{binding_size};

use crate::bindings::Binding;
use crate::rivals::Rivals;
use crate::{bindings, rivals};
use scopes::{Name, ScopeSet, Symbol};

// How the candidates seen so far stand to each other.
#[derive(Clone, Copy)]
pub enum Standing {
    // There is none.
    Free,
    // One, with this target, contains every other: its set is the union of all.
    Clear(Name),
    // None does.
    Unclear,
}

// What a pass over the bindings keeps.
#[derive(Clone, Copy)]
pub struct Resolving {
    pub standing: Standing,
    // Of the sets of all candidates seen.
    pub union: ScopeSet,
}

impl Resolving {
    // Bindings of a job, and the words that it lends for them.
    pub const MOST: usize = 512;

    pub const STORE: usize = Resolving::MOST * Binding::WORDS;

    // No candidate is seen.
    fn start() -> Self
        ensures { seen_of result ≡ none_seen }
    {
        Resolving {
            standing: Standing::Free,
            union: ScopeSet::empty(),
        }
    }

    // With a candidate that contains every other.
    fn clear(b: Binding) -> Self
        ensures { seen_of result ≡ alone (bind_of b) }
    {
        Resolving {
            standing: Standing::Clear(b.target),
            union: b.set,
        }
    }

    // With a candidate that neither contains the others nor is contained in one that does.
    fn unclear(union: ScopeSet, b: Binding) -> Self
        ensures { seen_of result ≡ joined (scopes_of union) (bind_of b) }
    {
        Resolving {
            standing: Standing::Unclear,
            union: union.union(b.set),
        }
    }

    // With a candidate that is not contained in the union so far: it contains every other, or none does.
    fn beyond(union: ScopeSet, b: Binding) -> Self
        ensures { seen_of result ≡ beyond_all (scopes_of union) (bind_of b) }
    {
        if union.within(b.set) {
            Resolving::clear(b)
        } else {
            Resolving::unclear(union, b)
        }
    }

    // One more candidate is seen.
    fn take(self, b: Binding) -> Self
        ensures { seen_of result ≡ taking (seen_of self) (bind_of b) }
    {
        match self.standing {
            Standing::Free => Resolving::clear(b),
            Standing::Clear(_) if b.set.within(self.union) => self,
            Standing::Clear(_) | Standing::Unclear => Resolving::beyond(self.union, b),
        }
    }

    // One more binding is seen: it counts where it is a candidate for symbol x with set s.
    fn see(self, b: Binding, x: Symbol, s: ScopeSet) -> Self
        ensures { seen_of result ≡ seeing x.0 (scopes_of s) (seen_of self) (bind_of b) }
    {
        if b.is_candidate(x, s) {
            self.take(b)
        } else {
            self
        }
    }

    // A name, or several candidates none of which contains every other: the two that compete. No candidate: the name is the symbol itself.
    fn found(self, store: &[u64], count: u32, x: Symbol, s: ScopeSet) -> Result<Name, Rivals>
        requires { count * binding_size ≤ length store.now }
        ensures { found_of result ≡ decision (rivals x.0 (scopes_of s) (binds_of store.now count)) (meaning x.0 (seen_of self)) }
    {
        match self.standing {
            Standing::Free => Ok(Name(x.0)),
            Standing::Clear(target) => Ok(target),
            Standing::Unclear => Err(rivals::first_two(store, count, x, s)),
        }
    }
}

// The name of the identifier with symbol x and set s, by the first count bindings of the store; or the two candidates that compete.
pub fn resolve(store: &[u64], count: u32, x: Symbol, s: ScopeSet) -> Result<Name, Rivals>
    requires { count * binding_size ≤ length store.now }
    ensures { found_of result ≡ decided x.0 (scopes_of s) (binds_of store.now count) }
{
    let mut seen = Resolving::start();
    for i in 0..count as usize {
        seen = seen.see(bindings::get(store, i), x, s);
    }
    seen.found(store, count, x, s)
}
