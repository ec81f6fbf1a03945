// The prunable set and the use scopes of the expansion in progress (source document 000), kept behind the bindings.
ghost use Rattle.std.specs.Prelude.{◌≡◌, ◌≤◌, length};
ghost use Rattle.scopes.specs.Sets.{scopes_of};
ghost use Rattle.store.specs.Words.{prunable_of, uses_of, Carries};
ghost use Rattle.store.specs.Sizes.{held_size};

use crate::resolving::Resolving;
use crate::sets;
use scopes::ScopeSet;

#[derive(Clone, Copy)]
pub struct Carried {
    pub prunable: ScopeSet,
    pub uses: ScopeSet,
}

// The words that a job lends for its bindings and both sets.
pub const HELD: usize = Resolving::STORE + 2 * ScopeSet::WORDS;

pub fn get(store: &[u64]) -> Carried
    requires { held_size ≤ length store.now }
    ensures { (scopes_of result.prunable ≡ prunable_of store.now) × (scopes_of result.uses ≡ uses_of store.now) }
{
    Carried {
        prunable: sets::get_set(store, Resolving::STORE),
        uses: sets::get_set(store, Resolving::STORE + ScopeSet::WORDS),
    }
}

pub fn put(store: &mut [u64], c: Carried)
    requires { held_size ≤ length store.old }
    ensures { Carries (scopes_of c.prunable) (scopes_of c.uses) store.old store.new }
{
    sets::put_set(store, Resolving::STORE, c.prunable);
    sets::put_set(store, Resolving::STORE + ScopeSet::WORDS, c.uses);
}
