// The bindings that are marked: how many they are, and the scopes of their sets beside those of the root.
ghost use Rattle.std.specs.Prelude.{◌*◌, ◌≤◌, length};
ghost use Rattle.scopes.specs.Sets.{scopes_of};
ghost use Rattle.store.specs.Sizes.{binding_size};
ghost use Rattle.marking.specs.Kept.{Keeps};

use scopes::ScopeSet;
use store::bindings;

#[derive(Clone, Copy)]
pub struct Kept {
    pub count: usize,
    pub scopes: ScopeSet,
}

// There are as many bindings as marks.
pub fn gather(store: &[u64], marks: &[u8], used: ScopeSet) -> Kept
    requires { length marks.now * binding_size ≤ length store.now }
    ensures { Keeps store.now marks.now (scopes_of used) result }
{
    let mut count = 0;
    let mut scopes = used;
    for i in (0..marks.len()).rev() {
        if marks[i] != 0 {
            scopes = bindings::get(store, i).set.union(scopes);
            count += 1;
        }
    }
    Kept { count, scopes }
}
