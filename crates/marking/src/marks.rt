// The bindings that an identifier uses: those of its symbol whose set one of its sets contains.
ghost use Rattle.std.specs.Prelude.{◌≡◌};
ghost use Rattle.scopes.specs.Sets.{scopes_of};
ghost use Rattle.things.specs.Rep.{sets_of};
ghost use Rattle.shrinking.specs.Shrunk.{contains};
ghost use Rattle.marking.specs.Marks.{Identifies, Marks};

use scopes::ScopeSet;
use store::bindings;
use table::Sets;

// At some phase.
#[tactic(auto, unfolding(shrinking::specs::Shrunk::contains))]
fn contained(set: ScopeSet, sets: Sets) -> bool
    ensures { result ≡ contains (scopes_of set) (sets_of sets) }
{
    set.within(sets.at0) || set.within(sets.at1) || set.within(sets.at2)
}

// Marks the bindings of the identifier with symbol x.
pub fn mark(store: &[u64], lasts: &[usize], befores: &[usize], marks: &mut [u8], x: u32, sets: Sets)
    requires { Identifies store.now lasts.now befores.now marks.old x }
    ensures { Marks store.now x (sets_of sets) marks.old marks.new }
{
    let mut place = lasts[x as usize];
    while 0 < place {
        let i = place - 1;
        place = befores[i];
        if contained(bindings::get(store, i).set, sets) {
            marks[i] = 1;
        }
    }
}
