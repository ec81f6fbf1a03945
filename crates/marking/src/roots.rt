// The root, piece by piece: its identifiers mark bindings, and the scopes of all its sets are gathered.
ghost use Rattle.std.specs.Prelude.{◌≡◌};
ghost use Rattle.scopes.specs.Sets.{scopes_of};
ghost use Rattle.things.specs.Rep.{sets_of};
ghost use Rattle.shrinking.specs.Shrunk.{joined};
ghost use Rattle.marking.specs.Roots.{RootMarkable, MarksRoot};

use crate::marks;
use scopes::ScopeSet;
use table::Sets;

const SYMBOL: u32 = 0;

// The scopes of all three phases.
#[tactic(auto, unfolding(shrinking::specs::Shrunk::joined))]
fn all_scopes(sets: Sets) -> ScopeSet
    ensures { scopes_of result ≡ joined (sets_of sets) }
{
    sets.at0.union(sets.at1.union(sets.at2))
}

// Marks the bindings that the root uses, and gives its scopes. The root begins at `root` and ends the image. A while, here and in
// ranking::roots: a piece's length is known when it is read.
pub fn mark_root(
    image: &[u8],
    root: usize,
    scopes: u32,
    store: &[u64],
    lasts: &[usize],
    befores: &[usize],
    marks: &mut [u8],
) -> ScopeSet
    requires { RootMarkable store.now image.now scopes root lasts.now befores.now marks.old }
    ensures { MarksRoot store.now image.now marks.old marks.new result }
{
    let mut at = root;
    let mut used = ScopeSet::empty();
    while at < image.len() {
        let x = builder::read_front(image, at, scopes);
        at = x.past;
        used = used.union(all_scopes(x.sets));
        if x.tag == SYMBOL {
            marks::mark(store, lasts, befores, marks, x.number, x.sets);
        }
    }
    used
}
