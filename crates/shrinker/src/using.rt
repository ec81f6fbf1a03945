// What of a judged image is used.
ghost use Rattle.shrinker.specs.Using.{Unused, Uses};

use image::Judgement;
use marking::kept::Kept;
use marking::roots::mark_root;
use marking::{chains, kept};

// The bindings that are kept are marked, and the scopes that remain are gathered.
pub fn use_of(
    image: &[u8],
    j: Judgement,
    store: &[u64],
    lasts: &mut [usize],
    befores: &mut [usize],
    marks: &mut [u8],
) -> Kept
    requires { Unused image.now store.now j lasts.old befores.old marks.old }
    ensures { Uses image.now store.now marks.old marks.new result }
{
    chains::chain(store, lasts, befores);
    let scopes = j.front.head.scopes;
    let used = mark_root(image, j.root, scopes, store, lasts, befores, marks);
    kept::gather(store, marks, used)
}
