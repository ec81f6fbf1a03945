// The smaller image: the words and names of the image, fewer scopes, the bindings that are kept, and the root.
ghost use Rattle.shrinker.specs.Job.{Writable, Makes};

use finish::heading;
use head::Head;
use image::Judgement;
use marking::kept::Kept;
use ranking::kept::put_kept;
use ranking::roots::put_root;
use steps::State;

// Writes it from the start on, and gives its length.
pub fn put_smaller(
    scratch: &mut [u8],
    image: &[u8],
    j: Judgement,
    store: &[u64],
    marks: &[u8],
    k: Kept,
    ranks: &[u32],
) -> usize
    requires { Writable image.now store.now j marks.now k ranks.now scratch.old }
    ensures { Makes image.now scratch.old scratch.new result }
{
    let head = j.front.head;
    let count = k.count as u32;
    let t = State {
        top: 0,
        left: 0,
        names: head.names,
        scopes: k.scopes.count(),
        bindings: count,
    };
    let behind = heading::put_head(scratch, image, j.front, Head::SYNTAX, t);
    let first = numbers::put_number(scratch, behind, count);
    let root = put_kept(scratch, first, store, marks, ranks);
    put_root(scratch, root, image, j.root, head.scopes, ranks)
}
