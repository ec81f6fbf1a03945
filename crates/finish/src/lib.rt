// The last step of a job that writes: the result's length is known before the first byte is stored, so that a refusal leaves the output
// untouched.
#![tactic(auto)]

pub mod heading;

ghost use Rattle.std.specs.Prelude.{◌≡◌, ℕ, ◌+◌, ◌≤◌, min};
ghost use Rattle.steps.specs.States.{Held};
ghost use Rattle.store.specs.Words.{binds_of};
ghost use Rattle.finish.specs.Finishing.{tree_images, syntax_images, syntax_front, Came, Fits, PutsImage, Finishes, FrontReady, FrontLength};
ghost use Rattle.numbers.specs.Limits.{most_image};

use head::{Front, Head};
use refusals::Refusal;
use scopes::Name;
use steps::{Out, State};
use store::rivals::Rivals;

// How a job ends, each after so many units: refused before the work or behind it, stopped in the work, with the bindings that compete where
// that is code 6, a name, or an image of so many bytes.
#[derive(Clone, Copy)]
pub enum Ending {
    Refused(Refusal, u32),
    Stopped(Refusal, Rivals, u32),
    Named(Name, u32),
    Written(usize, u32),
}

const MOST_IMAGE: usize = numbers::Cursor::MOST_IMAGE;

// What an output of so many bytes may take.
fn most_for(room: usize) -> usize
    ensures { result ≡ min most_image room }
{
    room.min(MOST_IMAGE)
}

// The length n, one over the cap for all that is longer.
fn capped(n: usize, cap: usize) -> usize
    requires { cap ≤ most_image }
    ensures { result ≡ min (cap + 1) n }
{
    n.min(cap + 1)
}

// ---- a tree image

fn put_tree_image(out: &mut [u8], image: &[u8], f: Front, table: &[u32], o: Out)
    requires { Fits tree_images image.now f table.now o out.old }
    ensures { PutsImage tree_images image.now f table.now o out.old out.new }
{
    let root = heading::put_head(out, image, f, Head::TREE, o.state);
    writer::put_tree(out, root, table, o.at);
}

// The image of the tree that the work came to, with the words of the image that was read, whose front is f.
pub fn finish_tree(
    out: &mut [u8],
    image: &[u8],
    f: Front,
    table: &[u32],
    o: Out,
    budget: u32,
) -> Ending
    requires came { Came tree_images image.now f table.now o }
    requires within { o.state.left ≤ budget }
    ensures { Finishes tree_images image.now f table.now o budget out.old out.new result }
{
    let units = budget - o.state.left;
    let cap = most_for(out.len());
    let front = capped(heading::head_len(image, f, o.state), cap);
    let n = writer::tree_len(table, o.at, front, cap);
    if cap < n {
        return Ending::Refused(Refusal::TooLong, units);
    }
    put_tree_image(out, image, f, table, o);
    Ending::Written(n, units)
}

// ---- a syntax image

// How long the image is before its root.
fn before_root(image: &[u8], f: Front, store: &[u64], t: State) -> usize
    requires { FrontReady image.now f store.now t }
    ensures { FrontLength (syntax_front (binds_of store.now t.bindings)) image.now f t result }
{
    let head = heading::head_len(image, f, t);
    let count = t.bindings;
    let all = bindings::storing::bindings_len(store, count as usize);
    head + numbers::number_len(count) + all
}

fn put_syntax_image(out: &mut [u8], image: &[u8], f: Front, store: &[u64], table: &[u32], o: Out)
    requires held { Held store.now o.state }
    requires fits { Fits (syntax_images (binds_of store.now o.state.bindings)) image.now f table.now o out.old }
    ensures { PutsImage (syntax_images (binds_of store.now o.state.bindings)) image.now f table.now o out.old out.new }
{
    let count = o.state.bindings;
    let behind = heading::put_head(out, image, f, Head::SYNTAX, o.state);
    let first = numbers::put_number(out, behind, count);
    let root = bindings::storing::put_bindings(out, first, store, count as usize);
    writer::put_object(out, root, table, o.at);
}

// The image of the object that the work came to and of all bindings.
pub fn finish_syntax(
    out: &mut [u8],
    image: &[u8],
    f: Front,
    store: &[u64],
    table: &[u32],
    o: Out,
    budget: u32,
) -> Ending
    requires came { Came (syntax_images (binds_of store.now o.state.bindings)) image.now f table.now o }
    requires held { Held store.now o.state }
    requires within { o.state.left ≤ budget }
    ensures { Finishes (syntax_images (binds_of store.now o.state.bindings)) image.now f table.now o budget out.old out.new result }
{
    let units = budget - o.state.left;
    let cap = most_for(out.len());
    let front = capped(before_root(image, f, store, o.state), cap);
    let n = writer::object_len(table, o.at, front, cap);
    if cap < n {
        return Ending::Refused(Refusal::TooLong, units);
    }
    put_syntax_image(out, image, f, store, table, o);
    Ending::Written(n, units)
}
