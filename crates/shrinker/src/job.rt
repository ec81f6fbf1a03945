// The job, with neither phase nor budget nor table.
ghost use Rattle.std.specs.Prelude.{◌≤◌, length};
ghost use Rattle.numbers.specs.Limits.{most_image};
ghost use Rattle.store.specs.Sizes.{store_size};
ghost use Rattle.shrinking.specs.Shrunk.{smaller};
ghost use Rattle.shrinker.specs.Using.{Held};
ghost use Rattle.shrinker.specs.Job.{Begun, Roomy, Makes, Shrinks, Fits};

use crate::{using, writing};
use finish::Ending;
use image::Judgement;
use ranking::ranks;
use refusals::Refusal;
use scopes::{Name, Scope};
use store::resolving::Resolving;

const MOST_IMAGE: usize = numbers::Cursor::MOST_IMAGE;

const NAMES: usize = Name::MOST as usize;

// A place for each scope, and for none.
const RANKS: usize = Scope::MOST as usize + 1;

// Code 20, or the bytes at the start of the output.
fn finish_with(out: &mut [u8], bytes: &[u8]) -> Ending
    requires { length bytes.now ≤ most_image }
    ensures { Fits bytes.now out.old out.new result }
{
    if out.len() < bytes.len() {
        return Ending::Refused(Refusal::TooLong, 0);
    }
    out[..bytes.len()].copy_from_slice(bytes);
    Ending::Written(bytes.len(), 0)
}

// With places for chains and marks.
fn make_with(
    scratch: &mut [u8],
    image: &[u8],
    j: Judgement,
    store: &[u64],
    lasts: &mut [usize],
    befores: &mut [usize],
    marks: &mut [u8],
) -> usize
    requires { Begun image.now store.now j lasts.old befores.old marks.old scratch.old }
    ensures { Makes image.now scratch.old scratch.new result }
{
    let k = using::use_of(image, j, store, lasts, befores, marks);
    let mut numbers = [0u32; RANKS];
    ranks::fill(k.scopes, &mut numbers);
    writing::put_smaller(scratch, image, j, store, marks, k, &numbers)
}

// The smaller image of one without fault, whose bindings are in the store.
fn make(scratch: &mut [u8], image: &[u8], j: Judgement, store: &[u64]) -> usize
    requires { Roomy image.now store.now j scratch.old }
    ensures { Makes image.now scratch.old scratch.new result }
{
    let count = j.bindings as usize;
    let mut lasts = [0usize; NAMES];
    let mut befores = [0usize; Resolving::MOST];
    let mut marks = [0u8; Resolving::MOST];
    make_with(
        scratch,
        image,
        j,
        store,
        &mut lasts,
        &mut befores[..count],
        &mut marks[..count],
    )
}

fn shrink_good(image: &[u8], j: Judgement, store: &[u64], out: &mut [u8]) -> Ending
    requires { Held image.now store.now j }
    ensures { Fits (smaller image.now) out.old out.new result }
{
    let mut scratch = [0u8; MOST_IMAGE];
    let len = make(&mut scratch, image, j, store);
    finish_with(out, &scratch[..len])
}

// With room for bindings.
fn shrink_with(image: &[u8], store: &mut [u64], out: &mut [u8]) -> Ending
    requires { store_size ≤ length store.old }
    ensures { Shrinks image.now out.old out.new result }
{
    match image::judge_syntax(image, store) {
        Ok(j) => shrink_good(image, j, store, out),
        Err(f) => Ending::Refused(f, 0),
    }
}

// The image without the bindings that no identifier of it uses and the scopes that then are in no set, into `out`.
pub fn shrink_image(image: &[u8], out: &mut [u8]) -> Ending
    ensures { Shrinks image.now out.old out.new result }
{
    let mut store = [0u64; Resolving::STORE];
    shrink_with(image, &mut store, out)
}
