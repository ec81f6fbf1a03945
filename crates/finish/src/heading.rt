// The head of a written image: the words read, and the counts of names and scopes reached.
ghost use Rattle.std.specs.Prelude.{◌≡◌, ℕ, ◌+◌, ◌-◌, ◌≤◌, length, take, drop};
ghost use Rattle.std.proofs.lemmas.List.Edits.{sets};
ghost use Rattle.head.specs.Fronts.{Headed};
ghost use Rattle.finish.specs.Headings.{WordsEnd, Longer, HeadLength, Fitting, PutsHead};

use head::{Front, Head};
use steps::State;

// Writes over a part of the output the same part of the image. Byte by byte: `copy_from_slice` would ask whoever links the library for
// `memmove`.
fn copy(out: &mut [u8], image: &[u8], from: usize, to: usize)
    requires { (from ≤ to) × (to ≤ length image.now) × (to ≤ length out.old) }
    ensures { out.new ≡ sets out.old from (take (to - from) (drop from image.now)) }
{
    for i in from..to {
        out[i] = image[i];
    }
}

// Where the word section ends, of an image with the front f: the two counts behind it have a known length.
fn words_end(image: &[u8], f: Front) -> usize
    requires { Headed image.now f }
    ensures { WordsEnd image.now f result }
{
    let made = f.head.names - Head::CORE_NAMES - f.head.words;
    f.end - numbers::number_len(made) - numbers::number_len(f.head.scopes)
}

// How long the head is with the counts of a later state.
pub fn head_len(image: &[u8], f: Front, t: State) -> usize
    requires { Longer image.now f t }
    ensures { HeadLength image.now f t result }
{
    let made = t.names - Head::CORE_NAMES - f.head.words;
    words_end(image, f) + numbers::number_len(made) + numbers::number_len(t.scopes)
}

// Writes the head of an image of that kind with the words of the image, and gives the place past it. The words are the image's own bytes,
// since the shortest form is the only one.
pub fn put_head(out: &mut [u8], image: &[u8], f: Front, kind: u32, t: State) -> usize
    requires { Fitting image.now f kind t out.old }
    ensures { PutsHead image.now f kind t out.old out.new result }
{
    let start = numbers::put_number(out, 0, kind);
    let behind = words_end(image, f);
    copy(out, image, start, behind);
    let made = t.names - Head::CORE_NAMES - f.head.words;
    let mid = numbers::put_number(out, behind, made);
    numbers::put_number(out, mid, t.scopes)
}
