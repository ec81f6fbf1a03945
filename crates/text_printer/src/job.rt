// The job: a syntax image to text in lent bytes, or nothing.
ghost use Rattle.std.specs.Prelude.{◌≡◌, ◌≤◌, length};
ghost use Rattle.store.specs.Sizes.{store_size};
ghost use Rattle.text_printer.specs.Walking.{most_open};
ghost use Rattle.text_printer.specs.Printing.{Ready};
ghost use Rattle.text_printer.specs.Job.{GoodRoom, Writes, Prints};

use crate::spelling::Words;
use crate::{measuring, spelling, writing};
use image::Judgement;
use numbers::number_len;
use refusals::Refusal;
use scopes::Name;
use store::resolving::Resolving;
use text_endings::{TextRefusal, Written};

// Lists that can be open: one around the root, and 64 levels.
const MOST_OPEN: usize = numbers::Cursor::MOST_NESTING as usize + 1;

const MOST_WORDS: usize = (Name::MOST - Name::CORE) as usize;

// Code 20, or the text.
fn write_text(words: Words, left: &mut [u32], root: usize, out: &mut [u8]) -> Written
    requires { Ready words.image.now words.starts.now words.count root × (length left.old ≡ most_open) }
    ensures { Writes words.entry.image.now out.old out.new result }
{
    let room = text_endings::room_in(out.len());
    let len = measuring::text_len(words, left, root, room);
    if room < len {
        return Err(TextRefusal::Base(Refusal::TooLong));
    }
    writing::put_all(out, words, left, root);
    Ok(len as u32)
}

// An image without fault: its words are found behind its kind and their count.
fn print_good(
    image: &[u8],
    j: Judgement,
    starts: &mut [usize],
    left: &mut [u32],
    out: &mut [u8],
) -> Written
    requires { GoodRoom image.now j starts.old left.old }
    ensures { Writes image.now out.old out.new result }
{
    let count = j.front.head.words as usize;
    spelling::find_words(image, 1 + number_len(j.front.head.words), count, starts);
    let words = Words {
        image,
        starts,
        count,
    };
    write_text(words, left, j.root, out)
}

// With room for bindings, places of words, and counts.
fn print_with(
    image: &[u8],
    store: &mut [u64],
    starts: &mut [usize],
    left: &mut [u32],
    out: &mut [u8],
) -> Written
    requires { (store_size ≤ length store.old) × (1020 ≤ length starts.old) × (length left.old ≡ most_open) }
    ensures { Prints image.now out.old out.new result }
{
    let j = image::judge_syntax(image, store)?;
    print_good(image, j, starts, left, out)
}

// The text of a syntax image.
pub fn print_image(image: &[u8], out: &mut [u8]) -> Written
    ensures { Prints image.now out.old out.new result }
{
    let mut store = [0u64; Resolving::STORE];
    let mut starts = [0usize; MOST_WORDS];
    let mut left = [0u32; MOST_OPEN];
    print_with(image, &mut store, &mut starts, &mut left, out)
}
