// The words of an image: where each begins in its word section, with its length in one byte.
ghost use Rattle.std.specs.Prelude.{◌≡◌, [], ◌≤◌, length, get_or};
ghost use Rattle.text.specs.Placing.{Placed};
ghost use Rattle.text_printer.specs.Spelling.{Spellable, spelling, RoomFor, WordsHere, FindsWords};

use scopes::Name;
use text::put_text;

const CORE: u32 = Name::CORE;

// An image, and where in it each of its words begins.
#[derive(Clone, Copy)]
pub struct Words<'a> {
    pub image: &'a [u8],
    pub starts: &'a [usize],
    pub count: usize,
}

// The word of a symbol.
fn word<'a>(words: Words<'a>, x: u32) -> &'a [u8]
    requires { Spellable words.image.now words.starts.now words.count x }
    ensures is { result.now ≡ get_or (spelling words.entry.image.now words.entry.starts.now words.entry.count) x [] }
    ensures few { length result.now ≤ 32 }
{
    match x {
        0 => b"lambda",
        1 => b"let-syntax",
        2 => b"quote",
        3 => b"syntax",
        _ => {
            let start = words.starts[(x - CORE) as usize];
            let from = start + 1;
            let to = from + words.image[start] as usize;
            &words.image[from..to]
        }
    }
}

// How long the word of a symbol is.
pub fn symbol_len(words: Words, x: u32) -> usize
    requires { Spellable words.image.now words.starts.now words.count x }
    ensures is { result ≡ length (get_or (spelling words.entry.image.now words.entry.starts.now words.entry.count) x []) }
    ensures few { result ≤ 32 }
{
    word(words, x).len()
}

pub fn put_symbol(out: &mut [u8], at: usize, words: Words, x: u32) -> usize
    requires { RoomFor out.old at words.image.now words.starts.now words.count x }
    ensures { Placed out.old at (get_or (spelling words.entry.image.now words.entry.starts.now words.entry.count) x []) out.new result }
{
    put_text(out, at, word(words, x))
}

// Where each word begins, from the place where the first does.
pub fn find_words(image: &[u8], first: usize, count: usize, starts: &mut [usize])
    requires { WordsHere image.now first count starts.old }
    ensures { FindsWords image.now first count starts.old starts.new }
{
    let mut at = first;
    for i in 0..count {
        starts[i] = at;
        at += 1 + image[at] as usize;
    }
}
