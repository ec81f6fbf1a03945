// The words that a text has, as first met: of each its first place in the text and the place past it.
ghost use Rattle.std.specs.Prelude.{◌≡◌};
ghost use Rattle.text_reader.specs.Found.{core_named, Sought, FoundAt, Numbered, Storable, Notes};

use refusals::Refusal;
use scopes::Name;
use words::same_bytes;

// Words of an image: what the names leave.
pub const MOST_WORDS: usize = (Name::MOST - Name::CORE) as usize;

// A text with the words found in it.
#[derive(Clone, Copy)]
pub struct Words<'a> {
    pub text: &'a [u8],
    pub spans: &'a [usize],
    pub count: usize,
}

const CORE_WORDS: [&[u8]; 4] = [b"lambda", b"let-syntax", b"quote", b"syntax"];

// The place among the core words.
fn core_place(w: &[u8]) -> Option<usize>
    ensures { result ≡ core_named w.now }
{
    CORE_WORDS.iter().position(|name| same_bytes(w, name))
}

// The place of a word of the text among those found, or their count. It is compared with each: what finding a word costs.
fn found_place(words: Words, from: usize, to: usize) -> usize
    requires { Sought words.text.now words.spans.now words.count from to }
    ensures { FoundAt words.entry.text.now words.entry.spans.now words.entry.count from to result }
{
    for i in 0..words.count {
        let first = words.spans[i * 2];
        let past = words.spans[i * 2 + 1];
        if same_bytes(&words.text[from..to], &words.text[first..past]) {
            return i;
        }
    }
    words.count
}

// A word's number: its place among the core words and those found, or their count.
pub fn symbol(words: Words, from: usize, to: usize) -> u32
    requires { Sought words.text.now words.spans.now words.count from to }
    ensures { Numbered words.entry.text.now words.entry.spans.now words.entry.count from to result }
{
    if let Some(core) = core_place(&words.text[from..to]) {
        return core as u32;
    }
    Name::CORE + found_place(words, from, to) as u32
}

// How many words are found after this one, which is stored where it is new.
pub fn note(
    text: &[u8],
    spans: &mut [usize],
    count: usize,
    from: usize,
    to: usize,
) -> Result<usize, Refusal>
    requires { Storable text.now spans.old count from to }
    ensures { Notes text.now spans.old count from to spans.new result }
{
    let words = Words { text, spans, count };
    let known = symbol(words, from, to) as usize;
    if known < Name::CORE as usize + count {
        return Ok(count);
    }
    if MOST_WORDS <= count {
        return Err(Refusal::OverLimit);
    }
    spans[count * 2] = from;
    spans[count * 2 + 1] = to;
    Ok(count + 1)
}
