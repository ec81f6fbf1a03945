// How long the image will be, as far as it matters. No one walk with `writing`: this one adds lengths and stops past `most`, that one has room.
ghost use Rattle.std.specs.Prelude.{◌≤◌};
ghost use Rattle.numbers.specs.Limits.{most_image};
ghost use Rattle.text_reader.specs.Found.{Spans};
ghost use Rattle.text_reader.specs.Items.{Sound, root_from};
ghost use Rattle.text_reader.specs.Writing.{image_from};
ghost use Rattle.text_endings.specs.Ending.{Measured};
ghost use Rattle.text_reader.specs.Measuring.{WordsLong, HeadLong};

use crate::found::Words;
use crate::items;
use crate::items::Item;
use numbers::{Cursor, number_len};

// Tag and three empty sets are a byte each.
const BEFORE_CONTENT: usize = 4;

// The root's length, or some number over `most` where it is longer.
fn root_len(words: Words, most: usize) -> usize
    requires { Sound words.text.now words.spans.now words.count 0 × (most ≤ most_image) }
    ensures measured { Measured (root_from words.entry.text.now words.entry.spans.now words.entry.count 0) most result }
    ensures few { result ≤ 65545 }
{
    let mut at = 0;
    let mut len = 0;
    while len <= most {
        let Some((item, past)) = items::read_item(words, at) else {
            return len;
        };
        match item {
            Item::Nothing => {}
            Item::Thing(_, content) => len += BEFORE_CONTENT + number_len(content),
            Item::Long => return Cursor::MOST_IMAGE + 1,
        }
        at = past;
    }
    len
}

// The length of the words, each with its own length before it, in one byte.
fn words_len(words: Words) -> usize
    requires { Spans words.text.now words.spans.now words.count }
    ensures { WordsLong words.entry.text.now words.entry.spans.now words.entry.count result }
{
    let mut len = 0;
    for i in 0..words.count {
        len += 1 + (words.spans[i * 2 + 1] - words.spans[i * 2]);
    }
    len
}

// Kind, count and words; no made names, scopes or bindings.
fn head_len(words: Words) -> usize
    requires { Spans words.text.now words.spans.now words.count }
    ensures { HeadLong words.entry.text.now words.entry.spans.now words.entry.count result }
{
    1 + number_len(words.count as u32) + words_len(words) + 3
}

// The image's length, or some number over `most` where it is longer.
pub fn image_len(words: Words, most: usize) -> usize
    requires { Sound words.text.now words.spans.now words.count 0 × (most ≤ most_image) }
    ensures { Measured (image_from words.entry.text.now words.entry.spans.now words.entry.count) most result }
{
    let head = head_len(words);
    if most < head {
        return head;
    }
    head + root_len(words, most - head)
}
