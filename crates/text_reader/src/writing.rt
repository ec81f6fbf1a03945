// The image written, where there is room for it.
ghost use Rattle.std.specs.Prelude.{[], ◌∷◌, ◌+◌, ◌≤◌, length};
ghost use Rattle.model.specs.Writing.{words_bytes};
ghost use Rattle.text.specs.Placing.{Placed};
ghost use Rattle.text_reader.specs.Found.{found};
ghost use Rattle.text_reader.specs.Items.{root_from, thing_bytes};
ghost use Rattle.text_reader.specs.Writing.{head_from, word_bytes, image_from, RootRoom, WordRoom, WordsRoom, HeadRoom, ImageRoom};

use crate::found::Words;
use crate::items;
use crate::items::Item;
use numbers::put_number;
use text::put_text;

const SYNTAX: u32 = 1;

// Three bytes 0: empty sets, or counts of nothing.
fn put_zeros(out: &mut [u8], at: usize) -> usize
    requires { at + 3 ≤ length out.old }
    ensures { Placed out.old at (0 ∷ 0 ∷ 0 ∷ []) out.new result }
{
    put_text(out, at, &[0, 0, 0])
}

fn put_thing(out: &mut [u8], at: usize, tag: u32, content: u32) -> usize
    requires { at + length (thing_bytes tag content) ≤ length out.old }
    ensures { Placed out.old at (thing_bytes tag content) out.new result }
{
    let sets = put_number(out, at, tag);
    let behind = put_zeros(out, sets);
    put_number(out, behind, content)
}

fn put_root(out: &mut [u8], at: usize, words: Words) -> usize
    requires { RootRoom out.old at words.text.now words.spans.now words.count }
    ensures { Placed out.old at (root_from words.entry.text.now words.entry.spans.now words.entry.count 0) out.new result }
{
    let mut here = 0;
    let mut to = at;
    while let Some((item, past)) = items::read_item(words, here) {
        match item {
            Item::Nothing => {}
            Item::Thing(tag, content) => to = put_thing(out, to, tag, content),
            // there is room for the root
            Item::Long => return to,
        }
        here = past;
    }
    to
}

// A word of the text behind its length.
fn put_word(out: &mut [u8], at: usize, text: &[u8], first: usize, past: usize) -> usize
    requires { WordRoom out.old at text.now first past }
    ensures { Placed out.old at (word_bytes text.now first past) out.new result }
{
    let bytes = put_number(out, at, (past - first) as u32);
    put_text(out, bytes, &text[first..past])
}

fn put_words(out: &mut [u8], at: usize, words: Words) -> usize
    requires { WordsRoom out.old at words.text.now words.spans.now words.count }
    ensures { Placed out.old at (words_bytes (found words.entry.text.now words.entry.spans.now words.entry.count)) out.new result }
{
    let mut to = at;
    for i in 0..words.count {
        to = put_word(
            out,
            to,
            words.text,
            words.spans[i * 2],
            words.spans[i * 2 + 1],
        );
    }
    to
}

// The image as far as its root: kind, words, and no made names, scopes or bindings.
fn put_head(out: &mut [u8], words: Words) -> usize
    requires { HeadRoom out.old words.text.now words.spans.now words.count }
    ensures { Placed out.old 0 (head_from (found words.entry.text.now words.entry.spans.now words.entry.count)) out.new result }
{
    let many = put_number(out, 0, SYNTAX);
    let first = put_number(out, many, words.count as u32);
    let counts = put_words(out, first, words);
    put_zeros(out, counts)
}

pub fn put_image(out: &mut [u8], words: Words) -> usize
    requires { ImageRoom out.old words.text.now words.spans.now words.count }
    ensures { Placed out.old 0 (image_from words.entry.text.now words.entry.spans.now words.entry.count) out.new result }
{
    let root = put_head(out, words);
    put_root(out, root, words)
}
