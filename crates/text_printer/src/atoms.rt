// The text of an atom, by its tag and its content.
ghost use Rattle.std.specs.Prelude.{◌≡◌, [], ◌∷◌, ◌+◌, ◌≤◌, length};
ghost use Rattle.model.specs.Jobs.{digits};
ghost use Rattle.requests.specs.ToText.{rung_text};
ghost use Rattle.text.specs.Placing.{Placed};
ghost use Rattle.text_printer.specs.Spelling.{spelling};
ghost use Rattle.text_printer.specs.Atoms.{atom_text, Printable, AtomRoom};

use crate::spelling::Words;
use crate::{lengths, spelling};
use text::put_text;

const SYMBOL: u32 = 0;

const NUMBER: u32 = 1;

const POINT: u32 = 2;

const PRIM: u32 = 3;

// How long the text of an atom is.
pub fn atom_len(words: Words, tag: u32, content: u32) -> usize
    requires { Printable words.image.now words.starts.now words.count tag content }
    ensures is { result ≡ length (atom_text (spelling words.entry.image.now words.entry.starts.now words.entry.count) tag content) }
    ensures few { result ≤ 32 }
{
    match tag {
        SYMBOL => spelling::symbol_len(words, content),
        NUMBER => lengths::decimal_len(content),
        POINT | PRIM => 1 + lengths::decimal_len(content),
        _ => 1 + lengths::rung_len(content),
    }
}

// A number behind its mark.
fn put_marked(out: &mut [u8], at: usize, mark: u8, n: u32) -> usize
    requires { at + length (mark ∷ digits 10 n []) ≤ length out.old }
    ensures { Placed out.old at (mark ∷ digits 10 n []) out.new result }
{
    out[at] = mark;
    text::put_number(out, at + 1, n)
}

// What stands behind ': a named rung word, or a number.
fn put_rung(out: &mut [u8], at: usize, n: u32) -> usize
    requires { at + length (rung_text n) ≤ length out.old }
    ensures { Placed out.old at (rung_text n) out.new result }
{
    match n {
        0 => put_text(out, at, b"and"),
        1 => put_text(out, at, b"or"),
        2 => put_text(out, at, b"not"),
        3 => put_text(out, at, b"out"),
        4 => put_text(out, at, b"set"),
        5 => put_text(out, at, b"all"),
        _ => text::put_number(out, at, n),
    }
}

// An atom other than a symbol.
fn put_number(out: &mut [u8], at: usize, tag: u32, content: u32) -> usize
    requires { (tag ≡ 0 → ⊥) × (at + length (atom_text [] tag content) ≤ length out.old) }
    ensures { Placed out.old at (atom_text [] tag content) out.new result }
{
    match tag {
        NUMBER => text::put_number(out, at, content),
        POINT => put_marked(out, at, b'@', content),
        PRIM => put_marked(out, at, b'#', content),
        _ => {
            out[at] = b'\'';
            put_rung(out, at + 1, content)
        }
    }
}

pub fn put_atom(out: &mut [u8], at: usize, words: Words, tag: u32, content: u32) -> usize
    requires { AtomRoom out.old at words.image.now words.starts.now words.count tag content }
    ensures { Placed out.old at (atom_text (spelling words.entry.image.now words.entry.starts.now words.entry.count) tag content) out.new result }
{
    if tag == SYMBOL {
        return spelling::put_symbol(out, at, words, content);
    }
    put_number(out, at, tag, content)
}
