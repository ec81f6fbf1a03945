// The text written, where there is room for it.
ghost use Rattle.std.specs.Prelude.{[], ◌∷◌, ◌+◌, ◌≤◌, length};
ghost use Rattle.text.specs.Placing.{Placed};
ghost use Rattle.text_laws.specs.Single.{space_if};
ghost use Rattle.text_printer.specs.Atoms.{atom_text};
ghost use Rattle.text_printer.specs.Spelling.{spelling};
ghost use Rattle.text_printer.specs.Printing.{print_of, SpacedRoom, TextRoom};

use crate::spelling::Words;
use crate::walking::{Step, Walk};
use crate::{atoms, walking};

// The space that is due, or none.
fn put_space(out: &mut [u8], at: usize, due: bool) -> usize
    requires { at + length (space_if due []) ≤ length out.old }
    ensures { Placed out.old at (space_if due []) out.new result }
{
    if due {
        out[at] = b' ';
        return at + 1;
    }
    at
}

// A parenthesis.
fn put_paren(out: &mut [u8], at: usize, due: bool, paren: u8) -> usize
    requires { at + length (space_if due (paren ∷ [])) ≤ length out.old }
    ensures { Placed out.old at (space_if due (paren ∷ [])) out.new result }
{
    let behind = put_space(out, at, due);
    out[behind] = paren;
    behind + 1
}

// An atom.
fn put_spaced(out: &mut [u8], at: usize, due: bool, words: Words, tag: u32, content: u32) -> usize
    requires { SpacedRoom out.old at due words.image.now words.starts.now words.count tag content }
    ensures { Placed out.old at (space_if due (atom_text (spelling words.entry.image.now words.entry.starts.now words.entry.count) tag content)) out.new result }
{
    let behind = put_space(out, at, due);
    atoms::put_atom(out, behind, words, tag, content)
}

pub fn put_all(out: &mut [u8], words: Words, left: &mut [u32], root: usize) -> usize
    requires { TextRoom out.old words.image.now words.starts.now words.count left.old root }
    ensures { Placed out.old 0 (print_of words.entry.image.now) out.new result }
{
    left[0] = 1;
    let mut w = Walk { at: root, depth: 1 };
    let mut due = false;
    let mut to = 0;
    while let Some((step, next)) = walking::take_step(words.image, left, w) {
        match step {
            Step::Open => {
                to = put_paren(out, to, due, b'(');
                due = false;
            }
            Step::Close => {
                to = put_paren(out, to, false, b')');
                due = true;
            }
            Step::Atom(tag, content) => {
                to = put_spaced(out, to, due, words, tag, content);
                due = true;
            }
        }
        w = next;
    }
    to
}
