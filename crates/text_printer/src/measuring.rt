// How long the text will be, as far as it matters. No one walk with `writing`: this one adds lengths and stops past `most`, that one has room.
ghost use Rattle.std.specs.Prelude.{◌≡◌, [], length};
ghost use Rattle.text_endings.specs.Ending.{Measured};
ghost use Rattle.text_laws.specs.Single.{space_if};
ghost use Rattle.text_printer.specs.Walking.{most_open};
ghost use Rattle.text_printer.specs.Printing.{print_of, TextReady};

use crate::spelling::Words;
use crate::walking::{Step, Walk};
use crate::{atoms, walking};

// The space that is due, or none.
fn space(due: bool) -> usize
    ensures { result ≡ length (space_if due []) }
{
    if due { 1 } else { 0 }
}

// The text's length, or some number over `most` where it is longer.
pub fn text_len(words: Words, left: &mut [u32], root: usize, most: usize) -> usize
    requires { TextReady words.image.now words.starts.now words.count left.old root most }
    ensures measured { Measured (print_of words.entry.image.now) most result }
    ensures counts { length left.new ≡ most_open }
{
    left[0] = 1;
    let mut w = Walk { at: root, depth: 1 };
    let mut due = false;
    let mut len = 0;
    while len <= most {
        let Some((step, next)) = walking::take_step(words.image, left, w) else {
            return len;
        };
        match step {
            Step::Open => {
                len += 1 + space(due);
                due = false;
            }
            Step::Close => {
                len += 1;
                due = true;
            }
            Step::Atom(tag, content) => {
                len += space(due) + atoms::atom_len(words, tag, content);
                due = true;
            }
        }
        w = next;
    }
    len
}
