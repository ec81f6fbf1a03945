// What the root of the image has for each token: nothing, or a thing's tag and content, between which stand three empty sets.
ghost use Rattle.std.specs.Prelude.{◌≡◌, ◌+◌, ◌≤◌, length};
ghost use Rattle.text_reader.specs.Items.{directly, Counts, Parts, Sound, ItemIs};

use crate::found;
use crate::found::Words;
use numbers::Cursor;
use tokens::Token;
use tokens::pieces::Piece;

#[derive(Clone, Copy)]
pub enum Item {
    Nothing,
    Thing(u32, u32),
    // the root is longer than any image
    Long,
}

const SYMBOL: u32 = 0;

const LIST: u32 = 5;

// No image has room for more.
const MOST_PARTS: u32 = Cursor::MOST_IMAGE as u32;

// One part more, where it stands directly in the list.
fn count_part(count: u32, depth: usize) -> u32
    requires { count ≤ 65536 }
    ensures { result ≡ count + directly depth }
{
    if depth == 0 { count + 1 } else { count }
}

fn count_piece(count: u32, depth: usize, p: Piece) -> u32
    requires { count ≤ 65536 }
    ensures { Counts count depth p result }
{
    if p.is_bad() {
        count
    } else {
        count_part(count, depth)
    }
}

// How many parts a list has whose parenthesis stands before `at`, or some number over 65,536: each takes bytes of the image. The parts are counted
// anew for each list, so that a token is visited at most once for each of the 64 levels.
fn count_parts(text: &[u8], at: usize) -> u32
    requires { at ≤ length text.now }
    ensures { Parts text.now at result }
{
    let mut here = at;
    let mut depth = 0;
    let mut count = 0;
    while count <= MOST_PARTS {
        let Some((token, past)) = tokens::read_next(text, here) else {
            return count;
        };
        match token {
            Token::Open => {
                count = count_part(count, depth);
                depth += 1;
            }
            Token::Close => {
                if depth == 0 {
                    return count;
                }
                depth -= 1;
            }
            Token::Piece(p, _) => count = count_piece(count, depth, p),
        }
        here = past;
    }
    count
}

// What the root has for the token at a place, and the place past it.
pub fn read_item(words: Words, at: usize) -> Option<(Item, usize)>
    requires { Sound words.text.now words.spans.now words.count at }
    ensures { ItemIs words.entry.text.now words.entry.spans.now words.entry.count at result }
{
    let (token, past) = tokens::read_next(words.text, at)?;
    match token {
        Token::Open => {
            let n = count_parts(words.text, past);
            if MOST_PARTS < n {
                return Some((Item::Long, past));
            }
            Some((Item::Thing(LIST, n), past))
        }
        Token::Close => Some((Item::Nothing, past)),
        Token::Piece(p, from) => match p {
            Piece::Bad => Some((Item::Nothing, past)),
            Piece::Word => {
                let n = found::symbol(words, from, past);
                Some((Item::Thing(SYMBOL, n), past))
            }
            Piece::Atom(tag, content) => Some((Item::Thing(tag, content), past)),
            // the limits were tested before
            Piece::Over => Some((Item::Nothing, past)),
        },
    }
}
