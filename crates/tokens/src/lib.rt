// The tokens of a text, one after another. Nothing is kept of a text but places in it: each pass cuts the tokens anew.
#![tactic(auto)]

pub mod classes;
pub mod decimals;
pub mod pieces;
pub mod runs;

ghost use Rattle.std.specs.Prelude.{◌≤◌, length};
ghost use Rattle.tokens.specs.Nexts.{NextIs};

use crate::pieces::Piece;

// A parenthesis, or a piece with its first place.
#[derive(Clone, Copy)]
pub enum Token {
    Open,
    Close,
    Piece(Piece, usize),
}

// The next token of a text with the place past it, from a place on where no token is cut through.
pub fn read_next(text: &[u8], at: usize) -> Option<(Token, usize)>
    requires { at ≤ length text.now }
    ensures { NextIs text.now at result }
{
    let from = at + runs::skip(&text[at..]);
    if from == text.len() {
        return None;
    }
    match text[from] {
        b'(' => Some((Token::Open, from + 1)),
        b')' => Some((Token::Close, from + 1)),
        _ => {
            let past = from + runs::run_len(&text[from..]);
            Some((
                Token::Piece(pieces::read_piece(&text[from..past]), from),
                past,
            ))
        }
    }
}
