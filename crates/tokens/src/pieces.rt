// What a piece of a text is that is no parenthesis.
ghost use Rattle.std.specs.Prelude.{◌≡◌};
ghost use Rattle.tokens.specs.Pieces.{is_bad, rung_named, Marks, Rungs, PieceIs};

use crate::decimals::{DecimalError, read_decimal};
use scopes::Point;
use words::{good_word, same_bytes};

// An atom is its tag and its content in an image; `Over` is one whose content is over its limit. No Result: the passes tell all four apart.
#[derive(Clone, Copy)]
pub enum Piece {
    Bad,
    Word,
    Atom(u32, u32),
    Over,
}

impl Piece {
    pub fn is_bad(self) -> bool
        ensures { result ≡ is_bad self }
    {
        matches!(self, Piece::Bad)
    }
}

const NUMBER: u32 = 1;

const POINT: u32 = 2;

const PRIM: u32 = 3;

const RUNG: u32 = 4;

const NAMED_RUNGS: [&[u8]; 6] = [b"and", b"or", b"not", b"out", b"set", b"all"];

const FIRST_RUNG: u32 = 6;

const LAST_RUNG: u32 = 15;

// Digits as the content of an atom with that tag, which is at most `most`.
fn numbered(s: &[u8], tag: u32, most: u32) -> Piece
    ensures { Marks s.now tag most result }
{
    match read_decimal(s) {
        Ok(n) if n <= most => Piece::Atom(tag, n),
        Ok(_) | Err(DecimalError::TooLarge) => Piece::Over,
        Err(DecimalError::NoNumeral) => Piece::Bad,
    }
}

// The place among the named rung words.
fn named_rung(w: &[u8]) -> Option<usize>
    ensures { result ≡ rung_named w.now }
{
    NAMED_RUNGS.iter().position(|name| same_bytes(w, name))
}

// What stands behind ': a named rung word, or 6 to 15.
fn rung(w: &[u8]) -> Piece
    ensures { Rungs w.now result }
{
    if let Some(k) = named_rung(w) {
        return Piece::Atom(RUNG, k as u32);
    }
    match read_decimal(w) {
        Ok(n @ FIRST_RUNG..=LAST_RUNG) => Piece::Atom(RUNG, n),
        _ => Piece::Bad,
    }
}

// A piece by its first byte.
pub fn read_piece(w: &[u8]) -> Piece
    ensures { PieceIs w.now result }
{
    match w {
        [b'@', number @ ..] => numbered(number, POINT, Point::LAST),
        [b'#', number @ ..] => numbered(number, PRIM, scopes::LAST_PRIMITIVE),
        [b'\'', name @ ..] => rung(name),
        [b'0'..=b'9', ..] => numbered(w, NUMBER, u32::MAX),
        _ if good_word(w) => Piece::Word,
        _ => Piece::Bad,
    }
}
