// The limits of an image, and the words as first met.
ghost use Rattle.std.specs.Prelude.{◌≡◌, ◌*◌, length};
ghost use Rattle.text_reader.specs.Found.{most_words};
ghost use Rattle.text_reader.specs.Limiting.{Placeable, NotesPiece, Limited};

use crate::found;
use numbers::Cursor;
use refusals::Refusal;
use tokens::Token;
use tokens::pieces::Piece;

// Bytes of a word.
const MOST_LENGTH: usize = 32;

// How many words are found after this piece, where it is within its limits.
fn note_piece(
    text: &[u8],
    spans: &mut [usize],
    count: usize,
    p: Piece,
    from: usize,
    to: usize,
) -> Result<usize, Refusal>
    requires { Placeable text.now spans.old count from to }
    ensures { NotesPiece text.now spans.old count p from to spans.new result }
{
    match p {
        Piece::Bad | Piece::Atom(_, _) => Ok(count),
        Piece::Word => {
            if MOST_LENGTH < to - from {
                return Err(Refusal::OverLimit);
            }
            found::note(text, spans, count, from, to)
        }
        Piece::Over => Err(Refusal::OverLimit),
    }
}

// One pass over a text in which 26 and 27 have nothing to refuse: how many words there are. It ends at the first thing that is over a limit.
pub fn limit(text: &[u8], spans: &mut [usize]) -> Result<usize, Refusal>
    requires { length spans.old ≡ most_words * 2 }
    ensures { Limited text.now spans.new result }
{
    let mut at = 0;
    let mut level = 0u32;
    let mut count = 0;
    while let Some((token, past)) = tokens::read_next(text, at) {
        match token {
            Token::Close => level = level.saturating_sub(1),
            Token::Open => {
                if Cursor::MOST_NESTING <= level {
                    return Err(Refusal::OverLimit);
                }
                level += 1;
            }
            Token::Piece(p, from) => {
                if Cursor::MOST_NESTING <= level {
                    return Err(Refusal::OverLimit);
                }
                count = note_piece(text, spans, count, p, from, past)?;
            }
        }
        at = past;
    }
    Ok(count)
}
