// 26 and 27, the first from the front: the depth of open parentheses never needs a limit, since it is at most the text's length.
ghost use Rattle.std.specs.Prelude.{◌≡◌, ◌&&◌, eqb};
ghost use Rattle.text_reader.specs.Judging.{Lasts, Judges};

use text_endings::TextRefusal;
use tokens::Token;

// It stands at the first token from its place on, or at the text's end where none comes.
#[derive(Clone, Copy)]
pub struct Fault {
    pub refusal: TextRefusal,
    pub at: usize,
}

// Whether what starts here is a second object.
fn second(depth: usize, begun: bool) -> bool
    ensures { result ≡ (begun && eqb depth 0) }
{
    begun && depth == 0
}

// At the end something open is 27, no object 26.
fn at_last(depth: usize, begun: bool, at: usize) -> Result<(), Fault>
    ensures { Lasts depth begun at result }
{
    if 0 < depth {
        return Err(Fault {
            refusal: TextRefusal::Unbalanced,
            at,
        });
    }
    if !begun {
        return Err(Fault {
            refusal: TextRefusal::BadText,
            at,
        });
    }
    Ok(())
}

pub fn judge(text: &[u8]) -> Result<(), Fault>
    ensures { Judges text.now result }
{
    let mut at = 0;
    let mut depth = 0;
    let mut begun = false;
    while let Some((token, past)) = tokens::read_next(text, at) {
        match token {
            Token::Close => {
                if depth == 0 {
                    return Err(Fault {
                        refusal: TextRefusal::Unbalanced,
                        at,
                    });
                }
                depth -= 1;
            }
            Token::Open => {
                if second(depth, begun) {
                    return Err(Fault {
                        refusal: TextRefusal::BadText,
                        at,
                    });
                }
                depth += 1;
                begun = true;
            }
            Token::Piece(p, _) => {
                if p.is_bad() {
                    return Err(Fault {
                        refusal: TextRefusal::BadText,
                        at,
                    });
                }
                if second(depth, begun) {
                    return Err(Fault {
                        refusal: TextRefusal::BadText,
                        at,
                    });
                }
                begun = true;
            }
        }
        at = past;
    }
    at_last(depth, begun, at)
}
