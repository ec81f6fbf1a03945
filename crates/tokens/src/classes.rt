// Bytes that part a text into tokens, and digits.
ghost use Rattle.std.specs.Prelude.{◌≡◌};
ghost use Rattle.requests.specs.Tokens.{space, line_end, digit};
ghost use Rattle.text_laws.specs.Passes.{ending};

#[tactic(auto, unfolding(requests::specs::Tokens::space))]
pub fn space(b: u8) -> bool
    ensures { result ≡ space b }
{
    b == b'\t' || b == b'\n' || b == b'\r' || b == b' '
}

#[tactic(auto, unfolding(requests::specs::Tokens::line_end))]
pub fn line_end(b: u8) -> bool
    ensures { result ≡ line_end b }
{
    matches!(b, b'\n' | b'\r')
}

// A byte that ends a piece.
#[tactic(auto, unfolding(text_laws::specs::Passes::ending, requests::specs::Tokens::paren))]
pub fn ending(b: u8) -> bool
    ensures { result ≡ ending b }
{
    space(b) || b == b'(' || b == b')' || b == b';'
}

#[tactic(auto, unfolding(requests::specs::Tokens::digit))]
pub fn digit(b: u8) -> bool
    ensures { result ≡ digit b }
{
    b.is_ascii_digit()
}
