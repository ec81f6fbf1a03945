// From one token of a text to the next.
ghost use Rattle.tokens.specs.Walk.{RunEnds, LineEnds, Skipped};

use crate::classes;

// How many bytes of a piece `s` begins with.
pub fn run_len(s: &[u8]) -> usize
    ensures { RunEnds s.now result }
{
    s.iter()
        .position(|b| classes::ending(*b))
        .unwrap_or(s.len())
}

// How many bytes a comment has, its line end counted, where `s` is what comes after its `;`.
fn line_len(s: &[u8]) -> usize
    ensures { LineEnds s.now result }
{
    match s.iter().position(|b| classes::line_end(*b)) {
        Some(i) => i + 1,
        None => s.len(),
    }
}

// How many bytes of spaces and comments come before the next token.
pub fn skip(s: &[u8]) -> usize
    ensures { Skipped s.now result }
{
    // No `for`: the place moves on by a byte or by a whole comment.
    let mut i = 0;
    while i < s.len() {
        if classes::space(s[i]) {
            i += 1;
        } else if s[i] == b';' {
            i += 1 + line_len(&s[i + 1..]);
        } else {
            return i;
        }
    }
    i
}
