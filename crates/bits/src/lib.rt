// The bits of a panel program, and the points that it drives: one loop along the root's bytes. A whole comes before its parts, and a
// program has neither list nor syntax values, so the bytes are tokens one after another: a variable, an application's count, a
// function's name, an atom. The point that `out` drives is the token behind that word.
#![tactic(auto)]

ghost use Rattle.std.specs.Prelude.{◌≡◌, ◌+◌, ◌≤◌, ◌<◌, length};
ghost use Rattle.numbers.specs.Limits.{most_image};
ghost use Rattle.numbers.specs.Answers.{read_at};
ghost use Rattle.bits.specs.Tokens.{read_content, read_kind, read_token};
ghost use Rattle.bits.specs.Meeting.{points, room, is_out, marked_at, driven_before, named_at, counted_at, NoMarks, Noted, along, none, Holds};

use numbers::{Cursor, Read};
use scopes::Point;
use std::mem;

// `content` is a name, a count, or what an atom holds; `kind` is an atom's, else 0. Tag and kind stay numbers: `read_token` of
// specs/Tokens.antt takes any number there, since which ones there may be was tested with the image.
#[derive(Clone, Copy)]
pub struct Token {
    pub tag: u32,
    pub kind: u32,
    pub content: u32,
}

// How many functions were met, whether a point was driven twice, and whether what comes next is a point that is driven.
#[derive(Clone, Copy)]
pub struct Gathered {
    pub bits: u32,
    pub twice: bool,
    pub driving: bool,
}

impl Token {
    // Tags.
    const FUNCTION: u32 = 2;

    const ATOM: u32 = 3;

    // An atom's kind.
    const RUNG: u32 = 4;

    // A rung word.
    const OUT: u32 = 3;

    // The word `out`.
    #[tactic(auto, unfolding(crate::specs::Meeting::is_out))]
    fn is_out(self) -> bool
        ensures { result ≡ is_out self }
    {
        if self.tag != Token::ATOM {
            return false;
        }
        self.kind == Token::RUNG && self.content == Token::OUT
    }
}

impl Gathered {
    // Names that are kept: more are only counted.
    pub const ROOM: u32 = 256;

    // A mark for each.
    pub const POINTS: usize = Point::LAST as usize + 1;
}

fn read_content(c: Cursor, s: &[u8], tag: u32, kind: u32) -> Read<Token>
    requires { c.at + length s.now ≤ most_image }
    ensures { result ≡ read_at (c.at + length s.now) (read_content tag kind s.now) }
{
    let (content, past) = c.number(s)?;
    Ok((Token { tag, kind, content }, past))
}

fn read_kind(c: Cursor, s: &[u8]) -> Read<Token>
    requires { c.at + length s.now ≤ most_image }
    ensures { result ≡ read_at (c.at + length s.now) (read_kind s.now) }
{
    let (kind, past) = c.number(s)?;
    read_content(past, c.after(s, past), Token::ATOM, kind)
}

// The token at a cursor, where `s` is the image from there on.
pub fn read_token(c: Cursor, s: &[u8]) -> Read<Token>
    requires { c.at + length s.now ≤ most_image }
    ensures { result ≡ read_at (c.at + length s.now) (read_token s.now) }
{
    let (tag, past) = c.number(s)?;
    if tag == Token::ATOM {
        read_kind(past, c.after(s, past))
    } else {
        read_content(past, c.after(s, past), tag, 0)
    }
}

// Marks the point where it is driven: whether it was marked before.
#[tactic(auto, unfolding(crate::specs::Meeting::marked_at, crate::specs::Meeting::driven_before))]
fn drive(marks: &mut [u8], driving: bool, point: u32) -> bool
    requires { points ≤ length marks.old }
    ensures again { result ≡ driven_before marks.old driving point }
    ensures marks { marks.new ≡ marked_at marks.old driving point }
{
    if !driving || Point::LAST < point {
        return false;
    }
    mem::replace(&mut marks[point as usize], 1) != 0
}

// The address of a function that is met behind `bits` others.
fn address(bits: u32) -> usize
    requires { bits < room }
    ensures { result ≡ bits }
{
    bits as usize
}

// Keeps a function's name at its address, where there is room: how many functions there are now.
#[tactic(auto, unfolding(crate::specs::Meeting::counted_at, crate::specs::Meeting::named_at))]
fn count(names: &mut [u32], bits: u32, t: Token) -> u32
    requires { (room ≤ length names.old) × (bits < 4294967295) }
    ensures bits { result ≡ counted_at bits t }
    ensures names { names.new ≡ named_at names.old bits t }
{
    if t.tag != Token::FUNCTION {
        return bits;
    }
    if bits < Gathered::ROOM {
        names[address(bits)] = t.content;
    }
    bits + 1
}

// What is gathered once this token is met too.
fn note(marks: &mut [u8], names: &mut [u32], g: Gathered, t: Token) -> Gathered
    requires { (points ≤ length marks.old) × (room ≤ length names.old) × (g.bits < 4294967295) }
    ensures { Noted marks.old names.old g t marks.new names.new result }
{
    let again = drive(marks, g.driving, t.content);
    Gathered {
        bits: count(names, g.bits, t),
        twice: g.twice | again,
        driving: t.is_out(),
    }
}

// What is gathered along the root, which `s` is, at a cursor; `marks` has no mark yet. Each token has a byte at least, so there are no
// more turns than bytes.
pub fn gather(c: Cursor, s: &[u8], marks: &mut [u8], names: &mut [u32]) -> Gathered
    requires image { c.at + length s.now ≤ most_image }
    requires held { NoMarks marks.old × (room ≤ length names.old) }
    ensures { Holds (along (length s.now) none s.now) marks.new names.new result }
{
    let mut here = c;
    let mut g = Gathered {
        bits: 0,
        twice: false,
        driving: false,
    };
    for _ in 0..s.len() {
        let Ok((t, past)) = read_token(here, c.after(s, here)) else {
            return g;
        };
        g = note(marks, names, g, t);
        here = past;
    }
    g
}
