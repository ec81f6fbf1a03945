// The things of a tree (document 02, T-10) along its bytes: a whole comes before its parts, and the object of a syntax value is passed over. A thing's
// place is how many stand before it.
#![tactic(auto)]

pub mod counting;

ghost use Rattle.std.specs.Prelude.{◌≡◌, ◌+◌, ◌≤◌, length};
ghost use Rattle.numbers.specs.Limits.{most_image};
ghost use Rattle.scopes.specs.Sets.{set_scopes};
ghost use Rattle.numbers.specs.Answers.{read_at};
ghost use Rattle.places.specs.Reading.{read_content, read_atom, read_object, read_thing, parts_of};
ghost use Rattle.places.specs.Standing.{Tree, Passes};

use head::Counts;
use numbers::{Cursor, Read};
use roots::objects;

// `content` is a variable's or function's name, or how many parts an application or list value has; of others 0. `tag` stays a number: `read_thing`
// of specs/Reading takes any.
#[derive(Clone, Copy)]
pub struct Thing {
    pub tag: u32,
    pub content: u32,
}

// How many things a tree is, and the place past its bytes.
#[derive(Clone, Copy)]
pub struct Span {
    pub size: u32,
    pub end: Cursor,
}

impl Thing {
    // Tags.
    pub const VARIABLE: u32 = 0;

    const APPLICATION: u32 = 1;

    const FUNCTION: u32 = 2;

    const ATOM: u32 = 3;

    pub const LIST: u32 = 4;

    const SYNTAX: u32 = 5;

    // How many parts follow.
    #[tactic(auto, unfolding(crate::specs::Reading::parts_of))]
    fn parts(self) -> u32
        ensures { result ≡ parts_of self }
    {
        match self.tag {
            Thing::FUNCTION => 1,
            Thing::APPLICATION | Thing::LIST => self.content,
            _ => 0,
        }
    }
}

fn read_content(c: Cursor, s: &[u8], tag: u32) -> Read<Thing>
    requires { c.at + length s.now ≤ most_image }
    ensures { result ≡ read_at (c.at + length s.now) (read_content tag s.now) }
{
    let (content, past) = c.number(s)?;
    Ok((Thing { tag, content }, past))
}

// An atom's kind, and what it holds.
fn read_atom(c: Cursor, s: &[u8]) -> Read<Thing>
    requires { c.at + length s.now ≤ most_image }
    ensures { result ≡ read_at (c.at + length s.now) (read_atom s.now) }
{
    let (_, past) = c.number(s)?;
    let (_, end) = past.number(c.after(s, past))?;
    let t = Thing {
        tag: Thing::ATOM,
        content: 0,
    };
    Ok((t, end))
}

fn read_object(c: Cursor, s: &[u8], counts: Counts) -> Read<Thing>
    requires { (c.at + length s.now ≤ most_image) × (counts.scopes ≤ set_scopes) }
    ensures { result ≡ read_at (c.at + length s.now) (read_object counts s.now) }
{
    let (_, past) = objects::measure_object(
        c,
        s,
        counts.symbols,
        counts.scopes,
        Cursor::MOST_NESTING,
    )?;
    let t = Thing {
        tag: Thing::SYNTAX,
        content: 0,
    };
    Ok((t, past))
}

// The thing at a cursor, where `s` is the image from there on.
pub fn read_thing(c: Cursor, s: &[u8], counts: Counts) -> Read<Thing>
    requires { (c.at + length s.now ≤ most_image) × (counts.scopes ≤ set_scopes) }
    ensures { result ≡ read_at (c.at + length s.now) (read_thing counts s.now) }
{
    let (tag, past) = c.number(s)?;
    let rest = c.after(s, past);
    match tag {
        Thing::ATOM => read_atom(past, rest),
        Thing::SYNTAX => read_object(past, rest, counts),
        _ => read_content(past, rest, tag),
    }
}

// Passes over the tree at a cursor. `pending` trees are still to come.
pub fn pass_over(c: Cursor, s: &[u8], counts: Counts) -> Span
    requires image { (c.at + length s.now ≤ most_image) × (counts.scopes ≤ set_scopes) }
    requires tree { Tree counts s.now }
    ensures { Passes counts s.now c.at result }
{
    let mut here = c;
    let mut pending: u32 = 1;
    let mut size: u32 = 0;
    while 0 < pending {
        let Ok((t, past)) = read_thing(here, c.after(s, here), counts) else {
            unreachable!()
        };
        size += 1;
        pending = pending - 1 + t.parts();
        here = past;
    }
    Span { size, end: here }
}
