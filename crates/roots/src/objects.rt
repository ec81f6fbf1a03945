// Syntax objects of an image, checked and measured: nothing is stored.
ghost use Rattle.std.specs.Prelude.{◌≡◌, ℕ, ◌+◌, ◌≤◌, length};
ghost use Rattle.numbers.specs.Answers.{read_at};
ghost use Rattle.roots.specs.MeasuredObjects.{read_content_of, read_top, measure_stx, measure_list, measure_parts};
ghost use Rattle.numbers.specs.Limits.{most_image};
ghost use Rattle.scopes.specs.Sets.{set_scopes};

use crate::points;
use numbers::{Cursor, Read};
use refusals::Refusal;

pub const LAST_RUNG_WORD: u32 = 15;

// An atom's content, by document 01's tag: a declared symbol, a number, a point, a primitive or a rung word.
pub fn read_content(c: Cursor, s: &[u8], symbols: u32, tag: u32) -> Read<u32>
    requires { c.at + length s.now ≤ most_image }
    ensures { result ≡ read_at (c.at + length s.now) (read_content_of symbols tag s.now) }
{
    match tag {
        0 => c.number_below(s, symbols),
        1 => c.number(s),
        2 => {
            let (point, past) = points::read_point(c, s)?;
            Ok((point.0, past))
        }
        3 => c.number_up_to(s, Refusal::OverLimit, scopes::LAST_PRIMITIVE),
        4 => c.number_up_to(s, Refusal::OverLimit, LAST_RUNG_WORD),
        _ => Err(Refusal::Layout),
    }
}

// An object's tag, with the place past its three sets.
pub fn read_top(c: Cursor, s: &[u8], scopes: u32) -> Read<u32>
    requires { (c.at + length s.now ≤ most_image) × (scopes ≤ set_scopes) }
    ensures { result ≡ read_at (c.at + length s.now) (read_top scopes s.now) }
{
    let (tag, past) = c.number_up_to(s, Refusal::Layout, 5)?;
    let behind = sets::skip_sets(past, c.after(s, past), scopes)?;
    Ok((tag, behind))
}

// The size of the object at a cursor, where `s` is the image from there on and `levels` levels are left. The part at level 65 is
// refused before its tag. Two counts stay two parameters: in `Counts` would stand a third, of which an object says nothing.
#[cycle(measuring_objects)]
pub fn measure_object(c: Cursor, s: &[u8], symbols: u32, scopes: u32, levels: u32) -> Read<u32>
    requires { (c.at + length s.now ≤ most_image) × (scopes ≤ set_scopes) }
    ensures { result ≡ read_at (c.at + length s.now) (measure_stx symbols scopes levels s.now) }
{
    if levels == 0 {
        return Err(Refusal::OverLimit);
    }
    let (tag, past) = read_top(c, s, scopes)?;
    let rest = c.after(s, past);
    if tag == 5 {
        return measure_list(past, rest, symbols, scopes, levels - 1);
    }
    let (_, end) = read_content(past, rest, symbols, tag)?;
    Ok((1, end))
}

// A list: its count, and its parts where `levels` levels are left for them.
#[cycle(measuring_objects)]
fn measure_list(c: Cursor, s: &[u8], symbols: u32, scopes: u32, levels: u32) -> Read<u32>
    requires { (c.at + length s.now ≤ most_image) × (scopes ≤ set_scopes) }
    ensures { result ≡ read_at (c.at + length s.now) (measure_list symbols scopes levels s.now) }
{
    let (count, past) = c.number(s)?;
    let (size, end) = measure_parts(past, c.after(s, past), symbols, scopes, levels, count)?;
    Ok((size + 1, end))
}

#[cycle(measuring_objects)]
fn measure_parts(
    c: Cursor,
    s: &[u8],
    symbols: u32,
    scopes: u32,
    levels: u32,
    count: u32,
) -> Read<u32>
    requires { (c.at + length s.now ≤ most_image) × (scopes ≤ set_scopes) }
    ensures { result ≡ read_at (c.at + length s.now) (measure_parts count 0 (measure_stx symbols scopes levels) s.now) }
{
    let mut here = c;
    let mut sum: u32 = 0;
    for _ in 0..count {
        let (size, past) = measure_object(here, c.after(s, here), symbols, scopes, levels)?;
        sum += size;
        here = past;
    }
    Ok((sum, here))
}
