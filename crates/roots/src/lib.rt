// The root of an image, checked and measured: nothing is stored. A tree's variables are held against the functions around them in
// the same pass.
#![tactic(auto)]

pub mod objects;
pub mod points;

ghost use Rattle.std.specs.Prelude.{◌≡◌, ◌&&◌, ℕ, ◌+◌, ◌≤◌, length, replicate};
ghost use Rattle.numbers.specs.Answers.{read_at};
ghost use Rattle.roots.specs.Measuring.{nothing, one_more, joined, measure_variable, measure_atom, measure_object, measure_several, measure_all, measure_function, measure_body, measure_tree, whole_syntax, whole_tree};
ghost use Rattle.numbers.specs.Limits.{most_image};
ghost use Rattle.head.specs.Fronts.{most_names};
ghost use Rattle.scopes.specs.Sets.{set_scopes};

use head::Counts;
use numbers::{Cursor, Read};
use refusals::Refusal;
use scopes::Name;

// The charge for loading a tree, and whether every variable of it, outside syntax values, has an enclosing function of its name.
#[derive(Clone, Copy)]
pub struct Extent {
    pub size: u32,
    pub owned: bool,
}

// In `around`, a name of a function around the place is not 0: it stays bytes, since the definition `measure_tree` speaks of numbers.
fn measure_variable(c: Cursor, s: &[u8], around: &[u8], names: u32) -> Read<Extent>
    requires { (c.at + length s.now ≤ most_image) × (names ≤ length around.now) }
    ensures { result ≡ read_at (c.at + length s.now) (measure_variable names around.now s.now) }
{
    let (n, past) = c.number_below(s, names)?;
    let i = n as usize;
    let owned = around[i] != 0;
    Ok((Extent { size: 1, owned }, past))
}

fn measure_atom(c: Cursor, s: &[u8], symbols: u32) -> Read<Extent>
    requires { c.at + length s.now ≤ most_image }
    ensures { result ≡ read_at (c.at + length s.now) (measure_atom symbols s.now) }
{
    let (tag, past) = c.number(s)?;
    let (_, end) = objects::read_content(past, c.after(s, past), symbols, tag)?;
    let atom = Extent {
        size: 1,
        owned: true,
    };
    Ok((atom, end))
}

// A syntax value counts as its object's size.
fn measure_syntax(c: Cursor, s: &[u8], symbols: u32, scopes: u32, levels: u32) -> Read<Extent>
    requires { (c.at + length s.now ≤ most_image) × (scopes ≤ set_scopes) }
    ensures { result ≡ read_at (c.at + length s.now) (measure_object symbols scopes levels s.now) }
{
    let (size, past) = objects::measure_object(c, s, symbols, scopes, levels)?;
    Ok((Extent { size, owned: true }, past))
}

// The tree at a cursor, where `s` is the image from there on, `levels` levels are left, and the tag is at least `low`: 0, or 2 for a
// value.
#[cycle(measuring_trees)]
fn measure_tree(
    c: Cursor,
    s: &[u8],
    around: &mut [u8],
    counts: Counts,
    levels: u32,
    low: u32,
) -> Read<Extent>
    requires { (c.at + length s.now ≤ most_image) × (counts.scopes ≤ set_scopes) × (counts.names ≤ length around.old) }
    ensures value { result ≡ read_at (c.at + length s.now) (measure_tree counts levels low around.old s.now) }
    ensures around_unchanged { around.new ≡ around.old }
{
    if levels == 0 {
        return Err(Refusal::OverLimit);
    }
    let (tag, past) = c.number(s)?;
    if tag < low {
        return Err(Refusal::Layout);
    }
    measure_body(past, c.after(s, past), around, counts, levels, tag)
}

// What follows the tag, which is document 01's.
#[cycle(measuring_trees)]
fn measure_body(
    c: Cursor,
    s: &[u8],
    around: &mut [u8],
    counts: Counts,
    levels: u32,
    tag: u32,
) -> Read<Extent>
    requires { (c.at + length s.now ≤ most_image) × (counts.scopes ≤ set_scopes) × (counts.names ≤ length around.old) × (1 ≤ levels) }
    ensures value { result ≡ read_at (c.at + length s.now) (measure_body counts levels around.old tag s.now) }
    ensures around_unchanged { around.new ≡ around.old }
{
    match tag {
        0 => measure_variable(c, s, around, counts.names),
        1 => measure_several(c, s, around, counts, levels - 1, 0, 1),
        2 => measure_function(c, s, around, counts, levels - 1),
        3 => measure_atom(c, s, counts.symbols),
        4 => measure_several(c, s, around, counts, levels - 1, 2, 0),
        5 => measure_syntax(c, s, counts.symbols, counts.scopes, levels),
        _ => Err(Refusal::Layout),
    }
}

// A count of at least `least`, and as many trees whose tags are at least `low`: an application's parts, or a list value's.
#[cycle(measuring_trees)]
fn measure_several(
    c: Cursor,
    s: &[u8],
    around: &mut [u8],
    counts: Counts,
    levels: u32,
    low: u32,
    least: u32,
) -> Read<Extent>
    requires { (c.at + length s.now ≤ most_image) × (counts.scopes ≤ set_scopes) × (counts.names ≤ length around.old) }
    ensures value { result ≡ read_at (c.at + length s.now) (measure_several least (measure_tree counts levels low around.old) s.now) }
    ensures around_unchanged { around.new ≡ around.old }
{
    let (count, past) = c.number(s)?;
    if count < least {
        return Err(Refusal::Layout);
    }
    let (e, end) = measure_all(past, c.after(s, past), around, counts, levels, low, count)?;
    let whole = Extent {
        size: e.size + 1,
        owned: e.owned,
    };
    Ok((whole, end))
}

#[cycle(measuring_trees)]
fn measure_all(
    c: Cursor,
    s: &[u8],
    around: &mut [u8],
    counts: Counts,
    levels: u32,
    low: u32,
    count: u32,
) -> Read<Extent>
    requires { (c.at + length s.now ≤ most_image) × (counts.scopes ≤ set_scopes) × (counts.names ≤ length around.old) }
    ensures value { result ≡ read_at (c.at + length s.now) (measure_all count nothing (measure_tree counts levels low around.old) s.now) }
    ensures around_unchanged { around.new ≡ around.old }
{
    let mut here = c;
    let mut size: u32 = 0;
    let mut owned = true;
    for _ in 0..count {
        let (e, past) = measure_tree(here, c.after(s, here), around, counts, levels, low)?;
        size += e.size;
        owned = owned && e.owned;
        here = past;
    }
    Ok((Extent { size, owned }, here))
}

// A function's name is one around its body.
#[cycle(measuring_trees)]
fn measure_function(
    c: Cursor,
    s: &[u8],
    around: &mut [u8],
    counts: Counts,
    levels: u32,
) -> Read<Extent>
    requires { (c.at + length s.now ≤ most_image) × (counts.scopes ≤ set_scopes) × (counts.names ≤ length around.old) }
    ensures value { result ≡ read_at (c.at + length s.now) (measure_function counts levels around.old s.now) }
    ensures around_unchanged { around.new ≡ around.old }
{
    let (n, past) = c.number_below(s, counts.names)?;
    let i = n as usize;
    let before = around[i];
    around[i] = 1;
    let body = measure_tree(past, c.after(s, past), around, counts, levels, 0);
    around[i] = before;
    let (e, end) = body?;
    let whole = Extent {
        size: e.size + 1,
        owned: e.owned,
    };
    Ok((whole, end))
}

// The root of an image of kind 1, behind which the image ends: its size.
pub fn measure_syntax_root(c: Cursor, s: &[u8], counts: Counts) -> Read<u32>
    requires { (c.at + length s.now ≤ most_image) × (counts.scopes ≤ set_scopes) }
    ensures { result ≡ read_at (c.at + length s.now) (whole_syntax counts s.now) }
{
    let (size, past) = objects::measure_object(
        c,
        s,
        counts.symbols,
        counts.scopes,
        Cursor::MOST_NESTING,
    )?;
    if !c.after(s, past).is_empty() {
        return Err(Refusal::Layout);
    }
    Ok((size, past))
}

// A tree behind which the bytes end, around which there is no function.
pub fn measure_whole_tree(
    c: Cursor,
    s: &[u8],
    counts: Counts,
    levels: u32,
    low: u32,
) -> Read<Extent>
    requires { (c.at + length s.now ≤ most_image) × (counts.scopes ≤ set_scopes) × (counts.names ≤ most_names) }
    ensures { result ≡ read_at (c.at + length s.now) (whole_tree counts levels low s.now) }
{
    let mut around = [0u8; Name::MOST as usize];
    let (e, past) = measure_tree(c, s, &mut around, counts, levels, low)?;
    if !c.after(s, past).is_empty() {
        return Err(Refusal::Layout);
    }
    Ok((e, past))
}

// The root of an image of kind 2, behind which the image ends.
pub fn measure_tree_root(c: Cursor, s: &[u8], counts: Counts) -> Read<Extent>
    requires { (c.at + length s.now ≤ most_image) × (counts.scopes ≤ set_scopes) × (counts.names ≤ most_names) }
    ensures { result ≡ read_at (c.at + length s.now) (whole_tree counts 64 0 s.now) }
{
    measure_whole_tree(c, s, counts, Cursor::MOST_NESTING, 0)
}
