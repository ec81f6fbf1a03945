// The panel profile (document 02, T-01): whether what is behind the head of a tree image is a program, every bit of which is in scope. It is
// read by the definition's rules, so that a program needs no other judgement. Nothing is stored, and the first place outside ends the reading.
#![tactic(auto)]

pub mod rules;

ghost use Rattle.std.specs.Prelude.{◌≡◌, ◌+◌, ◌-◌, ◌≤◌, length, Some};
ghost use Rattle.numbers.specs.Limits.{most_image};
ghost use Rattle.head.specs.Fronts.{most_names};
ghost use Rattle.profile.specs.Taking.{taken_at, rule_at, take_variable, take_atom, take_word, take_all, take_arguments, take_bit, take_head, take_application, take_body, take_tree, Tells};

use crate::rules::{Rule, Wanted};
use numbers::{Cursor, Read};
use refusals::Refusal;
use scopes::Name;
use std::mem;

// In `around`, a name of a function around the place is not 0.
fn take_variable(
    c: Cursor,
    s: &[u8],
    around: &[u8],
    names: u32,
    wanted: Wanted,
) -> Result<Cursor, Refusal>
    requires { (c.at + length s.now ≤ most_image) × (names ≤ length around.now) }
    ensures { result ≡ taken_at (c.at + length s.now) (take_variable names around.now wanted s.now) }
{
    let (n, past) = c.number_below(s, names)?;
    if around[n as usize] != 0 && wanted.takes_variable() {
        Ok(past)
    } else {
        Err(Refusal::Layout)
    }
}

fn take_atom(c: Cursor, s: &[u8], wanted: Wanted) -> Result<Cursor, Refusal>
    requires { c.at + length s.now ≤ most_image }
    ensures { result ≡ taken_at (c.at + length s.now) (take_atom wanted s.now) }
{
    let (kind, past) = c.number(s)?;
    let (content, end) = past.number(c.after(s, past))?;
    if wanted.takes_atom(kind, content) {
        Ok(end)
    } else {
        Err(Refusal::Layout)
    }
}

// A rung word at the head of an application, where `wanted` is what the application is to be.
fn take_word(c: Cursor, s: &[u8], wanted: Wanted) -> Read<Rule>
    requires { c.at + length s.now ≤ most_image }
    ensures { result ≡ rule_at (c.at + length s.now) (take_word wanted s.now) }
{
    let (kind, past) = c.number(s)?;
    if kind != rules::RUNG {
        return Err(Refusal::Layout);
    }
    let (word, end) = past.number_up_to(
        c.after(s, past),
        Refusal::OverLimit,
        roots::objects::LAST_RUNG_WORD,
    )?;
    let Some(rule) = Rule::of_word(wanted, word) else {
        return Err(Refusal::Layout);
    };
    Ok((rule, end))
}

// The tree at a cursor is what is wanted there, where `s` is the image from there on and `levels` levels are left.
#[cycle(taking)]
fn take_tree(
    c: Cursor,
    s: &[u8],
    around: &mut [u8],
    names: u32,
    levels: u32,
    wanted: Wanted,
) -> Result<Cursor, Refusal>
    requires { (c.at + length s.now ≤ most_image) × (names ≤ length around.old) }
    ensures value { result ≡ taken_at (c.at + length s.now) (take_tree names levels around.old wanted s.now) }
    ensures around_unchanged { around.new ≡ around.old }
{
    if levels == 0 {
        return Err(Refusal::Layout);
    }
    let (tag, past) = c.number(s)?;
    take_body(
        past,
        c.after(s, past),
        around,
        names,
        levels - 1,
        wanted,
        tag,
    )
}

// What follows the tag, where `levels` levels are left for the parts.
#[cycle(taking)]
fn take_body(
    c: Cursor,
    s: &[u8],
    around: &mut [u8],
    names: u32,
    levels: u32,
    wanted: Wanted,
    tag: u32,
) -> Result<Cursor, Refusal>
    requires { (c.at + length s.now ≤ most_image) × (names ≤ length around.old) }
    ensures value { result ≡ taken_at (c.at + length s.now) (take_body names around.old (take_tree names levels around.old) (take_head names levels around.old) wanted tag s.now) }
    ensures around_unchanged { around.new ≡ around.old }
{
    match tag {
        0 => take_variable(c, s, around, names, wanted),
        1 => take_application(c, s, around, names, levels, wanted),
        3 => take_atom(c, s, wanted),
        _ => Err(Refusal::Layout),
    }
}

#[cycle(taking)]
fn take_application(
    c: Cursor,
    s: &[u8],
    around: &mut [u8],
    names: u32,
    levels: u32,
    wanted: Wanted,
) -> Result<Cursor, Refusal>
    requires { (c.at + length s.now ≤ most_image) × (names ≤ length around.old) }
    ensures value { result ≡ taken_at (c.at + length s.now) (take_application (take_tree names levels around.old) (take_head names levels around.old) wanted s.now) }
    ensures around_unchanged { around.new ≡ around.old }
{
    let (count, past) = c.number(s)?;
    if count == 0 {
        return Err(Refusal::Layout);
    }
    let rest = c.after(s, past);
    let (rule, behind) = take_head(past, rest, around, names, levels, wanted)?;
    take_arguments(
        behind,
        past.after(rest, behind),
        around,
        names,
        levels,
        rule,
        count - 1,
    )
}

// The head of an application, where `levels` levels are left for it: a rung word, or the function that makes a bit.
#[cycle(taking)]
fn take_head(
    c: Cursor,
    s: &[u8],
    around: &mut [u8],
    names: u32,
    levels: u32,
    wanted: Wanted,
) -> Read<Rule>
    requires { (c.at + length s.now ≤ most_image) × (names ≤ length around.old) }
    ensures value { result ≡ rule_at (c.at + length s.now) (take_head names levels around.old wanted s.now) }
    ensures around_unchanged { around.new ≡ around.old }
{
    if levels == 0 {
        return Err(Refusal::Layout);
    }
    let (tag, past) = c.number(s)?;
    let rest = c.after(s, past);
    match tag {
        2 => take_bit(past, rest, around, names, levels - 1, wanted),
        3 => take_word(past, rest, wanted),
        _ => Err(Refusal::Layout),
    }
}

// A function's name, and its body, which is a program that the name is around.
#[cycle(taking)]
fn take_bit(
    c: Cursor,
    s: &[u8],
    around: &mut [u8],
    names: u32,
    levels: u32,
    wanted: Wanted,
) -> Read<Rule>
    requires { (c.at + length s.now ≤ most_image) × (names ≤ length around.old) }
    ensures value { result ≡ rule_at (c.at + length s.now) (take_bit names levels around.old wanted s.now) }
    ensures around_unchanged { around.new ≡ around.old }
{
    let (n, past) = c.number_below(s, names)?;
    let i = n as usize;
    let before = mem::replace(&mut around[i], 1);
    let body = take_tree(
        past,
        c.after(s, past),
        around,
        names,
        levels,
        Wanted::Program,
    );
    around[i] = before;
    let end = body?;
    let Some(rule) = Rule::of_bit(wanted) else {
        return Err(Refusal::Layout);
    };
    Ok((rule, end))
}

// So many arguments, as the rule asks for them.
#[cycle(taking)]
fn take_arguments(
    c: Cursor,
    s: &[u8],
    around: &mut [u8],
    names: u32,
    levels: u32,
    rule: Rule,
    count: u32,
) -> Result<Cursor, Refusal>
    requires { (c.at + length s.now ≤ most_image) × (names ≤ length around.old) }
    ensures value { result ≡ taken_at (c.at + length s.now) (take_arguments (take_tree names levels around.old) (Some rule) count s.now) }
    ensures around_unchanged { around.new ≡ around.old }
{
    if !rule.takes_count(count) {
        return Err(Refusal::Layout);
    }
    let past = take_tree(c, s, around, names, levels, rule.first)?;
    take_all(
        past,
        c.after(s, past),
        around,
        names,
        levels,
        rule.others,
        count - 1,
    )
}

// So many trees, each of which is what is wanted.
#[cycle(taking)]
fn take_all(
    c: Cursor,
    s: &[u8],
    around: &mut [u8],
    names: u32,
    levels: u32,
    wanted: Wanted,
    count: u32,
) -> Result<Cursor, Refusal>
    requires { (c.at + length s.now ≤ most_image) × (names ≤ length around.old) }
    ensures value { result ≡ taken_at (c.at + length s.now) (take_all count (take_tree names levels around.old wanted) s.now) }
    ensures around_unchanged { around.new ≡ around.old }
{
    let mut here = c;
    for _ in 0..count {
        here = take_tree(here, c.after(s, here), around, names, levels, wanted)?;
    }
    Ok(here)
}

// Whether what is behind the head is a program, every bit of which is in scope, and the image ends there; `s` is the image from there on.
pub fn is_program(c: Cursor, s: &[u8], names: u32) -> bool
    requires { (c.at + length s.now ≤ most_image) × (names ≤ most_names) }
    ensures { Tells names s.now result }
{
    let mut around = [0u8; Name::MOST as usize];
    let Ok(past) = take_tree(
        c,
        s,
        &mut around,
        names,
        Cursor::MOST_NESTING,
        Wanted::Program,
    ) else {
        return false;
    };
    c.after(s, past).is_empty()
}
