// Scope sets of an image: a count, then strictly ascending scope numbers.
#![tactic(auto)]

ghost use Rattle.std.specs.Prelude.{◌≡◌, true, ℕ, ◌+◌, ◌-◌, ◌≤◌, ◌<◌, length};
ghost use Rattle.std.proofs.lemmas.List.Edits.{sets};
ghost use Rattle.numbers.specs.Limits.{most_image};
ghost use Rattle.model.specs.Scopes.{members};
ghost use Rattle.model.specs.Reading.{read_members, read_set, read_sets};
ghost use Rattle.model.specs.Writing.{nums_bytes, set_bytes, sets_bytes};
ghost use Rattle.numbers.specs.Answers.{place_at, read_at, seen};
ghost use Rattle.scopes.specs.Sets.{scopes_of, set_scopes};
ghost use Rattle.sets.specs.Writing.{longest_set, longest_sets};
ghost use Rattle.sets.specs.Seeing.{StartsEmpty};
ghost use Rattle.table.specs.Words.{sets_of};

use numbers::{Cursor, Read};
use refusals::Refusal;
use scopes::{Scope, ScopeSet};
use table::Sets;

// `count` members, strictly ascending and at most `scopes`.
fn read_members(c: Cursor, s: &[u8], scopes: u32, count: u32) -> Read<ScopeSet>
    requires { (c.at + length s.now ≤ most_image) × (scopes ≤ set_scopes) }
    ensures { seen scopes_of result ≡ read_at (c.at + length s.now) (read_members count scopes 0 0 s.now) }
{
    let mut here = c;
    let mut last: u32 = 0;
    let mut set = ScopeSet::empty();
    for _ in 0..count {
        let (k, past) = here.number(c.after(s, here))?;
        if k <= last || scopes < k {
            return Err(Refusal::Layout);
        }
        set = set.add(Scope(k));
        last = k;
        here = past;
    }
    Ok((set, here))
}

// The set at a cursor, where `s` is the image from there on, and `scopes` scopes are declared.
pub fn read_set(c: Cursor, s: &[u8], scopes: u32) -> Read<ScopeSet>
    requires { (c.at + length s.now ≤ most_image) × (scopes ≤ set_scopes) }
    ensures { seen scopes_of result ≡ read_at (c.at + length s.now) (read_set scopes s.now) }
{
    let (count, past) = c.number(s)?;
    read_members(past, c.after(s, past), scopes, count)
}

// The sets of phases 0, 1 and 2, one after another.
fn read_each_set(c: Cursor, s: &[u8], scopes: u32) -> Read<Sets>
    requires { (c.at + length s.now ≤ most_image) × (scopes ≤ set_scopes) }
    ensures { seen sets_of result ≡ read_at (c.at + length s.now) (read_sets scopes s.now) }
{
    let (at0, c0) = read_set(c, s, scopes)?;
    let (at1, c1) = read_set(c0, c.after(s, c0), scopes)?;
    let (at2, c2) = read_set(c1, c.after(s, c1), scopes)?;
    Ok((Sets { at0, at1, at2 }, c2))
}

// Whether three empty sets come first.
fn starts_empty(s: &[u8]) -> bool
    ensures { result ≡ true → StartsEmpty s.now }
{
    3 <= s.len() && s[0] == 0 && s[1] == 0 && s[2] == 0
}

// The sets of phases 0, 1 and 2. Those of a program before it is expanded are mostly empty, which is seen at once.
pub fn read_sets(c: Cursor, s: &[u8], scopes: u32) -> Read<Sets>
    requires { (c.at + length s.now ≤ most_image) × (scopes ≤ set_scopes) }
    ensures { seen sets_of result ≡ read_at (c.at + length s.now) (read_sets scopes s.now) }
{
    if starts_empty(s) {
        let none = ScopeSet::empty();
        let sets = Sets {
            at0: none,
            at1: none,
            at2: none,
        };
        return Ok((sets, Cursor { at: c.at + 3 }));
    }
    read_each_set(c, s, scopes)
}

// The place past three sets, for one who judges them and keeps nothing.
pub fn skip_sets(c: Cursor, s: &[u8], scopes: u32) -> Result<Cursor, Refusal>
    requires { (c.at + length s.now ≤ most_image) × (scopes ≤ set_scopes) }
    ensures { result ≡ place_at (c.at + length s.now) (read_sets scopes s.now) }
{
    if starts_empty(s) {
        return Ok(Cursor { at: c.at + 3 });
    }
    let (_, past) = read_each_set(c, s, scopes)?;
    Ok(past)
}

// How many bytes a set takes: those of the count, and one for each member, or two from scope 128 on.
pub fn set_len(set: ScopeSet) -> usize
    ensures { (result ≡ length (set_bytes (scopes_of set))) × (result ≤ longest_set) }
{
    let count = set.count();
    numbers::number_len(count) + count as usize + set.count_long() as usize
}

// The members, of which there are `count`; the place past them.
fn put_members(out: &mut [u8], at: usize, set: ScopeSet, count: u32) -> usize
    requires { (count ≡ length (members (scopes_of set))) × (at + length (nums_bytes (members (scopes_of set))) ≤ length out.old) }
    ensures past { result ≡ at + length (nums_bytes (members (scopes_of set))) }
    ensures bytes { out.new ≡ sets out.old at (nums_bytes (members (scopes_of set))) }
{
    let mut here = at;
    let mut left = count;
    let mut k: u32 = 0;
    while 0 < left {
        k += 1;
        if set.has(Scope(k)) {
            here = numbers::put_number(out, here, k);
            left -= 1;
        }
    }
    here
}

// Writes a set at a place, and gives the place past it.
pub fn put_set(out: &mut [u8], at: usize, set: ScopeSet) -> usize
    requires { at + length (set_bytes (scopes_of set)) ≤ length out.old }
    ensures past { result ≡ at + length (set_bytes (scopes_of set)) }
    ensures bytes { out.new ≡ sets out.old at (set_bytes (scopes_of set)) }
{
    let count = set.count();
    let first = numbers::put_number(out, at, count);
    put_members(out, first, set, count)
}

// How many bytes three sets take.
pub fn sets_len(three: Sets) -> usize
    ensures value { result ≡ length (sets_bytes (sets_of three)) }
    ensures upper_bound { result ≤ longest_sets }
{
    set_len(three.at0) + set_len(three.at1) + set_len(three.at2)
}

// Writes three sets at a place, and gives the place past them.
pub fn put_sets(out: &mut [u8], at: usize, three: Sets) -> usize
    requires { at + length (sets_bytes (sets_of three)) ≤ length out.old }
    ensures past { result ≡ at + length (sets_bytes (sets_of three)) }
    ensures bytes { out.new ≡ sets out.old at (sets_bytes (sets_of three)) }
{
    let second = put_set(out, at, three.at0);
    let third = put_set(out, second, three.at1);
    put_set(out, third, three.at2)
}
