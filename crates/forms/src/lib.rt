// What a form looks like: how many parts it has, whether a part is an identifier, and which name that has.
#![tactic(auto, using(crate::proofs::Shapes::laws))]

ghost use Rattle.std.specs.Prelude.{◌≡◌, ℕ, ◌*◌, ◌≤◌, length};
ghost use Rattle.model.specs.Objects.{set_at};
ghost use Rattle.model.specs.Meanings.{form_of};
ghost use Rattle.scopes.specs.Sets.{scopes_of};
ghost use Rattle.things.specs.Rep.{sets_of};
ghost use Rattle.things.specs.Measuring.{Seen, SeenP};
ghost use Rattle.forms.specs.Shapes.{Single, Double, Triple, Identifies};
ghost use Rattle.forms.specs.Names.{Names, formed};
ghost use Rattle.store.specs.Sizes.{binding_size};

use scopes::{Name, ScopeSet, Symbol};
use store::resolving;
use store::rivals::Rivals;
use table::{Node, Sets};

// ---- a chain of exactly so many parts, or not

pub fn one_part(table: &[u32], c: u32) -> Option<u32>
    requires { SeenP table.now c }
    ensures { Single table.now c result }
{
    if c == 0 {
        return None;
    }
    let x = table::get_cell(table, c);
    if x.tail == 0 { Some(x.head) } else { None }
}

pub fn two_parts(table: &[u32], c: u32) -> Option<(u32, u32)>
    requires { SeenP table.now c }
    ensures { Double table.now c result }
{
    if c == 0 {
        return None;
    }
    let x = table::get_cell(table, c);
    let b = one_part(table, x.tail)?;
    Some((x.head, b))
}

pub fn three_parts(table: &[u32], c: u32) -> Option<(u32, u32, u32)>
    requires { SeenP table.now c }
    ensures { Triple table.now c result }
{
    if c == 0 {
        return None;
    }
    let x = table::get_cell(table, c);
    let (a, b) = two_parts(table, x.tail)?;
    Some((x.head, a, b))
}

// ---- identifiers

pub fn is_identifier(table: &[u32], i: u32) -> bool
    requires { Seen table.now i }
    ensures { Identifies table.now i result }
{
    table::get_node(table, i).tag == Node::SYMBOL
}

#[tactic(auto, using(crate::proofs::Names::laws))]
pub fn set_at(sets: Sets, phase: u32) -> ScopeSet
    ensures { scopes_of result ≡ set_at phase (sets_of sets) }
{
    match phase {
        0 => sets.at0,
        1 => sets.at1,
        _ => sets.at2,
    }
}

#[derive(Clone, Copy)]
pub enum Naming {
    Named(Name),
    // Several candidates, none of which contains every other: the two that compete.
    Unclear(Rivals),
    // No identifier.
    Unnamed,
}

// The name at a phase, by the first count bindings of the store.
#[tactic(auto, using(crate::proofs::Names::laws))]
pub fn name_of(table: &[u32], store: &[u64], count: u32, i: u32, phase: u32) -> Naming
    requires { Seen table.now i × (count * binding_size ≤ length store.now) }
    ensures { Names phase store.now count table.now i result }
{
    let n = table::get_node(table, i);
    if n.tag != Node::SYMBOL {
        return Naming::Unnamed;
    }
    let set = set_at(table::get_sets(table, i), phase);
    match resolving::resolve(store, count, Symbol(n.content), set) {
        Ok(name) => Naming::Named(name),
        Err(rivals) => Naming::Unclear(rivals),
    }
}

// ---- the core forms

#[derive(Clone, Copy)]
pub enum Form {
    Lambda,
    LetSyntax,
    Quote,
    Syntax,
    // No core form.
    Other,
}

#[tactic(auto, using(crate::proofs::Names::laws))]
pub fn form_of(name: Name) -> Form
    ensures { formed result ≡ form_of name.0 }
{
    match name.0 {
        0 => Form::Lambda,
        1 => Form::LetSyntax,
        2 => Form::Quote,
        3 => Form::Syntax,
        _ => Form::Other,
    }
}
