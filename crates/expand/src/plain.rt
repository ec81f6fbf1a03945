// Document 01, 'Expanding': an identifier, and the forms that expand no part.
#![tactic(auto, using(crate::proofs::Leaves::laws))]

ghost use Rattle.std.specs.Prelude.{◌≤◌, length};
ghost use Rattle.store.specs.Sizes.{held_size};
ghost use Rattle.parse.specs.Parsing.{unpaid};
ghost use Rattle.expand.specs.Leaves.{ReadyName, ExpandedName, ReadyTail, ExpandedQuote, ExpandedSyntax, ReadyPruned, Pruned};

use crate::{Surroundings, lists};
use environment::Meaning;
use refusals::Refusal;
use steps::{Out, State, Stop};
use store::carried;

// An identifier in expression place.
pub fn reference(
    table: &[u32],
    store: &[u64],
    s: State,
    i: u32,
    at: Surroundings,
) -> Result<Out, Stop>
    requires { ReadyName table.now store.now (unpaid s) i at }
    ensures { ExpandedName at store.now table.now s i result }
{
    match environment::meaning_of(table, store, s.bindings, i, at.phase, at.meanings, at.stops) {
        Meaning::Variable(v) => Ok(Out { at: v, state: s }),
        Meaning::Unknown => s.refuse(Refusal::NoMeaning),
        Meaning::Unclear(rivals) => s.ambiguous(rivals),
        _ => s.refuse(Refusal::NoRule),
    }
}

// (quote d), i, by its parts after the head: unchanged.
pub fn quote(table: &[u32], s: State, i: u32, head: u32, tail: u32) -> Result<Out, Stop>
    requires { ReadyTail table.now (unpaid s) i head tail }
    ensures { ExpandedQuote table.now s i tail result }
{
    match forms::one_part(table, tail) {
        Some(_) => Ok(Out { at: i, state: s }),
        None => s.refuse(Refusal::NoRule),
    }
}

// (syntax s), i, by its head and its parts after the head.
pub fn syntax_form(
    table: &mut [u32],
    store: &[u64],
    s: State,
    i: u32,
    head: u32,
    tail: u32,
    at: Surroundings,
) -> Result<Out, Stop>
    requires { ReadyTail table.old (unpaid s) i head tail × (held_size ≤ length store.now) }
    ensures { ExpandedSyntax at.phase store.now table.old table.new s i head tail result }
{
    match forms::one_part(table, tail) {
        Some(x) => pruned(table, store, s, i, head, x, at.phase),
        None => s.refuse(Refusal::NoRule),
    }
}

pub fn pruned(
    table: &mut [u32],
    store: &[u64],
    s: State,
    i: u32,
    head: u32,
    x: u32,
    phase: u32,
) -> Result<Out, Stop>
    requires { ReadyPruned table.old (unpaid s) i head x × (held_size ≤ length store.now) }
    ensures { Pruned phase store.now table.old table.new s i head x result }
{
    let set = carried::get(store).prunable;
    let o = scoping::prune_from(table, s, x, phase, set)?;
    lists::two_list(table, o.state, i, head, o.at)
}
