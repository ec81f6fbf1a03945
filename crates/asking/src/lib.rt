// Request T-08, source document 000's local-value, local-expand and local-binder: what primitives 7 to 9 do without expanding anything.
#![tactic(auto)]

mod kinds;
mod naming;

ghost use Rattle.std.specs.Prelude.{◌≤◌, length};
ghost use Rattle.parse.specs.Parsing.{unpaid};
ghost use Rattle.scopes.specs.Sets.{Declared};
ghost use Rattle.scoping.specs.Changing.{ReadyObject};
ghost use Rattle.store.specs.Sizes.{held_size};
ghost use Rattle.asking.specs.Answering.{ReadyId, AsksMeaning, FitsToBind, ReadyToAsk, AnswersPaid, Answers};
ghost use Rattle.asking.specs.Pieces.{Flips, ReadyParts, OpensParts, ReadyToOpen, OpensPaid, Opens};

use environment::{Meaning, Place};
use refusals::Refusal;
use scopes::Scope;
use steps::{Out, State, Stop};
use store::carried;

// ---- 7 and 9

// 7: a macro's value.
fn meaning_asked(table: &[u32], store: &[u64], s: State, x: u32, at: Place) -> Result<Out, Stop>
    requires { ReadyId table.now store.now s x at }
    ensures { AsksMeaning at store.now table.now s x result }
{
    match environment::meaning_of(table, store, s.bindings, x, at.phase, at.meanings, at.stops) {
        Meaning::Macro(v) => Ok(Out { at: v, state: s }),
        Meaning::Unclear(rivals) => s.ambiguous(rivals),
        _ => s.refuse(Refusal::WrongArgument),
    }
}

// 9: an identifier without the use scopes.
fn fit_to_bind(table: &mut [u32], store: &[u64], s: State, x: u32, phase: u32) -> Result<Out, Stop>
    requires { ReadyObject table.old s x × (held_size ≤ length store.now) }
    ensures { FitsToBind phase store.now table.old table.new s x result }
{
    let uses = carried::get(store).uses;
    scoping::prune_from(table, s, x, phase, uses)
}

// After the charge.
fn asked(table: &mut [u32], store: &[u64], s: State, p: u32, x: u32, at: Place) -> Result<Out, Stop>
    requires { ReadyToAsk table.old store.now s x at }
    ensures { AnswersPaid p at store.now table.old table.new s x result }
{
    if !kinds::is_id(table, x) {
        return s.refuse(Refusal::WrongArgument);
    }
    if p == primitives::MEANING_OF {
        return meaning_asked(table, store, s, x, at);
    }
    fit_to_bind(table, store, s, x, at.phase)
}

pub fn answer(
    table: &mut [u32],
    store: &[u64],
    s: State,
    p: u32,
    x: u32,
    at: Place,
) -> Result<Out, Stop>
    requires { ReadyToAsk table.old store.now s x at }
    ensures { Answers p at store.now table.old table.new s x result }
{
    let t = s.charge(1)?;
    asked(table, store, t, p, x, at)
}

// ---- 8, up to what is expanded

// The object to expand, with the introduction scope flipped, and its stops.
#[derive(Clone, Copy)]
pub struct Piece {
    pub at: u32,
    pub stops: u32,
    pub state: State,
}

fn flipped(
    table: &mut [u32],
    s: State,
    x: u32,
    phase: u32,
    intro: Scope,
    z: u32,
) -> Result<Piece, Stop>
    requires { ReadyObject table.old s x × Declared intro }
    ensures { Flips phase intro.0 z table.old table.new s x result }
{
    let o = scoping::flip_in(table, s, x, phase, intro)?;
    Ok(Piece {
        at: o.at,
        stops: z,
        state: o.state,
    })
}

// By the object, and the chain of the identifiers. The unit charged before pays for the stops.
fn open_parts(
    table: &mut [u32],
    store: &[u64],
    s: State,
    x: u32,
    c: u32,
    at: Place,
) -> Result<Piece, Stop>
    requires { ReadyParts table.old store.now (unpaid s) x c at }
    ensures { OpensParts at store.now table.old table.new s x c result }
{
    let m = stops::none_yet(table, s.top);
    let t = naming::stop_all(table, store, s, c, at)?;
    flipped(table, t.raised(m.top), x, at.phase, at.intro, m.at)
}

// After the charge.
fn open(
    table: &mut [u32],
    store: &[u64],
    s: State,
    x: u32,
    y: u32,
    at: Place,
) -> Result<Piece, Stop>
    requires { ReadyToOpen table.old store.now (unpaid s) x y at }
    ensures { OpensPaid at store.now table.old table.new s x y result }
{
    if !kinds::is_object(table, x) {
        return Err(s.stop(Refusal::WrongArgument));
    }
    let Some(c) = kinds::ids_in(table, y) else {
        return Err(s.stop(Refusal::WrongArgument));
    };
    open_parts(table, store, s, x, c, at)
}

pub fn opened(
    table: &mut [u32],
    store: &[u64],
    s: State,
    x: u32,
    y: u32,
    at: Place,
) -> Result<Piece, Stop>
    requires { ReadyToOpen table.old store.now s x y at }
    ensures { Opens at store.now table.old table.new s x y result }
{
    let t = s.charge(1)?;
    open(table, store, t, x, y, at)
}
