// Document 01, 'Expanding' and 'Parsing and evaluating', and request T-08. Expanding and evaluating call each other with the remaining budget
// falling; the unit of an entry pays for what the entry itself makes. All that calls back stands in this file: a cycle of calls over several
// modules has their names in the name of its proof, which has no room for them.
#![tactic(auto)]

mod lists;
mod plain;
mod rewriting;

ghost use Rattle.scopes.specs.Sets.{scopes_of};
ghost use Rattle.parse.specs.Parsing.{unpaid};
ghost use Rattle.expand.specs.InPlace.{ReadyDefined, Defined, ReadyMacro, Rewritten};
ghost use Rattle.expand.specs.Values.{ReadyValue, GivesValue, ReadyTranscribed, Transcribes};
ghost use Rattle.expand.specs.Cycle.{ReadyToExpand, ReadyParts, ReadyChain, ReadyNext, Expanded, ExpandedInside, ExpandedNext, ExpandedEntry, ExpandedList, ExpandedApplication, ExpandedParts, ExpandedMacro, ReadyForm, ReadyLet, ReadyFunction, ReadyAbstraction, ReadyBinding, ReadyRhs, ExpandedLambda, ExpandedFunction, ExpandedAbstraction, ExpandedLetSyntax, OnwardBinding, OnwardRhs};
ghost use Rattle.expand.specs.Evaluation.{ReadyToEvaluate, ReadyApplication, ReadyCall, ReadyEach, ReadyApply, ReadyWithin, Evaluates, Forms, Applies, Calls, Gathers, Does, DoesWithin};

use crate::rewriting::Next;
use applying::Values;
use environment::{Meaning, Place};
use refusals::Refusal;
use scopes::{Name, ScopeSet};
use scoping::Binder;
use steps::{Out, State, Stop};
use store::carried;
use store::carried::Carried;
use table::Node;

// Where an object is expanded.
#[derive(Clone, Copy)]
pub struct Surroundings {
    // Entries to spare.
    pub entries: u32,
    pub phase: u32,
    // The index of the meanings that names have.
    pub meanings: u32,
    // The index of the stops of a local expansion, 0 where there are none.
    pub stops: u32,
}

// ---- entries

#[cycle(expanding)]
pub fn expand(
    table: &mut [u32],
    store: &mut [u64],
    s: State,
    i: u32,
    at: Surroundings,
) -> Result<Out, Stop>
    requires { ReadyToExpand table.old store.old s i at }
    ensures { Expanded at store.old store.new table.old table.new s i result }
{
    let t = s.enter(at.entries)?;
    let entries = at.entries - 1;
    entry(table, store, t, i, Surroundings { entries, ..at })
}

// An expansion of its own: with that set prunable and no use scopes yet, and afterwards with both sets of before.
#[cycle(expanding)]
fn inside(
    table: &mut [u32],
    store: &mut [u64],
    s: State,
    i: u32,
    at: Surroundings,
    set: ScopeSet,
) -> Result<Out, Stop>
    requires { ReadyToExpand table.old store.old s i at }
    ensures { ExpandedInside at store.old store.new table.old table.new s (scopes_of set) i result }
{
    let before = carried::get(store);
    carried::put(
        store,
        Carried {
            prunable: set,
            uses: ScopeSet::empty(),
        },
    );
    let r = expand(table, store, s, i, at);
    carried::put(store, before);
    r
}

// A body, its scope being prunable there.
#[cycle(expanding)]
fn inner(table: &mut [u32], store: &mut [u64], n: Next, at: Surroundings) -> Result<Out, Stop>
    requires { ReadyNext table.old store.old n at }
    ensures { ExpandedNext at store.old store.new table.old table.new n result }
{
    let prunable = carried::get(store).prunable.add(n.scope);
    let meanings = n.meanings;
    inside(
        table,
        store,
        n.state,
        n.at,
        Surroundings { meanings, ..at },
        prunable,
    )
}

// The entry charged.
#[cycle(expanding)]
fn entry(
    table: &mut [u32],
    store: &mut [u64],
    s: State,
    i: u32,
    at: Surroundings,
) -> Result<Out, Stop>
    requires { ReadyToExpand table.old store.old (unpaid s) i at }
    ensures { ExpandedEntry at store.old store.new table.old table.new s i result }
{
    let n = table::get_node(table, i);
    match n.tag {
        Node::LIST => list(table, store, s, i, n.content, at),
        Node::SYMBOL => plain::reference(table, store, s, i, at),
        _ => Ok(Out { at: i, state: s }),
    }
}

// The list i of the chain c, by its head's meaning.
#[cycle(expanding)]
fn list(
    table: &mut [u32],
    store: &mut [u64],
    s: State,
    i: u32,
    c: u32,
    at: Surroundings,
) -> Result<Out, Stop>
    requires { ReadyChain table.old store.old (unpaid s) i c at }
    ensures { ExpandedList at store.old store.new table.old table.new s i c result }
{
    if c == 0 {
        return s.refuse(Refusal::NoRule);
    }
    let x = table::get_cell(table, c);
    match environment::meaning_of(
        table,
        store,
        s.bindings,
        x.head,
        at.phase,
        at.meanings,
        at.stops,
    ) {
        Meaning::Lambda => lambda(table, store, s, i, x.head, x.tail, at),
        Meaning::LetSyntax => let_syntax(table, store, s, x.tail, at),
        Meaning::Quote => plain::quote(table, s, i, x.head, x.tail),
        Meaning::Syntax => plain::syntax_form(table, store, s, i, x.head, x.tail, at),
        Meaning::Variable(_) | Meaning::Unknown => application(table, store, s, i, c, at),
        Meaning::Macro(v) => macro_use(table, store, s, i, v, at),
        Meaning::Stopped => Ok(Out { at: i, state: s }),
        Meaning::Unclear(rivals) => s.ambiguous(rivals),
    }
}

// ---- applications

#[cycle(expanding)]
fn application(
    table: &mut [u32],
    store: &mut [u64],
    s: State,
    i: u32,
    c: u32,
    at: Surroundings,
) -> Result<Out, Stop>
    requires { ReadyChain table.old store.old (unpaid s) i c at }
    ensures { ExpandedApplication at store.old store.new table.old table.new s i c result }
{
    let o = parts(table, store, s, c, at)?;
    lists::listed(table, o.state, i, o.at)
}

// The parts of the chain c, from left to right: what they become as a chain, made with the last first, and turned round.
#[cycle(expanding)]
fn parts(
    table: &mut [u32],
    store: &mut [u64],
    s: State,
    c: u32,
    at: Surroundings,
) -> Result<Out, Stop>
    requires { ReadyParts table.old store.old s c at }
    ensures { ExpandedParts at store.old store.new table.old table.new s c result }
{
    let mut t = s;
    let mut from = c;
    let mut turned: u32 = 0;
    while from != 0 {
        let x = table::get_cell(table, from);
        let set = carried::get(store).prunable;
        let o = inside(table, store, t, x.head, at, set)?;
        let m = things::link(table, o.state.top, o.at, turned);
        t = o.state.raised(m.top);
        from = x.tail;
        turned = m.at;
    }
    let chain = things::turn(table, t.top, turned);
    Ok(Out {
        at: chain.at,
        state: t.raised(chain.top),
    })
}

// ---- (lambda id body), i

// By its head and its parts after the head.
#[cycle(expanding)]
fn lambda(
    table: &mut [u32],
    store: &mut [u64],
    s: State,
    i: u32,
    head: u32,
    tail: u32,
    at: Surroundings,
) -> Result<Out, Stop>
    requires { ReadyForm table.old store.old (unpaid s) i head tail at }
    ensures { ExpandedLambda at store.old store.new table.old table.new s i head tail result }
{
    let Some((id, body)) = forms::two_parts(table, tail) else {
        return s.refuse(Refusal::NoRule);
    };
    if !forms::is_identifier(table, id) {
        return s.refuse(Refusal::NoRule);
    }
    function(table, store, s, i, head, id, body, at)
}

#[cycle(expanding)]
fn function(
    table: &mut [u32],
    store: &mut [u64],
    s: State,
    i: u32,
    head: u32,
    id: u32,
    body: u32,
    at: Surroundings,
) -> Result<Out, Stop>
    requires { ReadyFunction table.old store.old (unpaid s) i head id body at }
    ensures { ExpandedFunction at store.old store.new table.old table.new s i head id body result }
{
    let b = scoping::bind_fresh(table, store, s, id, at.phase)?;
    abstraction(table, store, i, head, b, body, at)
}

// With the new binder.
#[cycle(expanding)]
fn abstraction(
    table: &mut [u32],
    store: &mut [u64],
    i: u32,
    head: u32,
    b: Binder,
    body: u32,
    at: Surroundings,
) -> Result<Out, Stop>
    requires { ReadyAbstraction table.old store.old b i head body at }
    ensures { ExpandedAbstraction at store.old store.new table.old table.new b i head body result }
{
    let n = rewriting::scoped(table, b.state, b, Meaning::VARIABLE, b.at, body, at)?;
    let o = inner(table, store, n, at)?;
    lists::three_list(table, o.state, i, head, b.at, o.at)
}

// ---- (let-syntax id rhs body)

// By its parts after the head.
#[cycle(expanding)]
fn let_syntax(
    table: &mut [u32],
    store: &mut [u64],
    s: State,
    tail: u32,
    at: Surroundings,
) -> Result<Out, Stop>
    requires { ReadyLet table.old store.old (unpaid s) tail at }
    ensures { ExpandedLetSyntax at store.old store.new table.old table.new s tail result }
{
    let Some((id, right, body)) = forms::three_parts(table, tail) else {
        return s.refuse(Refusal::NoRule);
    };
    if !forms::is_identifier(table, id) {
        return s.refuse(Refusal::NoRule);
    }
    let n = bind(table, store, s, id, right, body, at)?;
    inner(table, store, n, at)
}

#[cycle(expanding)]
fn bind(
    table: &mut [u32],
    store: &mut [u64],
    s: State,
    id: u32,
    right: u32,
    body: u32,
    at: Surroundings,
) -> Result<Next, Stop>
    requires { ReadyBinding table.old store.old s id right body at }
    ensures { OnwardBinding at store.old store.new table.old table.new s id right body result }
{
    let b = scoping::bind_fresh(table, store, s, id, at.phase)?;
    rhs(table, store, b, right, body, at)
}

// The right-hand side is expanded one phase up, with core meanings, nothing prunable and no stops. It does not get the scope.
#[cycle(expanding)]
fn rhs(
    table: &mut [u32],
    store: &mut [u64],
    b: Binder,
    right: u32,
    body: u32,
    at: Surroundings,
) -> Result<Next, Stop>
    requires { ReadyRhs table.old store.old b right body at }
    ensures { OnwardRhs at store.old store.new table.old table.new b right body result }
{
    if table::Sets::LAST_PHASE <= at.phase {
        return Err(b.state.stop(Refusal::NoPhase));
    }
    let above = Surroundings {
        entries: at.entries,
        phase: at.phase + 1,
        meanings: 0,
        stops: 0,
    };
    let o = inside(table, store, b.state, right, above, ScopeSet::empty())?;
    defined(table, store, o.state, b, o.at, body, at)
}

// ---- a right-hand side

// The body, in which the binder's name means the value of the expanded right-hand side.
#[cycle(expanding)]
fn defined(
    table: &mut [u32],
    store: &mut [u64],
    s: State,
    b: Binder,
    right: u32,
    body: u32,
    at: Surroundings,
) -> Result<Next, Stop>
    requires { ReadyDefined table.old store.old s b right body at }
    ensures { Defined at store.old store.new table.old table.new s b right body result }
{
    let o = value(table, store, s, right, at.phase + 1, at.entries)?;
    rewriting::scoped(table, o.state, b, Meaning::MACRO, o.at, body, at)
}

// The value of an expanded right-hand side, which is no macro's use.
#[cycle(expanding)]
fn value(
    table: &mut [u32],
    store: &mut [u64],
    s: State,
    i: u32,
    phase: u32,
    entries: u32,
) -> Result<Out, Stop>
    requires { ReadyValue table.old store.old s i }
    ensures { GivesValue entries phase store.old store.new table.old table.new s i result }
{
    let o = parse::parse(table, store, s, i, phase, entries)?;
    evaluate(table, store, o.state, o.at, applying::nowhere(), entries)
}

// ---- a macro's use

#[cycle(expanding)]
fn macro_use(
    table: &mut [u32],
    store: &mut [u64],
    s: State,
    i: u32,
    v: u32,
    at: Surroundings,
) -> Result<Out, Stop>
    requires { ReadyMacro table.old store.old s i v at }
    ensures { ExpandedMacro at store.old store.new table.old table.new s i v result }
{
    let o = rewrite(table, store, s, i, v, at)?;
    expand(table, store, o.state, o.at, at)
}

// What the macro v makes of its use, i.
#[cycle(expanding)]
fn rewrite(
    table: &mut [u32],
    store: &mut [u64],
    s: State,
    i: u32,
    v: u32,
    at: Surroundings,
) -> Result<Out, Stop>
    requires { ReadyMacro table.old store.old s i v at }
    ensures { Rewritten at store.old store.new table.old table.new s i v result }
{
    let m = rewriting::marked(table, store, s, i, at.phase)?;
    let place = Place {
        intro: m.intro,
        phase: at.phase,
        meanings: at.meanings,
        stops: at.stops,
    };
    transcribe(table, store, m.state, v, m.at, place, at.entries)
}

// The macro v applied to the marked form, as an entry would evaluate the application of the two, which is not made and so not tested for
// its nesting.
#[cycle(expanding)]
fn transcribe(
    table: &mut [u32],
    store: &mut [u64],
    s: State,
    v: u32,
    form: u32,
    place: Place,
    entries: u32,
) -> Result<Out, Stop>
    requires { ReadyTranscribed table.old store.old s v form place }
    ensures { Transcribes entries place store.old store.new table.old table.new s v form result }
{
    let t = s.enter(entries)?;
    let c = lists::chain(table, t.top, v, form);
    let o = head(table, store, t.raised(c.top), c.at, place, entries - 1)?;
    rewriting::back(table, o.state, o.at, place.phase, place.intro)
}

// ---- evaluating a tree. `entries` is how many there are to spare

// One entry.
#[cycle(expanding)]
pub fn evaluate(
    table: &mut [u32],
    store: &mut [u64],
    s: State,
    i: u32,
    place: Place,
    entries: u32,
) -> Result<Out, Stop>
    requires { ReadyToEvaluate table.old store.old s i place }
    ensures { Evaluates entries place store.old store.new table.old table.new s i result }
{
    let t = s.enter(entries)?;
    form(table, store, t, i, place, entries - 1)
}

// What its form asks for, the entry charged.
#[cycle(expanding)]
fn form(
    table: &mut [u32],
    store: &mut [u64],
    s: State,
    i: u32,
    place: Place,
    entries: u32,
) -> Result<Out, Stop>
    requires { ReadyToEvaluate table.old store.old s i place }
    ensures { Forms entries place store.old store.new table.old table.new s i result }
{
    let n = table::get_node(table, i);
    match n.tag {
        Node::VARIABLE => s.refuse(Refusal::Unowned),
        Node::APPLICATION => head(table, store, s, n.content, place, entries),
        _ => Ok(Out { at: i, state: s }),
    }
}

// The application of the chain c, by its head.
#[cycle(expanding)]
fn head(
    table: &mut [u32],
    store: &mut [u64],
    s: State,
    c: u32,
    place: Place,
    entries: u32,
) -> Result<Out, Stop>
    requires { ReadyApplication table.old store.old s c place }
    ensures { Applies entries place store.old store.new table.old table.new s c result }
{
    let cell = table::get_cell(table, c);
    let o = evaluate(table, store, s, cell.head, place, entries)?;
    call(table, store, o.state, o.at, cell.tail, place, entries)
}

// The value f applied to what the chain c evaluates to.
#[cycle(expanding)]
fn call(
    table: &mut [u32],
    store: &mut [u64],
    s: State,
    f: u32,
    c: u32,
    place: Place,
    entries: u32,
) -> Result<Out, Stop>
    requires { ReadyCall table.old store.old s f c place }
    ensures { Calls entries place store.old store.new table.old table.new s f c result }
{
    if !applying::applicable_to(table, f, c) {
        return s.refuse(Refusal::NotApplicable);
    }
    if !applying::allowed(table, f, place) {
        return s.refuse(Refusal::OutsideUse);
    }
    let v = values(table, store, s, c, place, entries)?;
    apply(table, store, f, v, place, entries)
}

// The values of the chain c, from left to right.
#[cycle(expanding)]
fn values(
    table: &mut [u32],
    store: &mut [u64],
    s: State,
    c: u32,
    place: Place,
    entries: u32,
) -> Result<Values, Stop>
    requires { ReadyEach table.old store.old s c place }
    ensures { Gathers entries place store.old store.new table.old table.new s c result }
{
    if c == 0 {
        return Ok(Values {
            x: 0,
            y: 0,
            z: 0,
            state: s,
        });
    }
    let cell = table::get_cell(table, c);
    let first = evaluate(table, store, s, cell.head, place, entries)?;
    let others = values(table, store, first.state, cell.tail, place, entries)?;
    Ok(Values {
        x: first.at,
        y: others.x,
        z: others.y,
        state: others.state,
    })
}

// The value f of as many values as it takes.
#[cycle(expanding)]
fn apply(
    table: &mut [u32],
    store: &mut [u64],
    f: u32,
    v: Values,
    place: Place,
    entries: u32,
) -> Result<Out, Stop>
    requires { ReadyApply table.old store.old f v place }
    ensures { Does entries place store.old store.new table.old table.new f v result }
{
    let n = table::get_node(table, f);
    if n.tag == Node::FUNCTION {
        let body = table::get_body(table, f);
        let b = applying::substituted(table, v.state, Name(n.content), body, v.x)?;
        return evaluate(table, store, b.state, b.at, place, entries);
    }
    let p = n.content;
    if p == primitives::EXPAND_IN {
        return within(table, store, v, place, entries);
    }
    if primitives::is_local(p) {
        return asking::answer(table, store, v.state, p, v.x, place);
    }
    applying::apply_primitive(table, v.state, p, v.x, v.y, v.z)
}

// 8: the first value expanded where the macro is used, with the stops of the second alone.
#[cycle(expanding)]
fn within(
    table: &mut [u32],
    store: &mut [u64],
    v: Values,
    place: Place,
    entries: u32,
) -> Result<Out, Stop>
    requires { ReadyWithin table.old store.old v place }
    ensures { DoesWithin entries place store.old store.new table.old table.new v result }
{
    let o = asking::opened(table, store, v.state, v.x, v.y, place)?;
    let at = Surroundings {
        entries,
        phase: place.phase,
        meanings: place.meanings,
        stops: o.stops,
    };
    let x = expand(table, store, o.state, o.at, at)?;
    scoping::flip_in(table, x.state, x.at, place.phase, place.intro)
}
