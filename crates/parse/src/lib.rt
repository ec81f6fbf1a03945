// Document 01, 'Parsing and evaluating': parsing an expanded object at a phase. The unit of an entry pays for the node that it makes and
// for the cell that the node's whole wants.
#![tactic(auto)]

ghost use Rattle.std.specs.Prelude.{◌≡◌};
ghost use Rattle.parse.specs.Parsing.{unpaid, ReadyToParse, ReadyParts, ReadyForm, ReadyChain, ReadyData, Parsed, ParsedEntry, ParsedName, ParsedList, ParsedForm, ParsedLambda, ParsedFunction, ParsedQuote, ParsedData, ParsedSyntax, ParsedApplication, ParsedParts};

use forms::{Form, Naming};
use refusals::Refusal;
use scopes::Name;
use steps::{Out, State, Stop};
use table::Node;

// One entry.
#[cycle(parsing)]
pub fn parse(
    table: &mut [u32],
    store: &[u64],
    s: State,
    i: u32,
    phase: u32,
    entries: u32,
) -> Result<Out, Stop>
    requires { ReadyToParse table.old store.now s i }
    ensures { Parsed entries phase store.now table.old table.new s i result }
{
    let t = s.enter(entries)?;
    entry(table, store, t, i, phase, entries - 1)
}

// The entry charged.
#[cycle(parsing)]
fn entry(
    table: &mut [u32],
    store: &[u64],
    s: State,
    i: u32,
    phase: u32,
    entries: u32,
) -> Result<Out, Stop>
    requires { ReadyToParse table.old store.now (unpaid s) i }
    ensures { ParsedEntry entries phase store.now table.old table.new s i result }
{
    let n = table::get_node(table, i);
    match n.tag {
        Node::LIST => list(table, store, s, n.content, phase, entries),
        Node::SYMBOL => variable(table, store, s, i, phase),
        tag => {
            let value = Node {
                tag: Node::ATOM_VALUE + tag,
                ..n
            };
            let m = things::make(table, s.top, value);
            Ok(Out {
                at: m.at,
                state: s.raised(m.top),
            })
        }
    }
}

// The variable of an identifier's name.
fn variable(table: &mut [u32], store: &[u64], s: State, i: u32, phase: u32) -> Result<Out, Stop>
    requires { ReadyToParse table.old store.now (unpaid s) i }
    ensures { ParsedName phase store.now table.old table.new s i result }
{
    match forms::name_of(table, store, s.bindings, i, phase) {
        Naming::Unnamed => s.refuse(Refusal::NoRule),
        Naming::Unclear(rivals) => s.ambiguous(rivals),
        Naming::Named(n) => {
            let m = things::make(
                table,
                s.top,
                Node {
                    tag: Node::VARIABLE,
                    content: n.0,
                },
            );
            Ok(Out {
                at: m.at,
                state: s.raised(m.top),
            })
        }
    }
}

// The list of the chain c, by its head's name.
#[cycle(parsing)]
fn list(
    table: &mut [u32],
    store: &[u64],
    s: State,
    c: u32,
    phase: u32,
    entries: u32,
) -> Result<Out, Stop>
    requires { ReadyParts table.old store.now (unpaid s) c }
    ensures { ParsedList entries phase store.now table.old table.new s c result }
{
    if c == 0 {
        return s.refuse(Refusal::NoRule);
    }
    let x = table::get_cell(table, c);
    match forms::name_of(table, store, s.bindings, x.head, phase) {
        Naming::Unclear(rivals) => s.ambiguous(rivals),
        Naming::Unnamed => application(table, store, s, c, phase, entries),
        Naming::Named(n) => form(table, store, s, n, c, x.tail, phase, entries),
    }
}

// The form whose head has that name: its parts after the head, or all of them.
#[cycle(parsing)]
fn form(
    table: &mut [u32],
    store: &[u64],
    s: State,
    head: Name,
    c: u32,
    tail: u32,
    phase: u32,
    entries: u32,
) -> Result<Out, Stop>
    requires { ReadyForm table.old store.now (unpaid s) c tail }
    ensures { ParsedForm entries phase store.now table.old table.new s head.0 c tail result }
{
    match forms::form_of(head) {
        Form::Lambda => lambda(table, store, s, tail, phase, entries),
        Form::LetSyntax => s.refuse(Refusal::NoRule),
        Form::Quote => quote(table, s, tail),
        Form::Syntax => syntax_value(table, s, tail),
        Form::Other => application(table, store, s, c, phase, entries),
    }
}

// (lambda id body), without its head.
#[cycle(parsing)]
fn lambda(
    table: &mut [u32],
    store: &[u64],
    s: State,
    c: u32,
    phase: u32,
    entries: u32,
) -> Result<Out, Stop>
    requires { ReadyParts table.old store.now (unpaid s) c }
    ensures { ParsedLambda entries phase store.now table.old table.new s c result }
{
    let Some((id, body)) = forms::two_parts(table, c) else {
        return s.refuse(Refusal::NoRule);
    };
    match forms::name_of(table, store, s.bindings, id, phase) {
        Naming::Unnamed => s.refuse(Refusal::NoRule),
        Naming::Unclear(rivals) => s.ambiguous(rivals),
        Naming::Named(n) => function(table, store, s, n, body, phase, entries),
    }
}

// The function of that name.
#[cycle(parsing)]
fn function(
    table: &mut [u32],
    store: &[u64],
    s: State,
    name: Name,
    body: u32,
    phase: u32,
    entries: u32,
) -> Result<Out, Stop>
    requires { ReadyToParse table.old store.now (unpaid s) body }
    ensures { ParsedFunction entries phase store.now table.old table.new s name.0 body result }
{
    let o = parse(table, store, s, body, phase, entries)?;
    let m = things::make_function(table, o.state.top, name, o.at);
    Ok(Out {
        at: m.at,
        state: o.state.raised(m.top),
    })
}

// (quote d), without its head: the stripped data.
fn quote(table: &mut [u32], s: State, c: u32) -> Result<Out, Stop>
    requires { ReadyChain table.old (unpaid s) c }
    ensures { ParsedQuote table.old table.new s c result }
{
    let Some(i) = forms::one_part(table, c) else {
        return s.refuse(Refusal::NoRule);
    };
    data(table, s, i)
}

// The object stripped, charged its size.
fn data(table: &mut [u32], s: State, i: u32) -> Result<Out, Stop>
    requires { ReadyData table.old (unpaid s) i }
    ensures { ParsedData table.old table.new s i result }
{
    let t = s.charge(things::measure(table, i).weight)?;
    let m = copying::strip(table, t.top, i);
    Ok(Out {
        at: m.at,
        state: t.raised(m.top),
    })
}

// (syntax s), without its head: the object itself.
fn syntax_value(table: &[u32], s: State, c: u32) -> Result<Out, Stop>
    requires { ReadyChain table.now (unpaid s) c }
    ensures { ParsedSyntax table.now s c result }
{
    let Some(i) = forms::one_part(table, c) else {
        return s.refuse(Refusal::NoRule);
    };
    Ok(Out { at: i, state: s })
}

// The application whose head and arguments are the chain c.
#[cycle(parsing)]
fn application(
    table: &mut [u32],
    store: &[u64],
    s: State,
    c: u32,
    phase: u32,
    entries: u32,
) -> Result<Out, Stop>
    requires { ReadyParts table.old store.now (unpaid s) c }
    ensures { ParsedApplication entries phase store.now table.old table.new s c result }
{
    let o = parts(table, store, s, c, phase, entries)?;
    let whole = Node {
        tag: Node::APPLICATION,
        content: o.at,
    };
    let m = things::make(table, o.state.top, whole);
    Ok(Out {
        at: m.at,
        state: o.state.raised(m.top),
    })
}

// The parts of the chain c in turn: their trees as a chain, made with the last first, and turned round. The table that holds the chain is
// written meanwhile, so no iterator goes over it.
#[cycle(parsing)]
fn parts(
    table: &mut [u32],
    store: &[u64],
    s: State,
    c: u32,
    phase: u32,
    entries: u32,
) -> Result<Out, Stop>
    requires { ReadyParts table.old store.now s c }
    ensures { ParsedParts entries phase store.now table.old table.new s c result }
{
    let mut t = s;
    let mut from = c;
    let mut turned: u32 = 0;
    while from != 0 {
        let x = table::get_cell(table, from);
        let o = parse(table, store, t, x.head, phase, entries)?;
        let m = things::link(table, o.state.top, o.at, turned);
        t = o.state.raised(m.top);
        from = x.tail;
        turned = m.at;
    }
    let chain = things::turn(table, t.top, turned);
    Ok(Out {
        at: chain.at,
        state: t.raised(chain.top),
    })
}
