// Document 01, 'Parsing and evaluating', and request T-08: what a value can be applied to, and where; and what applying it takes that
// evaluates nothing further.
#![tactic(auto)]

ghost use Rattle.std.specs.Prelude.{◌≡◌};
ghost use Rattle.things.specs.Measuring.{Seen, SeenP};
ghost use Rattle.applying.specs.Testing.{Counted, Tested, Sought, TestedP, Permitted};
ghost use Rattle.applying.specs.Doing.{ReadyFunction, Substitutes, ReadyPrimitive, DoesPrimitive};

use environment::Place;
use refusals::Refusal;
use scopes::{Name, Scope};
use steps::{Out, State, Stop};
use table::{Body, Node};

// The values of up to three arguments, and the state after them. No value takes more.
#[derive(Clone, Copy)]
pub struct Values {
    pub x: u32,
    pub y: u32,
    pub z: u32,
    pub state: State,
}

// One more than any value takes.
const TOO_MANY: u32 = 4;

// ---- what can be applied

// How many parts the chain c has, `most` for all that is more.
fn count(table: &[u32], c: u32, most: u32) -> u32
    requires { SeenP table.now c }
    ensures { Counted table.now c most result }
{
    if most == 0 {
        return 0;
    }
    if c == 0 {
        return 0;
    }
    let cell = table::get_cell(table, c);
    count(table, cell.tail, most - 1) + 1
}

// The value f can be applied to n arguments.
fn applicable(table: &[u32], f: u32, n: u32) -> bool
    requires { Seen table.now f }
    ensures { Tested table.now f n result }
{
    let o = table::get_node(table, f);
    match o.tag {
        Node::FUNCTION => n == 1,
        Node::PRIMITIVE_VALUE => primitives::takes(o.content, n),
        _ => false,
    }
}

// The value f can be applied to as many arguments as the chain c has.
pub fn applicable_to(table: &[u32], f: u32, c: u32) -> bool
    requires { Sought table.now f c }
    ensures { TestedP table.now f c result }
{
    applicable(table, f, count(table, c, TOO_MANY))
}

// No macro's use: a right-hand side, or the evaluate job.
pub fn nowhere() -> Place
    ensures { result.intro.0 ≡ 0 }
{
    Place {
        intro: Scope(0),
        phase: 0,
        meanings: 0,
        stops: 0,
    }
}

// The value f can be applied at this place: primitives 7 to 9 only where there is an introduction scope.
pub fn allowed(table: &[u32], f: u32, place: Place) -> bool
    requires { Seen table.now f }
    ensures { Permitted table.now f place result }
{
    if place.intro.0 != 0 {
        return true;
    }
    let o = table::get_node(table, f);
    if o.tag != Node::PRIMITIVE_VALUE {
        return true;
    }
    !primitives::is_local(o.content)
}

// ---- applying

// The body of the function of that name with the value x put in, charged the body's size.
pub fn substituted(table: &mut [u32], s: State, name: Name, body: Body, x: u32) -> Result<Out, Stop>
    requires { ReadyFunction table.old s body x }
    ensures { Substitutes table.old table.new s name.0 body x result }
{
    let t = s.charge(body.size)?;
    let m = substitution::substitute(table, t.top, body.at, name, x);
    if State::MOST_NESTING < things::measure(table, m.at).nesting {
        return t.refuse(Refusal::TooDeep);
    }
    Ok(Out {
        at: m.at,
        state: t.raised(m.top),
    })
}

// Primitive p, one of 0 to 6, of the values x, y and z.
pub fn apply_primitive(
    table: &mut [u32],
    s: State,
    p: u32,
    x: u32,
    y: u32,
    z: u32,
) -> Result<Out, Stop>
    requires { ReadyPrimitive table.old s p x y z }
    ensures { DoesPrimitive table.old table.new s p x y z result }
{
    let u = s.charge(1)?;
    let Some(m) = primitives::primitive(table, u.top, p, x, y, z) else {
        return u.refuse(Refusal::WrongArgument);
    };
    if State::MOST_NESTING < things::measure(table, m.at).nesting {
        return u.refuse(Refusal::TooDeep);
    }
    Ok(Out {
        at: m.at,
        state: u.raised(m.top),
    })
}
