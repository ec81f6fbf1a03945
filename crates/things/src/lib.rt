// What the table stands for: trees and syntax objects. A syntax value is its object.
#![tactic(auto)]

ghost use Rattle.std.specs.Prelude.{◌≡◌, ℕ, ◌+◌, ◌≤◌, min, length};
ghost use Rattle.things.specs.Turning.{Turnable, Turned};
ghost use Rattle.things.specs.Making.{Roomy, Stored, StoredObject, Linkable, Linked, Closable, Closed};
ghost use Rattle.things.specs.Measuring.{Seen, SeenP, Measured, MeasuredP, MeasuredL};
ghost use Rattle.table.specs.Sizes.{node_size, most_size};

use scopes::Name;
use table::{Body, Cell, Node, Object, Sets};

// A tree's size, its weight as a syntax object (0 where it is none), and its nesting. Size and weight are MOST for all that is larger: a
// charge of so much is over any budget.
#[derive(Clone, Copy)]
pub struct Extent {
    pub size: u32,
    pub weight: u32,
    pub nesting: u32,
}

impl Extent {
    pub const MOST: u32 = table::MOST_BUDGET + 1;
}

// What was made: where it lies, and the first free word after it.
#[derive(Clone, Copy)]
pub struct Made {
    pub at: u32,
    pub top: u32,
}

fn sum(a: u32, b: u32) -> u32
    requires { (a ≤ most_size) × (b ≤ most_size) }
    ensures { result ≡ min most_size (a + b) }
{
    Extent::MOST.min(a + b)
}

// ---- measuring

// Of a chain.
pub fn measure_parts(table: &[u32], c: u32) -> Extent
    requires { SeenP table.now c }
    ensures { MeasuredP table.now c result }
{
    if c == 0 {
        return Extent {
            size: 0,
            weight: 0,
            nesting: 0,
        };
    }
    let x = table::get_cell(table, c);
    Extent {
        size: x.size,
        weight: x.weight,
        nesting: x.nesting,
    }
}

// Of an application or list value, by its chain.
fn measure_list(table: &[u32], c: u32) -> Extent
    requires { SeenP table.now c }
    ensures { MeasuredL table.now c result }
{
    let m = measure_parts(table, c);
    Extent {
        size: sum(1, m.size),
        weight: 0,
        nesting: m.nesting + 1,
    }
}

pub fn measure(table: &[u32], i: u32) -> Extent
    requires { Seen table.now i }
    ensures { Measured table.now i result }
{
    let n = table::get_node(table, i);
    match n.tag {
        Node::SYMBOL..=Node::RUNG_WORD => Extent {
            size: 1,
            weight: 1,
            nesting: 1,
        },
        Node::LIST => {
            let m = measure_parts(table, n.content);
            Extent {
                size: 1,
                weight: sum(1, m.weight),
                nesting: m.nesting + 1,
            }
        }
        Node::APPLICATION | Node::LIST_VALUE => measure_list(table, n.content),
        Node::FUNCTION => {
            let b = table::get_body(table, i);
            Extent {
                size: sum(1, b.size),
                weight: 0,
                nesting: b.nesting + 1,
            }
        }
        _ => Extent {
            size: 1,
            weight: 0,
            nesting: 1,
        },
    }
}

// ---- making, at the first free word

// A variable, application, list value or atom as a value.
pub fn make(table: &mut [u32], top: u32, node: Node) -> Made
    requires { Roomy table.old top node_size }
    ensures { Stored table.old table.new top node result.at result.top }
{
    table::put_node(table, top, node);
    Made {
        at: top,
        top: top + Node::WORDS,
    }
}

// A syntax object.
pub fn make_object(table: &mut [u32], top: u32, node: Node, sets: Sets) -> Made
    requires { Roomy table.old top node_size }
    ensures { StoredObject table.old table.new top node sets result.at result.top }
{
    table::put_object(table, top, Object { node, sets });
    Made {
        at: top,
        top: top + Node::WORDS,
    }
}

// The function of that name with the body b.
pub fn make_function(table: &mut [u32], top: u32, name: Name, b: u32) -> Made
    requires { Closable table.old top b }
    ensures { Closed table.old table.new top name.0 b result.at result.top }
{
    let m = measure(table, b);
    table::put_function(
        table,
        top,
        name,
        Body {
            at: b,
            size: m.size,
            nesting: m.nesting,
        },
    );
    Made {
        at: top,
        top: top + Node::WORDS,
    }
}

// The chain of a thing and then others.
pub fn link(table: &mut [u32], top: u32, head: u32, tail: u32) -> Made
    requires { Linkable table.old top head tail }
    ensures { Linked table.old table.new top head tail result.at result.top }
{
    let m = measure(table, head);
    let n = measure_parts(table, tail);
    table::put_cell(
        table,
        top,
        Cell {
            head,
            tail,
            weight: sum(m.weight, n.weight),
            size: sum(m.size, n.size),
            nesting: m.nesting.max(n.nesting),
        },
    );
    Made {
        at: top,
        top: top + Cell::WORDS,
    }
}

// The chain c with its last part first.
pub fn turn(table: &mut [u32], top: u32, c: u32) -> Made
    requires { Turnable table.old top c }
    ensures { Turned table.old table.new top c result.at result.top }
{
    let mut end = top;
    let mut from = c;
    let mut at = 0;
    while from != 0 {
        let x = table::get_cell(table, from);
        let m = link(table, end, x.head, at);
        end = m.top;
        from = x.tail;
        at = m.at;
    }
    Made { at, top: end }
}
