// The primitives of document 01, 'Parsing and evaluating', on values in the table. Each makes at most a node and
// a cell, which its charge of one unit pays for.
#![tactic(auto)]

ghost use Rattle.std.specs.Prelude.{◌≡◌};
ghost use Rattle.model.specs.Evaluating.{primitive_of, takes, wants_use};
ghost use Rattle.things.specs.Measuring.{SeenP};
ghost use Rattle.primitives.specs.Working.{ReadyToApply, ReadyAll, Does1, Does2, Does3, Works, stx_e, mk_stx, first, rest, linked, same, pick, agreed, AllSyntax};

use table::Node;
use things::Made;

// How many there are. A primitive goes by its number, which is a word of the table: any word is read.
const COUNT: u32 = scopes::LAST_PRIMITIVE + 1;

// How many arguments each takes.
const ARGUMENTS: [u32; COUNT as usize] = [1, 2, 1, 1, 2, 2, 3, 1, 2, 1];

// p is a primitive that takes n arguments.
pub fn takes(p: u32, n: u32) -> bool
    ensures { result ≡ takes (primitive_of p) n }
{
    p < COUNT && n == ARGUMENTS[p as usize]
}

// Request T-08, source document 000's local-value, local-expand and local-binder: those that want a macro use, the last.
pub const MEANING_OF: u32 = 7;

pub const EXPAND_IN: u32 = 8;

pub const BINDER_OF: u32 = 9;

pub const FIRST_LOCAL: u32 = MEANING_OF;

pub fn is_local(p: u32) -> bool
    ensures { result ≡ wants_use (primitive_of p) }
{
    p < COUNT && FIRST_LOCAL <= p
}

// ---- 0 stx-e and 1 mk-stx

fn stx_e(table: &mut [u32], top: u32, x: u32) -> Option<Made>
    requires { ReadyToApply table.old top x }
    ensures { Does1 stx_e table.old table.new top x result }
{
    let o = table::get_node(table, x);
    if Node::LIST < o.tag {
        return None;
    }
    if o.tag == Node::LIST {
        let tag = Node::LIST_VALUE;
        return Some(things::make(table, top, Node { tag, ..o }));
    }
    let tag = Node::ATOM_VALUE + o.tag;
    Some(things::make(table, top, Node { tag, ..o }))
}

// Each part of the chain c is a syntax object. An iterator over its cells, for two walks of all, is no plainer.
fn all_syntax(table: &[u32], c: u32) -> bool
    requires { SeenP table.now c }
    ensures { AllSyntax table.now c result }
{
    let mut at = c;
    while at != 0 {
        let cell = table::get_cell(table, at);
        let o = table::get_node(table, cell.head);
        if Node::LIST < o.tag {
            return false;
        }
        at = cell.tail;
    }
    true
}

fn mk_stx(table: &mut [u32], top: u32, x: u32, y: u32) -> Option<Made>
    requires { ReadyToApply table.old top x × ReadyToApply table.old top y }
    ensures { Does2 mk_stx table.old table.new top x y result }
{
    if Node::LIST < table::get_node(table, y).tag {
        return None;
    }
    let sets = table::get_sets(table, y);
    let o = table::get_node(table, x);
    if o.tag == Node::LIST_VALUE {
        if !all_syntax(table, o.content) {
            return None;
        }
        let tag = Node::LIST;
        return Some(things::make_object(table, top, Node { tag, ..o }, sets));
    }
    let tag = o.tag.checked_sub(Node::ATOM_VALUE)?;
    Some(things::make_object(table, top, Node { tag, ..o }, sets))
}

// ---- 2 first, 3 rest and 4 link

fn first(table: &[u32], top: u32, x: u32) -> Option<Made>
    requires { ReadyToApply table.now top x }
    ensures { Does1 first table.now table.now top x result }
{
    let o = table::get_node(table, x);
    if o.tag != Node::LIST_VALUE {
        return None;
    }
    if o.content == 0 {
        return None;
    }
    let at = table::get_cell(table, o.content).head;
    Some(Made { at, top })
}

fn rest(table: &mut [u32], top: u32, x: u32) -> Option<Made>
    requires { ReadyToApply table.old top x }
    ensures { Does1 rest table.old table.new top x result }
{
    let o = table::get_node(table, x);
    if o.tag != Node::LIST_VALUE {
        return None;
    }
    if o.content == 0 {
        return None;
    }
    let value = Node {
        tag: Node::LIST_VALUE,
        content: table::get_cell(table, o.content).tail,
    };
    Some(things::make(table, top, value))
}

fn link(table: &mut [u32], top: u32, x: u32, y: u32) -> Option<Made>
    requires { ReadyToApply table.old top x × ReadyToApply table.old top y }
    ensures { Does2 linked table.old table.new top x y result }
{
    let o = table::get_node(table, y);
    if o.tag != Node::LIST_VALUE {
        return None;
    }
    let c = things::link(table, top, x, o.content);
    let value = Node {
        tag: Node::LIST_VALUE,
        content: c.at,
    };
    Some(things::make(table, c.top, value))
}

// ---- 5 same and 6 pick

// 1 where kind and content agree, else 0.
fn agree(a: Node, b: Node) -> u32
    ensures { result ≡ agreed a b }
{
    u32::from(a.tag == b.tag && a.content == b.content)
}

fn same(table: &mut [u32], top: u32, x: u32, y: u32) -> Option<Made>
    requires { ReadyToApply table.old top x × ReadyToApply table.old top y }
    ensures { Does2 same table.old table.new top x y result }
{
    let a = table::get_node(table, x);
    let b = table::get_node(table, y);
    if a.tag < Node::ATOM_VALUE {
        return None;
    }
    if b.tag < Node::ATOM_VALUE {
        return None;
    }
    let content = agree(a, b);
    let value = Node {
        tag: Node::NUMBER_VALUE,
        content,
    };
    Some(things::make(table, top, value))
}

fn pick(table: &[u32], top: u32, x: u32, y: u32, z: u32) -> Option<Made>
    requires { ReadyToApply table.now top x }
    ensures { Does3 pick table.now table.now top x y z result }
{
    let o = table::get_node(table, x);
    if o.tag != Node::NUMBER_VALUE {
        return None;
    }
    if o.content == 0 {
        return Some(Made { at: z, top });
    }
    Some(Made { at: y, top })
}

// Primitive p, which wants no macro use, of the values x, y and z, as many of them as it takes.
pub fn primitive(table: &mut [u32], top: u32, p: u32, x: u32, y: u32, z: u32) -> Option<Made>
    requires { ReadyAll table.old top p x y z }
    ensures { Works table.old table.new top p x y z result }
{
    match p {
        0 => stx_e(table, top, x),
        1 => mk_stx(table, top, x, y),
        2 => first(table, top, x),
        3 => rest(table, top, x),
        4 => link(table, top, x, y),
        5 => same(table, top, x, y),
        _ => pick(table, top, x, y, z),
    }
}
