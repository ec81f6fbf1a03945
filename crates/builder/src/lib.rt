// Building in the table what an image holds, by a second reading of its bytes: they have been judged, so that no fault can be met.
#![tactic(auto)]

ghost use Rattle.std.specs.Prelude.{◌+◌};
ghost use Rattle.builder.specs.Reads.{ObjectRead, ObjectsRead, TreeRead, TreesRead, AtomRead, FunctionRead, ListRead};
ghost use Rattle.builder.specs.Fronts.{NumberHere, NumberRead, FrontHere, FrontRead};
ghost use Rattle.builder.specs.Building.{Judged, JudgedAll, Builds, BuildsAll, StoredLeaf};
ghost use Rattle.things.specs.Making.{Roomy};
ghost use Rattle.table.specs.Sizes.{node_size};

use numbers::Cursor;
use scopes::Name;
use table::{Node, Sets};

// What was built: where it lies, the first free word after it, and the place past its bytes in the image.
#[derive(Clone, Copy)]
pub struct Built {
    pub at: u32,
    pub top: u32,
    pub past: usize,
}

// An object up to its parts.
#[derive(Clone, Copy)]
pub struct Front {
    pub tag: u32,
    pub sets: Sets,
    pub number: u32,
    pub past: usize,
}

// Tags of trees in an image; that of a list value is left over.
const VARIABLE: u32 = 0;

const APPLICATION: u32 = 1;

const FUNCTION: u32 = 2;

const ATOM: u32 = 3;

const SYNTAX_VALUE: u32 = 5;

// ---- bytes that are known to be a number, or three sets

fn read_number(image: &[u8], at: usize) -> (u32, usize)
    requires { NumberHere image.now at }
    ensures { NumberRead image.now at result.0 result.1 }
{
    let c = Cursor { at };
    let Ok((n, past)) = c.number(&image[at..]) else {
        unreachable!()
    };
    (n, past.at)
}

// ---- syntax objects

pub fn read_front(image: &[u8], at: usize, scopes: u32) -> Front
    requires { FrontHere image.now at scopes }
    ensures { FrontRead image.now at scopes result.tag result.sets result.number result.past }
{
    let (tag, here) = read_number(image, at);
    let c = Cursor { at: here };
    let Ok((sets, next)) = sets::read_sets(c, &image[here..], scopes) else {
        unreachable!()
    };
    let (number, past) = read_number(image, next.at);
    Front {
        tag,
        sets,
        number,
        past,
    }
}

// The object at a place.
#[cycle(building_objects)]
pub fn object(table: &mut [u32], top: u32, image: &[u8], at: usize, scopes: u32) -> Built
    requires { Judged (ObjectRead scopes) table.old top image.now at scopes }
    ensures { Builds (ObjectRead scopes) table.old table.new top image.now at (at + 1) result }
{
    let x = read_front(image, at, scopes);
    if x.tag == Node::LIST {
        let parts = objects(table, top, image, x.past, scopes, x.number);
        let node = Node {
            tag: x.tag,
            content: parts.at,
        };
        let made = things::make_object(table, parts.top, node, x.sets);
        return Built {
            at: made.at,
            top: made.top,
            past: parts.past,
        };
    }
    let node = Node {
        tag: x.tag,
        content: x.number,
    };
    let made = things::make_object(table, top, node, x.sets);
    Built {
        at: made.at,
        top: made.top,
        past: x.past,
    }
}

// So many of them, as a chain: made with the last first, and turned round.
#[cycle(building_objects)]
fn objects(table: &mut [u32], top: u32, image: &[u8], at: usize, scopes: u32, count: u32) -> Built
    requires { JudgedAll (ObjectsRead scopes) count table.old top image.now at scopes }
    ensures { BuildsAll (ObjectsRead scopes) count table.old table.new top image.now at result }
{
    let mut end = top;
    let mut past = at;
    let mut turned: u32 = 0;
    for _ in 0..count {
        let one = object(table, end, image, past, scopes);
        let m = things::link(table, one.top, one.at, turned);
        end = m.top;
        past = one.past;
        turned = m.at;
    }
    let chain = things::turn(table, end, turned);
    Built {
        at: chain.at,
        top: chain.top,
        past,
    }
}

// ---- trees

// The tree at a place.
#[cycle(building_trees)]
pub fn tree(table: &mut [u32], top: u32, image: &[u8], at: usize, scopes: u32) -> Built
    requires { Judged (TreeRead scopes) table.old top image.now at scopes }
    ensures { Builds (TreeRead scopes) table.old table.new top image.now at (at + 1) result }
{
    let (kind, here) = read_number(image, at);
    if kind == SYNTAX_VALUE {
        return object(table, top, image, here, scopes);
    }
    let (n, past) = read_number(image, here);
    match kind {
        VARIABLE => {
            let node = Node {
                tag: Node::VARIABLE,
                content: n,
            };
            leaf(table, top, node, past)
        }
        ATOM => atom(table, top, image, past, n),
        FUNCTION => function(table, top, image, past, scopes, Name(n)),
        APPLICATION => list(table, top, image, past, scopes, n, Node::APPLICATION),
        _ => list(table, top, image, past, scopes, n, Node::LIST_VALUE),
    }
}

// A node without parts, whose bytes end at `past`.
fn leaf(table: &mut [u32], top: u32, node: Node, past: usize) -> Built
    requires { Roomy table.old top node_size }
    ensures { StoredLeaf table.old table.new top node past result }
{
    let made = things::make(table, top, node);
    Built {
        at: made.at,
        top: made.top,
        past,
    }
}

// An atom as a value; its tag has been read.
fn atom(table: &mut [u32], top: u32, image: &[u8], at: usize, tag: u32) -> Built
    requires { Judged (AtomRead tag) table.old top image.now at 0 }
    ensures { Builds (AtomRead tag) table.old table.new top image.now at at result }
{
    let (content, past) = read_number(image, at);
    let node = Node {
        tag: Node::ATOM_VALUE + tag,
        content,
    };
    leaf(table, top, node, past)
}

// A function; its name has been read.
#[cycle(building_trees)]
fn function(table: &mut [u32], top: u32, image: &[u8], at: usize, scopes: u32, name: Name) -> Built
    requires { Judged (FunctionRead scopes name.0) table.old top image.now at scopes }
    ensures { Builds (FunctionRead scopes name.0) table.old table.new top image.now at at result }
{
    let body = tree(table, top, image, at, scopes);
    let made = things::make_function(table, body.top, name, body.at);
    Built {
        at: made.at,
        top: made.top,
        past: body.past,
    }
}

// An application or list value, as `tag` says; the count of its parts has been read.
#[cycle(building_trees)]
fn list(
    table: &mut [u32],
    top: u32,
    image: &[u8],
    at: usize,
    scopes: u32,
    count: u32,
    tag: u32,
) -> Built
    requires { Judged (ListRead scopes count tag) table.old top image.now at scopes }
    ensures { Builds (ListRead scopes count tag) table.old table.new top image.now at at result }
{
    let parts = trees(table, top, image, at, scopes, count);
    let node = Node {
        tag,
        content: parts.at,
    };
    leaf(table, parts.top, node, parts.past)
}

// So many trees, as a chain, likewise. Its twin `objects` stays: each calls its own reader in a cycle of calls, which a closure lent to one
// function for both would break.
#[cycle(building_trees)]
fn trees(table: &mut [u32], top: u32, image: &[u8], at: usize, scopes: u32, count: u32) -> Built
    requires { JudgedAll (TreesRead scopes) count table.old top image.now at scopes }
    ensures { BuildsAll (TreesRead scopes) count table.old table.new top image.now at result }
{
    let mut end = top;
    let mut past = at;
    let mut turned: u32 = 0;
    for _ in 0..count {
        let one = tree(table, end, image, past, scopes);
        let m = things::link(table, one.top, one.at, turned);
        end = m.top;
        past = one.past;
        turned = m.at;
    }
    let chain = things::turn(table, end, turned);
    Built {
        at: chain.at,
        top: chain.top,
        past,
    }
}
