// The lent table as working memory, in words of 32 bits. An index is the position of a word; word 0 is never used, so that 0 can end a
// chain. What is made is never changed, so that it can be shared.
#![tactic(auto)]

ghost use Rattle.std.specs.Prelude.{◌≡◌, ℕ, ◌+◌, ◌*◌, ◌≤◌, length};
ghost use Rattle.model.specs.Jobs.{cleared};
ghost use Rattle.table.specs.Words.{join, get_word, put_word, get_set, put_set, get_node, put_node, get_sets, put_sets, put_object, get_body, put_function, get_cell, put_cell, get_entry, put_entry};
ghost use Rattle.table.specs.Sizes.{set_size, cell_size, entry_size, node_size, unit_size};

use scopes::{Name, ScopeSet};
use std::array;

// What a unit of budget pays for.
pub const WORDS_PER_UNIT: usize = 40;

// Units of a budget.
pub const MOST_BUDGET: u32 = 4096;

// What lies at an index, without what follows it: an atom's or name's number, or the chain of parts.
#[derive(Clone, Copy)]
pub struct Node {
    pub tag: u32,
    pub content: u32,
}

// A tag stays a number and no enum: it is a word of the lent table, where any number may stand, and reading one can't fail.
impl Node {
    // Syntax objects have the tags of an image.
    pub const SYMBOL: u32 = 0;

    pub const NUMBER: u32 = 1;

    pub const POINT: u32 = 2;

    pub const PRIMITIVE: u32 = 3;

    pub const RUNG_WORD: u32 = 4;

    pub const LIST: u32 = 5;

    // Trees that are no syntax values.
    pub const VARIABLE: u32 = 6;

    pub const APPLICATION: u32 = 7;

    pub const FUNCTION: u32 = 8;

    pub const LIST_VALUE: u32 = 9;

    // An atom as a value: this, and the atom's tag on top.
    pub const ATOM_VALUE: u32 = 10;

    pub const NUMBER_VALUE: u32 = Node::ATOM_VALUE + Node::NUMBER;

    pub const PRIMITIVE_VALUE: u32 = Node::ATOM_VALUE + Node::PRIMITIVE;

    // The words that a node takes with its sets or body, though not every kind fills them.
    pub const WORDS: u32 = 2 + 3 * Sets::WORDS as u32;
}

// The scope sets of phases 0, 1 and 2. A syntax object's node is followed by them.
#[derive(Clone, Copy)]
pub struct Sets {
    pub at0: ScopeSet,
    pub at1: ScopeSet,
    pub at2: ScopeSet,
}

impl Sets {
    pub const LAST_PHASE: u32 = 2;

    // Of the table, for one set: each word of 64 bits is two.
    const WORDS: usize = 2 * ScopeSet::WORDS;

    // The places of the sets in a node.
    const AT0: usize = 2;

    const AT1: usize = Sets::AT0 + Sets::WORDS;

    const AT2: usize = Sets::AT1 + Sets::WORDS;
}

// A syntax object.
#[derive(Clone, Copy)]
pub struct Object {
    pub node: Node,
    pub sets: Sets,
}

// A function's body, with its size as a tree and its nesting. A function's node is followed by it.
#[derive(Clone, Copy)]
pub struct Body {
    pub at: u32,
    pub size: u32,
    pub nesting: u32,
}

// One place of a chain: the thing there, the place after it (0 for none), and three measures from here on: the weight counts the parts as
// syntax objects and the size as trees, where a syntax value is 1. Both are wanted, since a list object and the list value of its content
// share the chain and are charged differently.
#[derive(Clone, Copy)]
pub struct Cell {
    pub head: u32,
    pub tail: u32,
    pub weight: u32,
    pub size: u32,
    pub nesting: u32,
}

impl Cell {
    pub const WORDS: u32 = 5;
}

// An entry of the meanings: where what its name means lies, the entry after it (0 for none), the name, and which kind of meaning it has.
#[derive(Clone, Copy)]
pub struct Entry {
    pub at: u32,
    pub next: u32,
    pub name: Name,
    pub kind: u32,
}

impl Entry {
    // The room of a cell: the last word is not used.
    pub const WORDS: u32 = Cell::WORDS;
}

// A word of a set from its low and high half.
fn joined(low: u32, high: u32) -> u64
    ensures { result ≡ join low high }
{
    u64::from(high) << 32 | u64::from(low)
}

fn get_word(table: &[u32], at: usize) -> u64
    requires { at + 2 ≤ length table.now }
    ensures { result ≡ get_word table.now at }
{
    joined(table[at], table[at + 1])
}

fn put_word(table: &mut [u32], at: usize, word: u64)
    requires { at + 2 ≤ length table.old }
    ensures { table.new ≡ put_word table.old at word }
{
    table[at] = (word % 4294967296) as u32;
    table[at + 1] = (word >> 32) as u32;
}

// The one place that knows how a scope set lies in the table.
fn get_set(table: &[u32], at: usize) -> ScopeSet
    requires { at + set_size ≤ length table.now }
    ensures { result ≡ get_set table.now at }
{
    ScopeSet {
        words: array::from_fn(|k| get_word(table, at + 2 * k)),
    }
}

fn put_set(table: &mut [u32], at: usize, set: ScopeSet)
    requires { at + set_size ≤ length table.old }
    ensures { table.new ≡ put_set table.old at set }
{
    for k in 0..ScopeSet::WORDS {
        put_word(table, at + 2 * k, set.words[k]);
    }
}

pub fn get_node(table: &[u32], at: u32) -> Node
    requires { at + node_size ≤ length table.now }
    ensures { result ≡ get_node table.now at }
{
    let i = at as usize;
    Node {
        tag: table[i],
        content: table[i + 1],
    }
}

pub fn put_node(table: &mut [u32], at: u32, node: Node)
    requires { at + node_size ≤ length table.old }
    ensures { table.new ≡ put_node table.old at node }
{
    let i = at as usize;
    table[i] = node.tag;
    table[i + 1] = node.content;
}

pub fn get_sets(table: &[u32], at: u32) -> Sets
    requires { at + node_size ≤ length table.now }
    ensures { result ≡ get_sets table.now at }
{
    let i = at as usize;
    Sets {
        at0: get_set(table, i + Sets::AT0),
        at1: get_set(table, i + Sets::AT1),
        at2: get_set(table, i + Sets::AT2),
    }
}

fn put_sets(table: &mut [u32], at: u32, sets: Sets)
    requires { at + node_size ≤ length table.old }
    ensures { table.new ≡ put_sets table.old at sets }
{
    let i = at as usize;
    put_set(table, i + Sets::AT0, sets.at0);
    put_set(table, i + Sets::AT1, sets.at1);
    put_set(table, i + Sets::AT2, sets.at2);
}

pub fn put_object(table: &mut [u32], at: u32, object: Object)
    requires { at + node_size ≤ length table.old }
    ensures { table.new ≡ put_object table.old at object }
{
    put_node(table, at, object.node);
    put_sets(table, at, object.sets);
}

pub fn get_body(table: &[u32], at: u32) -> Body
    requires { at + node_size ≤ length table.now }
    ensures { result ≡ get_body table.now at }
{
    let i = at as usize;
    Body {
        at: table[i + 2],
        size: table[i + 3],
        nesting: table[i + 4],
    }
}

// The function of that name.
pub fn put_function(table: &mut [u32], at: u32, name: Name, body: Body)
    requires { at + node_size ≤ length table.old }
    ensures { table.new ≡ put_function table.old at name.0 body }
{
    let i = at as usize;
    table[i] = Node::FUNCTION;
    table[i + 1] = name.0;
    table[i + 2] = body.at;
    table[i + 3] = body.size;
    table[i + 4] = body.nesting;
}

pub fn get_cell(table: &[u32], at: u32) -> Cell
    requires { at + cell_size ≤ length table.now }
    ensures { result ≡ get_cell table.now at }
{
    let i = at as usize;
    Cell {
        head: table[i],
        tail: table[i + 1],
        weight: table[i + 2],
        size: table[i + 3],
        nesting: table[i + 4],
    }
}

pub fn put_cell(table: &mut [u32], at: u32, cell: Cell)
    requires { at + cell_size ≤ length table.old }
    ensures { table.new ≡ put_cell table.old at cell }
{
    let i = at as usize;
    table[i] = cell.head;
    table[i + 1] = cell.tail;
    table[i + 2] = cell.weight;
    table[i + 3] = cell.size;
    table[i + 4] = cell.nesting;
}

pub fn get_entry(table: &[u32], at: u32) -> Entry
    requires { at + entry_size ≤ length table.now }
    ensures { result ≡ get_entry table.now at }
{
    let i = at as usize;
    Entry {
        at: table[i],
        next: table[i + 1],
        name: Name(table[i + 2]),
        kind: table[i + 3],
    }
}

pub fn put_entry(table: &mut [u32], at: u32, entry: Entry)
    requires { at + entry_size ≤ length table.old }
    ensures { table.new ≡ put_entry table.old at entry }
{
    let i = at as usize;
    table[i] = entry.at;
    table[i + 1] = entry.next;
    table[i + 2] = entry.name.0;
    table[i + 3] = entry.kind;
}

// What a job leaves of the table that it was lent: zero in the words that its budget was good for.
pub fn clear(table: &mut [u32], budget: u32)
    requires { unit_size * budget ≤ length table.old }
    ensures { table.new ≡ cleared budget table.old }
{
    table[..budget as usize * WORDS_PER_UNIT].fill(0);
}
