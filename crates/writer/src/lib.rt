// What the table stands for, as bytes of an image: how many, up to a cap, and the bytes themselves. Trees and syntax objects are written
// by one recursion: they differ in the tag that leads a syntax value within a tree.
#![tactic(auto)]

ghost use Rattle.std.specs.Prelude.{◌≡◌, false, ◌+◌, ◌≤◌, min};
ghost use Rattle.numbers.specs.Limits.{most_image};
ghost use Rattle.model.specs.Writing.{stx_bytes, tree_bytes};
ghost use Rattle.things.specs.Measuring.{Seen, SeenP};
ghost use Rattle.writer.specs.Bytes.{prefix, front, written, written_all};
ghost use Rattle.writer.specs.Counting.{PartsAre, NumberIs, LengthIs, Countable, CountableP, Counts, CountsP, CountsObject, longest_prefix, longest_front};
ghost use Rattle.writer.specs.Putting.{Fitting, FittingP, FittingPrefix, FittingObject, Puts, PutsP, PutsObject};

use table::Node;

// Tags of trees in an image. A variable, application and function have 0, 1 and 2.
const ATOM: u32 = 3;

const LIST_VALUE: u32 = 4;

const SYNTAX_VALUE: u32 = 5;

// ---- what is written before the parts

// How many parts a chain has.
fn count(table: &[u32], c: u32) -> u32
    requires { SeenP table.now c }
    ensures { PartsAre table.now c result }
{
    let mut place = c;
    let mut n: u32 = 0;
    while place != 0 {
        let cell = table::get_cell(table, place);
        place = cell.tail;
        n += 1;
    }
    n
}

// The number that comes last before the parts: how many they are, or an atom's or a name's own.
#[tactic(auto, using(crate::proofs::Counting::laws))]
fn number_of(table: &[u32], i: u32) -> u32
    requires { Seen table.now i }
    ensures { NumberIs table.now i result }
{
    let Node { tag, content } = table::get_node(table, i);
    if tag == Node::LIST || tag == Node::APPLICATION || tag == Node::LIST_VALUE {
        count(table, content)
    } else {
        content
    }
}

// Of the bytes before that number: tags, and an object's sets. Where `lead` is set, a syntax value's tag comes before its object.
#[tactic(auto, using(crate::proofs::Counting::laws))]
fn prefix_len(table: &[u32], i: u32, lead: bool) -> usize
    requires { Seen table.now i }
    ensures { LengthIs (prefix lead) longest_prefix table.now i result }
{
    let node = table::get_node(table, i);
    if node.tag <= Node::LIST {
        let n = sets::sets_len(table::get_sets(table, i));
        if lead { n + 2 } else { n + 1 }
    } else if node.tag < Node::ATOM_VALUE {
        1
    } else {
        2
    }
}

fn front_len(table: &[u32], i: u32, lead: bool) -> usize
    requires { Seen table.now i }
    ensures { LengthIs (front lead) longest_front table.now i result }
{
    prefix_len(table, i, lead) + numbers::number_len(number_of(table, i))
}

// ---- written length: n bytes come before; more than the cap is cap + 1

fn more(n: usize, k: usize, cap: usize) -> usize
    requires { (n ≤ cap + 1) × (k ≤ most_image) × (cap ≤ most_image) }
    ensures { result ≡ min (cap + 1) (n + k) }
{
    (n + k).min(cap + 1)
}

#[cycle(thing_lengths)]
fn thing_len(table: &[u32], i: u32, lead: bool, n: usize, cap: usize) -> usize
    requires { Countable table.now i n cap }
    ensures { Counts (written lead) table.now i n cap result }
{
    let m = more(n, front_len(table, i, lead), cap);
    let Node { tag, content } = table::get_node(table, i);
    if tag == Node::LIST {
        things_len(table, content, false, m, cap)
    } else if tag == Node::APPLICATION || tag == Node::LIST_VALUE {
        things_len(table, content, true, m, cap)
    } else if tag == Node::FUNCTION {
        thing_len(table, table::get_body(table, i).at, true, m, cap)
    } else {
        m
    }
}

// Of a chain. Nothing is looked at once the cap is passed: parts are shared, and there may be more of them than could be counted.
#[cycle(thing_lengths)]
fn things_len(table: &[u32], c: u32, lead: bool, n: usize, cap: usize) -> usize
    requires { CountableP table.now c n cap }
    ensures { CountsP (written_all lead) table.now c n cap result }
{
    let mut place = c;
    let mut m = n;
    while place != 0 && m <= cap {
        let cell = table::get_cell(table, place);
        m = thing_len(table, cell.head, lead, m, cap);
        place = cell.tail;
    }
    m
}

// Of a syntax object.
#[tactic(auto, using(crate::proofs::Counting::laws))]
pub fn object_len(table: &[u32], i: u32, n: usize, cap: usize) -> usize
    requires { Countable table.now i n cap }
    ensures { CountsObject stx_bytes table.now i n cap result }
{
    thing_len(table, i, false, n, cap)
}

#[tactic(auto, using(crate::proofs::Counting::laws))]
pub fn tree_len(table: &[u32], i: u32, n: usize, cap: usize) -> usize
    requires { Countable table.now i n cap }
    ensures { Counts tree_bytes table.now i n cap result }
{
    thing_len(table, i, true, n, cap)
}

// ---- writing: each gives the place past what it wrote

// The tag and sets of a syntax object.
fn put_object_prefix(out: &mut [u8], at: usize, table: &[u32], i: u32, tag: u32) -> usize
    requires { FittingPrefix table.now i out.old at tag }
    ensures { Puts (prefix false) table.now i out.old out.new at result }
{
    let mid = numbers::put_number(out, at, tag);
    sets::put_sets(out, mid, table::get_sets(table, i))
}

fn put_prefix(out: &mut [u8], at: usize, table: &[u32], i: u32, lead: bool) -> usize
    requires { Fitting (prefix lead) table.now i out.old at }
    ensures { Puts (prefix lead) table.now i out.old out.new at result }
{
    let tag = table::get_node(table, i).tag;
    if tag <= Node::LIST {
        if lead {
            let mid = numbers::put_number(out, at, SYNTAX_VALUE);
            put_object_prefix(out, mid, table, i, tag)
        } else {
            put_object_prefix(out, at, table, i, tag)
        }
    } else if tag < Node::LIST_VALUE {
        numbers::put_number(out, at, tag - Node::VARIABLE)
    } else if tag == Node::LIST_VALUE {
        numbers::put_number(out, at, LIST_VALUE)
    } else {
        let mid = numbers::put_number(out, at, ATOM);
        numbers::put_number(out, mid, tag - Node::ATOM_VALUE)
    }
}

fn put_front(out: &mut [u8], at: usize, table: &[u32], i: u32, lead: bool) -> usize
    requires { Fitting (front lead) table.now i out.old at }
    ensures { Puts (front lead) table.now i out.old out.new at result }
{
    let mid = put_prefix(out, at, table, i, lead);
    numbers::put_number(out, mid, number_of(table, i))
}

#[cycle(putting)]
fn put_thing(out: &mut [u8], at: usize, table: &[u32], i: u32, lead: bool) -> usize
    requires { Fitting (written lead) table.now i out.old at }
    ensures { Puts (written lead) table.now i out.old out.new at result }
{
    let mid = put_front(out, at, table, i, lead);
    let Node { tag, content } = table::get_node(table, i);
    if tag == Node::LIST {
        put_things(out, mid, table, content, false)
    } else if tag == Node::APPLICATION || tag == Node::LIST_VALUE {
        put_things(out, mid, table, content, true)
    } else if tag == Node::FUNCTION {
        put_thing(out, mid, table, table::get_body(table, i).at, true)
    } else {
        mid
    }
}

// A chain.
#[cycle(putting)]
fn put_things(out: &mut [u8], at: usize, table: &[u32], c: u32, lead: bool) -> usize
    requires { FittingP (written_all lead) table.now c out.old at }
    ensures { PutsP (written_all lead) table.now c out.old out.new at result }
{
    let mut place = c;
    let mut here = at;
    while place != 0 {
        let cell = table::get_cell(table, place);
        here = put_thing(out, here, table, cell.head, lead);
        place = cell.tail;
    }
    here
}

// A syntax object.
#[tactic(auto, using(crate::proofs::Putting::laws))]
pub fn put_object(out: &mut [u8], at: usize, table: &[u32], i: u32) -> usize
    requires { FittingObject stx_bytes table.now i out.old at }
    ensures { PutsObject stx_bytes table.now i out.old out.new at result }
{
    put_thing(out, at, table, i, false)
}

#[tactic(auto, using(crate::proofs::Putting::laws))]
pub fn put_tree(out: &mut [u8], at: usize, table: &[u32], i: u32) -> usize
    requires { Fitting tree_bytes table.now i out.old at }
    ensures { Puts tree_bytes table.now i out.old out.new at result }
{
    put_thing(out, at, table, i, true)
}
