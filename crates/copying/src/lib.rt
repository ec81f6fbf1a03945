// Syntax objects in the table: their scope sets changed, and their data stripped of sets.
#![tactic(auto)]

ghost use Rattle.std.specs.Prelude.{◌≡◌};
ghost use Rattle.model.specs.Objects.{add_scope, flip_scope, prune_scopes};
ghost use Rattle.model.specs.Trees.{stx, strip};
ghost use Rattle.scopes.specs.Sets.{scopes_of, Declared};
ghost use Rattle.things.specs.Rep.{sets_of};
ghost use Rattle.things.specs.Measuring.{Seen};
ghost use Rattle.copying.specs.Working.{Sound, set_change, sets_change, copying_of};
ghost use Rattle.copying.specs.Copying.{Copyable, Copied};
ghost use Rattle.copying.specs.Reaching.{Reached, ReachedP, CopiedBy, Puttable, Put, PutStripped};
ghost use Rattle.copying.specs.Rows.{CopiedEach, Sized, Row, Chained};

use scopes::{Scope, ScopeSet};
use table::{Cell, Node, Sets};
use things::Made;

// ---- what is done to an object and every part of it

// An enum stays: a type for each act, with an impl of a trait for what is done to a node, is no plainer than a match of four arms.
#[derive(Clone, Copy)]
enum Act {
    Add(Scope),
    Flip(Scope),
    Prune(ScopeSet),
    Strip,
}

// The sets of one phase are changed, or all are stripped away.
#[derive(Clone, Copy)]
struct Work {
    act: Act,
    phase: u32,
}

#[tactic(auto, using(crate::proofs::Working::laws))]
fn change_set(act: Act, set: ScopeSet) -> ScopeSet
    requires { Sound act }
    ensures { scopes_of result ≡ set_change act (scopes_of set) }
{
    match act {
        Act::Add(k) => set.add(k),
        Act::Flip(k) => set.flip(k),
        Act::Prune(prunable) => set.prune(prunable),
        Act::Strip => set,
    }
}

#[tactic(auto, using(crate::proofs::Working::laws))]
fn change_sets(work: Work, sets: Sets) -> Sets
    requires { Sound work.act }
    ensures { sets_of result ≡ sets_change work (sets_of sets) }
{
    match work.phase {
        0 => Sets {
            at0: change_set(work.act, sets.at0),
            ..sets
        },
        1 => Sets {
            at1: change_set(work.act, sets.at1),
            ..sets
        },
        _ => Sets {
            at2: change_set(work.act, sets.at2),
            ..sets
        },
    }
}

#[tactic(auto, using(crate::proofs::Working::laws))]
fn put_stripped(table: &mut [u32], top: u32, node: Node) -> Made
    requires { Puttable table.old top node }
    ensures { PutStripped table.old table.new top node result.at result.top }
{
    let tag = match node.tag {
        Node::LIST => Node::LIST_VALUE,
        atom => Node::ATOM_VALUE + atom,
    };
    things::make(table, top, Node { tag, ..node })
}

// The copy of an atom, or of a list whose parts are copied already.
fn put_copy(table: &mut [u32], top: u32, node: Node, sets: Sets, work: Work) -> Made
    requires { Puttable table.old top node × Sound work.act }
    ensures { Put (copying_of work) table.old table.new top node sets result.at result.top }
{
    match work.act {
        Act::Strip => put_stripped(table, top, node),
        _ => things::make_object(table, top, node, change_sets(work, sets)),
    }
}

// ---- copies in a row

// What was copied: an object has its size as its weight, stripped data as its size, and neither has more of the other.
#[tactic(auto, using(crate::proofs::Rows::laws))]
fn copied_size(table: &[u32], i: u32) -> u32
    requires { Seen table.now i }
    ensures { Sized table.now i result }
{
    let m = things::measure(table, i);
    if m.size < m.weight { m.weight } else { m.size }
}

// The chain of the copies that lie in a row between two words. A cell points down, so the last copy is linked first; its node is its end,
// and its size tells where it begins. So a chain takes no stack, however long it is.
fn link_each(table: &mut [u32], from: u32, end: u32) -> Made
    requires { Row table.old from end }
    ensures { Chained table.old table.new from end result.at result.top }
{
    let mut at: u32 = 0;
    let mut top = end;
    let mut last = end;
    while last != from {
        let i = last - Node::WORDS;
        let size = copied_size(table, i);
        let chain = things::link(table, top, i, at);
        at = chain.at;
        top = chain.top;
        last = last + Cell::WORDS - (Node::WORDS + Cell::WORDS) * size;
    }
    Made { at, top }
}

// ---- the work reaches every part: with each level that it goes down, the levels left fall

#[cycle(copying_objects)]
fn copy_object(table: &mut [u32], top: u32, i: u32, levels: u32, work: Work) -> Made
    requires { Reached levels table.old top i × Sound work.act }
    ensures { CopiedBy (copying_of work) table.old table.new top i result.at result.top }
{
    let node = table::get_node(table, i);
    let sets = table::get_sets(table, i);
    if node.tag != Node::LIST {
        return put_copy(table, top, node, sets, work);
    }
    let end = copy_each(table, top, node.content, levels - 1, work);
    let parts = link_each(table, top, end);
    put_copy(
        table,
        parts.top,
        Node {
            tag: Node::LIST,
            content: parts.at,
        },
        sets,
        work,
    )
}

// The copies of a chain's parts in a row: the first free word after them. The table that holds the chain is written meanwhile, so no
// iterator goes over it.
#[cycle(copying_objects)]
fn copy_each(table: &mut [u32], top: u32, c: u32, levels: u32, work: Work) -> u32
    requires { ReachedP levels table.old top c × Sound work.act }
    ensures { CopiedEach (copying_of work) table.old table.new top c result }
{
    let mut end = top;
    let mut part = c;
    while part != 0 {
        let cell = table::get_cell(table, part);
        let copy = copy_object(table, end, cell.head, levels, work);
        end = copy.top;
        part = cell.tail;
    }
    end
}

fn copy_all(table: &mut [u32], top: u32, i: u32, work: Work) -> Made
    requires { Copyable table.old top i × Sound work.act }
    ensures { CopiedBy (copying_of work) table.old table.new top i result.at result.top }
{
    let levels = things::measure(table, i).nesting;
    copy_object(table, top, i, levels, work)
}

pub fn add_scope(table: &mut [u32], top: u32, i: u32, phase: u32, k: Scope) -> Made
    requires { Copyable table.old top i × Declared k }
    ensures { Copied (λ x. stx (add_scope k.0 phase x)) table.old table.new top i result.at result.top }
{
    let act = Act::Add(k);
    copy_all(table, top, i, Work { act, phase })
}

pub fn flip_scope(table: &mut [u32], top: u32, i: u32, phase: u32, k: Scope) -> Made
    requires { Copyable table.old top i × Declared k }
    ensures { Copied (λ x. stx (flip_scope k.0 phase x)) table.old table.new top i result.at result.top }
{
    let act = Act::Flip(k);
    copy_all(table, top, i, Work { act, phase })
}

pub fn prune_scopes(table: &mut [u32], top: u32, i: u32, phase: u32, prunable: ScopeSet) -> Made
    requires { Copyable table.old top i }
    ensures { Copied (λ x. stx (prune_scopes (scopes_of prunable) phase x)) table.old table.new top i result.at result.top }
{
    let act = Act::Prune(prunable);
    copy_all(table, top, i, Work { act, phase })
}

// The stripped data of an object, as a tree.
pub fn strip(table: &mut [u32], top: u32, i: u32) -> Made
    requires { Copyable table.old top i }
    ensures { Copied strip table.old table.new top i result.at result.top }
{
    let act = Act::Strip;
    copy_all(table, top, i, Work { act, phase: 0 })
}
