// Lists made anew: the list i, with other parts.
#![tactic(auto, using(crate::proofs::Making::laws))]

ghost use Rattle.expand.specs.Making.{Relistable, Relisted, Chainable, Chained, ReadyList, Lists, ReadyTwo, TwoLists, ReadyThree, ThreeLists};

use refusals::Refusal;
use steps::{Out, State, Stop};
use table::Node;
use things::Made;

// The list i with the parts c in place of its own.
pub fn relist(table: &mut [u32], top: u32, i: u32, c: u32) -> Made
    requires { Relistable table.old top i }
    ensures { Relisted table.old table.new top i c result.at result.top }
{
    let sets = table::get_sets(table, i);
    things::make_object(
        table,
        top,
        Node {
            tag: Node::LIST,
            content: c,
        },
        sets,
    )
}

// The chain of two things.
pub fn chain(table: &mut [u32], top: u32, a: u32, b: u32) -> Made
    requires { Chainable table.old top a b }
    ensures { Chained table.old table.new top a b result.at result.top }
{
    let m = things::link(table, top, b, 0);
    things::link(table, m.top, a, m.at)
}

// The list i with the parts c, tested for its nesting.
pub fn listed(table: &mut [u32], s: State, i: u32, c: u32) -> Result<Out, Stop>
    requires { ReadyList table.old s i c }
    ensures { Lists table.old table.new s i c result }
{
    if State::MOST_NESTING <= things::measure_parts(table, c).nesting {
        return s.refuse(Refusal::TooDeep);
    }
    let m = relist(table, s.top, i, c);
    Ok(Out {
        at: m.at,
        state: s.raised(m.top),
    })
}

// The list i with the two parts a and b.
pub fn two_list(table: &mut [u32], s: State, i: u32, a: u32, b: u32) -> Result<Out, Stop>
    requires { ReadyTwo table.old s i a b }
    ensures { TwoLists table.old table.new s i a b result }
{
    let c = chain(table, s.top, a, b);
    let m = relist(table, c.top, i, c.at);
    Ok(Out {
        at: m.at,
        state: s.raised(m.top),
    })
}

// The list i with the three parts a, b and c, tested for its nesting.
pub fn three_list(table: &mut [u32], s: State, i: u32, a: u32, b: u32, c: u32) -> Result<Out, Stop>
    requires { ReadyThree table.old s i a b c }
    ensures { ThreeLists table.old table.new s i a b c result }
{
    let m = chain(table, s.top, b, c);
    let n = things::link(table, m.top, a, m.at);
    listed(table, s.raised(n.top), i, n.at)
}
