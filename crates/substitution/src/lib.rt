// Substitution into a tree, by making what differs and sharing the rest: atoms, syntax values, other variables and functions of the same
// name stay where they are.
#![tactic(auto)]

ghost use Rattle.substitution.specs.Substituting.{ReadyToSubstitute, ReadyP, ReadyB, ReadyL, Substituted, SubstitutedP, SubstitutedB, SubstitutedL};

use scopes::Name;
use table::Node;
use things::Made;

// The tree i with v for the variable x.
#[cycle(substituting)]
pub fn substitute(table: &mut [u32], top: u32, i: u32, x: Name, v: u32) -> Made
    requires { ReadyToSubstitute table.old top i v }
    ensures { Substituted table.old table.new top i x.0 v result.at result.top }
{
    let n = table::get_node(table, i);
    match n.tag {
        Node::VARIABLE => {
            if n.content == x.0 {
                return Made { at: v, top };
            }
            Made { at: i, top }
        }
        Node::APPLICATION => substitute_list(table, top, n.content, Node::APPLICATION, x, v),
        Node::LIST_VALUE => substitute_list(table, top, n.content, Node::LIST_VALUE, x, v),
        Node::FUNCTION => {
            if x.0 == n.content {
                return Made { at: i, top };
            }
            let body = table::get_body(table, i).at;
            substitute_body(table, top, body, Name(n.content), x, v)
        }
        _ => Made { at: i, top },
    }
}

// The node of that tag whose chain is c with v for x.
#[cycle(substituting)]
fn substitute_list(table: &mut [u32], top: u32, c: u32, tag: u32, x: Name, v: u32) -> Made
    requires { ReadyL table.old top c v }
    ensures { SubstitutedL table.old table.new top c tag x.0 v result.at result.top }
{
    let m = substitute_parts(table, top, c, x, v);
    things::make(table, m.top, Node { tag, content: m.at })
}

// The function of that name whose body is b with v for x.
#[cycle(substituting)]
fn substitute_body(table: &mut [u32], top: u32, b: u32, name: Name, x: Name, v: u32) -> Made
    requires { ReadyB table.old top b v }
    ensures { SubstitutedB table.old table.new top b name.0 x.0 v result.at result.top }
{
    let m = substitute(table, top, b, x, v);
    things::make_function(table, m.top, name, m.at)
}

// The chain c with v for x, made with its last part first and then turned round. The table that holds the chain is written meanwhile, so no
// iterator goes over it.
#[cycle(substituting)]
fn substitute_parts(table: &mut [u32], top: u32, c: u32, x: Name, v: u32) -> Made
    requires { ReadyP table.old top c v }
    ensures { SubstitutedP table.old table.new top c x.0 v result.at result.top }
{
    let mut end = top;
    let mut from = c;
    let mut turned: u32 = 0;
    while from != 0 {
        let cell = table::get_cell(table, from);
        let h = substitute(table, end, cell.head, x, v);
        let m = things::link(table, h.top, h.at, turned);
        end = m.top;
        from = cell.tail;
        turned = m.at;
    }
    things::turn(table, end, turned)
}
