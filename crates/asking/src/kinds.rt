// Which kind an argument is of: a syntax object, an identifier, or a list of identifiers.
ghost use Rattle.things.specs.Measuring.{Seen, SeenP};
ghost use Rattle.asking.specs.Kinds.{IsObject, IsId, AllIds, ListsIds};

use table::Node;

pub fn is_object(table: &[u32], i: u32) -> bool
    requires { Seen table.now i }
    ensures { IsObject table.now i result }
{
    table::get_node(table, i).tag <= Node::LIST
}

pub fn is_id(table: &[u32], i: u32) -> bool
    requires { Seen table.now i }
    ensures { IsId table.now i result }
{
    table::get_node(table, i).tag == Node::SYMBOL
}

// Of a chain. An iterator over its cells, for two walks of all, is no plainer.
fn all_ids(table: &[u32], c: u32) -> bool
    requires { SeenP table.now c }
    ensures { AllIds table.now c result }
{
    let mut k = c;
    while k != 0 {
        let x = table::get_cell(table, k);
        if !is_id(table, x.head) {
            return false;
        }
        k = x.tail;
    }
    true
}

// Their chain.
pub fn ids_in(table: &[u32], i: u32) -> Option<u32>
    requires { Seen table.now i }
    ensures { ListsIds table.now i result }
{
    let n = table::get_node(table, i);
    if n.tag != Node::LIST_VALUE {
        return None;
    }
    if !all_ids(table, n.content) {
        return None;
    }
    Some(n.content)
}
