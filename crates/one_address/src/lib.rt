// Condition 3 of the public functions themselves, one after another: a program is expanded at phase 0, what that gives is parsed, and the
// tree is evaluated. Each of the first three functions here calls one of them and says what condition 3 says of its answer. Then the panel check
// in place of evaluating: three calls in turn, and what that says of the addresses.
#![tactic(auto)]

ghost use Rattle.meirhuppa.specs.Endings.{answer_is};
ghost use Rattle.one_address.specs.Keeping.{Keeps, Parses, NeverUnowned};
ghost use Rattle.one_address.specs.Listing.{Lists, Addresses};

use meirhuppa::answers::Answer;
use meirhuppa::{evaluate, expansion, panel, parsing};

// One name is one address in what expanding accepts.
pub fn expand_program(image: &[u8], budget: u32, table: &mut [u32], out: &mut [u8]) -> Answer
    ensures { Keeps image.now out.new (answer_is result) }
{
    expansion::meirhuppa_expand(image, 0, budget, table, out)
}

// Parsing that is not refused, given enough budget, table and output: it writes the tree that condition 3 speaks of.
pub fn parse_program(expanded: &[u8], budget: u32, table: &mut [u32], out: &mut [u8]) -> Answer
    ensures { Parses expanded.now budget table.old out.old out.new (answer_is result) }
{
    parsing::meirhuppa_parse(expanded, budget, table, out)
}

// Evaluating that tree is never refused as open.
pub fn evaluate_program(tree: &[u8], budget: u32, table: &mut [u32], out: &mut [u8]) -> Answer
    ensures { NeverUnowned tree.now (answer_is result) }
{
    evaluate::meirhuppa_evaluate(tree, budget, table, out)
}

// What expanding gave for a program is parsed, and the tree checked: the names in `bits` have one address each.
fn check_expanded(
    expanded: &[u8],
    budget: u32,
    table: &mut [u32],
    tree: &mut [u8],
    bits: &mut [u32],
) -> Answer
    ensures { Lists expanded.now bits.new (answer_is result) }
{
    let p = parsing::meirhuppa_parse(expanded, budget, table, tree);
    if p.code != 0 {
        return p;
    }
    let length = p.length as usize;
    panel::meirhuppa_panel(&tree[..length], bits)
}

// The bits of a program, from its image to their addresses: one address for each name, and one name for each address.
pub fn addresses_of_program(
    image: &[u8],
    budget: u32,
    table: &mut [u32],
    out: &mut [u8],
    tree: &mut [u8],
    bits: &mut [u32],
) -> Answer
    ensures { Addresses bits.new (answer_is result) }
{
    let e = expand_program(image, budget, table, out);
    if e.code != 0 {
        return e;
    }
    let length = e.length as usize;
    check_expanded(&out[..length], budget, table, tree, bits)
}
