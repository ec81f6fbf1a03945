// The panel check (document 02, T-01): whether the compiler takes the tree of an image, and the names of its bits in order of address.
#![tactic(auto)]

pub mod refusal;

ghost use Rattle.std.specs.Prelude.{◌≤◌, length};
ghost use Rattle.bits.specs.Meeting.{room, NoMarks};
ghost use Rattle.panel_check.specs.Checking.{NoProgram, Finds, Refuses, Checks, Within, Lists, ListsFrom};

use crate::refusal::PanelRefusal;
use bits::Gathered;
use head::Head;
use numbers::Cursor;
use refusals::Refusal;

// What is known of a program that is accepted: where its root begins, and how many bits it has.
#[derive(Clone, Copy)]
pub struct Program {
    pub root: usize,
    pub bits: u32,
}

// Where the root begins, of an image that is a program, every bit of which is in scope.
fn find_program(image: &[u8]) -> Option<Cursor>
    ensures { Finds image.now result }
{
    if Cursor::MOST_IMAGE < image.len() {
        return None;
    }
    let (h, c) = head::read_head(image, Head::TREE).ok()?;
    let front = Cursor { at: 0 };
    if profile::is_program(c, front.after(image, c), h.names) {
        Some(c)
    } else {
        None
    }
}

// Why an image is refused that is no program: its fault, or 21 where it has none.
fn refusal_of(image: &[u8]) -> PanelRefusal
    requires { NoProgram image.now }
    ensures { Refuses image.now result }
{
    match image::judge_tree(image) {
        Ok(_) => PanelRefusal::Outside,
        Err(f) => PanelRefusal::Base(f),
    }
}

// The tests behind 21, in their order.
#[tactic(auto, unfolding(crate::specs::Checking::within_of))]
fn within(root: usize, g: Gathered) -> Result<Program, PanelRefusal>
    ensures { Within root g result }
{
    if g.twice {
        return Err(PanelRefusal::DrivenTwice);
    }
    if Gathered::ROOM < g.bits {
        return Err(PanelRefusal::TooManyBits);
    }
    Ok(Program { root, bits: g.bits })
}

// The whole check. `marks` has no mark yet; of a program that is accepted it has the points driven afterwards, and `names` the names of
// the bits. The general judgement is asked only where there is no program.
pub fn check(image: &[u8], marks: &mut [u8], names: &mut [u32]) -> Result<Program, PanelRefusal>
    requires { NoMarks marks.old × (room ≤ length names.old) }
    ensures { Checks image.now marks.new names.new result }
{
    let Some(c) = find_program(image) else {
        return Err(refusal_of(image));
    };
    let front = Cursor { at: 0 };
    within(c.at, bits::gather(c, front.after(image, c), marks, names))
}

// Code 20, or the first `count` names into `bits`: how many those are.
fn list_names(bits: &mut [u32], names: &[u32], count: u32) -> Result<u32, PanelRefusal>
    requires { (count ≤ length names.now) × (count ≤ room) }
    ensures { ListsFrom names.now count bits.old bits.new result }
{
    let n = count as usize;
    if bits.len() < n {
        return Err(PanelRefusal::Base(Refusal::TooLong));
    }
    bits[..n].copy_from_slice(&names[..n]);
    Ok(count)
}

// The names of the bits of a tree image, in order of address, into `bits`: how many there are.
pub fn list_bits(image: &[u8], bits: &mut [u32]) -> Result<u32, PanelRefusal>
    ensures { Lists image.now bits.old bits.new result }
{
    let mut marks = [0u8; Gathered::POINTS];
    let mut names = [0u32; Gathered::ROOM as usize];
    let program = check(image, &mut marks, &mut names)?;
    list_names(bits, &names, program.bits)
}
