// Sets written with new numbers: these ascend as the old ones do.
ghost use Rattle.scopes.specs.Sets.{scopes_of};
ghost use Rattle.things.specs.Rep.{sets_of};
ghost use Rattle.text.specs.Placing.{Placed};
ghost use Rattle.ranking.specs.Numbered.{members_by, set_by, sets_by, MembersRoom, RoomFor};

use scopes::{Scope, ScopeSet};
use table::Sets;

// The members, of which there are `count`; the place past them. A while: two things move, and it ends at the last member, not at the last scope.
// sets::put_members writes the numbers as they are: one function of both, lent a closure for the number, would ask of it what the list says here.
fn put_members(out: &mut [u8], at: usize, set: ScopeSet, count: u32, ranks: &[u32]) -> usize
    requires { MembersRoom out.old at ranks.now (scopes_of set) count }
    ensures { Placed out.old at (members_by ranks.now (scopes_of set)) out.new result }
{
    let mut here = at;
    let mut left = count;
    let mut k: u32 = 0;
    while 0 < left {
        k += 1;
        if set.has(Scope(k)) {
            here = numbers::put_number(out, here, ranks[k as usize]);
            left -= 1;
        }
    }
    here
}

// Writes a set at a place, and gives the place past it.
pub fn put_set(out: &mut [u8], at: usize, set: ScopeSet, ranks: &[u32]) -> usize
    requires { RoomFor out.old at ranks.now (set_by ranks.now (scopes_of set)) }
    ensures { Placed out.old at (set_by ranks.now (scopes_of set)) out.new result }
{
    let count = set.count();
    let first = numbers::put_number(out, at, count);
    put_members(out, first, set, count, ranks)
}

// Writes the sets of the three phases.
pub fn put_sets(out: &mut [u8], at: usize, sets: Sets, ranks: &[u32]) -> usize
    requires { RoomFor out.old at ranks.now (sets_by ranks.now (sets_of sets)) }
    ensures { Placed out.old at (sets_by ranks.now (sets_of sets)) out.new result }
{
    let second = put_set(out, at, sets.at0, ranks);
    let third = put_set(out, second, sets.at1, ranks);
    put_set(out, third, sets.at2, ranks)
}
