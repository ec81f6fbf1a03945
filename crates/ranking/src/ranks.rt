// The new number of each scope: how many of the remaining ones are at most it.
ghost use Rattle.std.specs.Prelude.{◌<◌, length};
ghost use Rattle.scopes.specs.Sets.{scopes_of, set_scopes};
ghost use Rattle.ranking.specs.Ranks.{Ranked};

use scopes::{Scope, ScopeSet};

// All of them, each at its scope's place.
pub fn fill(remaining: ScopeSet, ranks: &mut [u32])
    requires { set_scopes < length ranks.old }
    ensures { Ranked (scopes_of remaining) ranks.new }
{
    ranks[0] = 0;
    let mut n: u32 = 0;
    for k in 1..=Scope::MOST {
        if remaining.has(Scope(k)) {
            n += 1;
        }
        ranks[k as usize] = n;
    }
}
