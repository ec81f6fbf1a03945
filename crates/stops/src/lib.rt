// Request T-08: the stops of a local expansion, a bit for each name, in words of the lent table. They are known by the index of the first
// word, 0 for no stops.
#![tactic(auto)]

ghost use Rattle.std.specs.Prelude.{◌≡◌};
ghost use Rattle.things.specs.Making.{Roomy};
ghost use Rattle.stops.specs.Stops.{stops_size, bit_of, KnownZ, Inside, IsStopped, NoneYet, Stopped};

use scopes::Name;
use things::Made;

// Of a word.
const DIGITS: u32 = 32;

// The words of all names.
pub const WORDS: u32 = Name::MOST / DIGITS;

fn bit(table: &[u32], z: u32, n: u32) -> bool
    requires { Inside table.now z n }
    ensures { result ≡ bit_of table.now z n }
{
    (table[(z + n / DIGITS) as usize] >> (n % DIGITS)) % 2 == 1
}

pub fn is_stopped(table: &[u32], z: u32, name: Name) -> bool
    requires { KnownZ table.now z }
    ensures { IsStopped table.now z name.0 result }
{
    z != 0 && name.0 < Name::MOST && bit(table, z, name.0)
}

// Bits for all names, and none of them set.
pub fn none_yet(table: &mut [u32], top: u32) -> Made
    requires { Roomy table.old top stops_size }
    ensures { NoneYet table.old table.new top result.at result.top }
{
    let from = top as usize;
    table[from..from + WORDS as usize].fill(0);
    Made {
        at: top,
        top: top + WORDS,
    }
}

// One name more.
pub fn stop(table: &mut [u32], z: u32, name: Name)
    requires { Inside table.old z name.0 }
    ensures { Stopped table.old table.new z name.0 }
{
    let n = name.0;
    table[(z + n / DIGITS) as usize] |= 1 << (n % DIGITS);
}
