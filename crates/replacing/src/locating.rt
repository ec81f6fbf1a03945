// Where a place of a tree is among its bytes, how many levels are left for what stands there, and the least tag that is read there: 0, or 2 where a
// value is wanted.
ghost use Rattle.std.specs.Prelude.{◌≡◌, ◌+◌, ◌≤◌, length};
ghost use Rattle.numbers.specs.Limits.{most_image};
ghost use Rattle.scopes.specs.Sets.{set_scopes};
ghost use Rattle.replacing.specs.Locating.{lowest, Inside, Locates};

use head::Counts;
use numbers::Cursor;
use places::Thing;

#[derive(Clone, Copy)]
pub struct Spot {
    pub at: Cursor,
    pub levels: u32,
    pub low: u32,
}

const VALUE: u32 = 2;

// The least tag of a thing's parts.
#[tactic(auto, unfolding(crate::specs::Locating::lowest))]
fn low_behind(t: Thing) -> u32
    ensures { result ≡ lowest t }
{
    if t.tag == Thing::LIST { VALUE } else { 0 }
}

// Trees that end before the place are passed over, and the one that holds it is entered. `left` things stand before the place.
pub fn locate(c: Cursor, s: &[u8], counts: Counts, place: u32) -> Spot
    requires image { (c.at + length s.now ≤ most_image) × (counts.scopes ≤ set_scopes) }
    requires tree { Inside counts s.now place }
    ensures { Locates counts s.now c.at place result }
{
    let mut here = c;
    let mut left = place;
    let mut levels = Cursor::MOST_NESTING;
    let mut low: u32 = 0;
    while 0 < left {
        let rest = c.after(s, here);
        let span = places::pass_over(here, rest, counts);
        if span.size <= left {
            left -= span.size;
            here = span.end;
        } else {
            let Ok((t, past)) = places::read_thing(here, rest, counts) else {
                unreachable!()
            };
            left -= 1;
            levels -= 1;
            low = low_behind(t);
            here = past;
        }
    }
    Spot {
        at: here,
        levels,
        low,
    }
}
