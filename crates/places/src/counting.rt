// The uses among things: noted in the entries of a summary, or looked for.
ghost use Rattle.std.specs.Prelude.{◌≡◌, ◌+◌, ◌*◌, ◌≤◌, length};
ghost use Rattle.head.specs.Fronts.{most_names};
ghost use Rattle.numbers.specs.Limits.{most_image};
ghost use Rattle.scopes.specs.Sets.{set_scopes};
ghost use Rattle.places.specs.Reading.{along};
ghost use Rattle.places.specs.Counting.{is_use_of, Room, Clear, Few, Notes, Tallied, found};

use crate::Thing;
use head::Counts;
use numbers::Cursor;

// Words of a summary before the entries.
pub const FRONT: usize = 2;

// Words of an entry: how many uses, and the place of the first.
pub const ENTRY: usize = 2;

// How many uses, and the place of the first.
#[derive(Clone, Copy)]
pub struct Entry {
    pub count: u32,
    pub first: u32,
}

// Where a name's entry begins.
pub fn entry_at(name: u32) -> usize
    requires { name ≤ most_names }
    ensures { result ≡ 2 + 2 * name }
{
    FRONT + ENTRY * name as usize
}

// Notes the thing at a place in its name's entry.
fn note(words: &mut [u32], names: u32, place: u32, t: Thing)
    requires { Room names words.old × (place ≤ most_image) × Few names words.old place }
    ensures { Notes names place t words.old words.new }
{
    if t.tag != Thing::VARIABLE || names <= t.content {
        return;
    }
    let i = entry_at(t.content);
    words[i] += 1;
    if words[i] == 1 {
        words[i + 1] = place;
    }
}

// Notes the next `count` things at a cursor in the entries, which are clear.
pub fn tally(c: Cursor, s: &[u8], counts: Counts, count: u32, words: &mut [u32])
    requires image { (c.at + length s.now ≤ most_image) × (counts.scopes ≤ set_scopes) × (count ≤ most_image) }
    requires held { Room counts.names words.old × Clear counts.names words.old }
    ensures { Tallied counts.names (along counts count s.now) words.old words.new }
{
    let mut here = c;
    for place in 0..count {
        let Ok((t, past)) = crate::read_thing(here, c.after(s, here), counts) else {
            return;
        };
        note(words, counts.names, place, t);
        here = past;
    }
}

impl Thing {
    #[tactic(auto, unfolding(crate::specs::Counting::is_use_of))]
    fn is_use_of(self, name: u32) -> bool
        ensures { result ≡ is_use_of name self }
    {
        self.tag == Thing::VARIABLE && self.content == name
    }
}

// The place of the first use of a name among the next `count` things at a cursor.
pub fn find(c: Cursor, s: &[u8], counts: Counts, count: u32, name: u32) -> Option<u32>
    requires { (c.at + length s.now ≤ most_image) × (counts.scopes ≤ set_scopes) }
    ensures { result ≡ found name (along counts count s.now) }
{
    let mut here = c;
    for place in 0..count {
        let Ok((t, past)) = crate::read_thing(here, c.after(s, here), counts) else {
            return None;
        };
        if t.is_use_of(name) {
            return Some(place);
        }
        here = past;
    }
    None
}
