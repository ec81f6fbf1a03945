// The entries of a summary brought up to date after a replacement.
ghost use Rattle.std.specs.Prelude.{◌≡◌, ◌+◌, ◌-◌, ◌≤◌, length};
ghost use Rattle.numbers.specs.Limits.{most_image};
ghost use Rattle.scopes.specs.Sets.{set_scopes};
ghost use Rattle.places.specs.Counting.{Room};
ghost use Rattle.replacing.specs.Updating.{stays_before, first_of, Small, Firsts, RenewsEntry, Renews};

use head::Counts;
use numbers::Cursor;
use places::counting;
use places::counting::Entry;

// Where the part stood, and how many things both parts are.
#[derive(Clone, Copy)]
pub struct Change {
    pub place: u32,
    pub old: u32,
    pub new: u32,
}

// What lies behind the old part: where, and how many things.
#[derive(Clone, Copy)]
pub struct Behind {
    pub at: Cursor,
    pub count: u32,
}

// The first place stands before the old part.
#[tactic(auto, unfolding(crate::specs::Updating::stays_before))]
fn stays(e: Entry, place: u32) -> bool
    ensures { result ≡ stays_before e place }
{
    e.count != 0 && e.first < place
}

// Of a name with the entry e, that now has `uses`; `come` is its entry among the things of the new part. None must be searched for behind the
// old part.
fn first_of(e: Entry, uses: u32, come: Entry, change: Change) -> Option<u32>
    requires { Small change × (come.first ≤ most_image) }
    ensures { result ≡ first_of e uses come change }
{
    if uses == 0 {
        return Some(0);
    }
    if stays(e, change.place) {
        return Some(e.first);
    }
    if come.count != 0 {
        return Some(change.place + come.first);
    }
    if e.first < change.place + change.old {
        return None;
    }
    Some((e.first - change.old).saturating_add(change.new))
}

// The entry e of a name brought up to date: `gone` uses were in the old part. The entries of an invented summary may be too large, or too small.
// `s` is the image from behind the old part on.
fn entry_after(
    e: Entry,
    gone: u32,
    come: Entry,
    change: Change,
    behind: Behind,
    s: &[u8],
    counts: Counts,
    name: u32,
) -> Entry
    requires image { (behind.at.at + length s.now ≤ most_image) × (counts.scopes ≤ set_scopes) × (behind.count ≤ most_image) }
    requires small { Small change × (come.first ≤ most_image) }
    ensures { RenewsEntry e gone come change behind.count s.now counts name result }
{
    let count = e.count.saturating_sub(gone).saturating_add(come.count);
    match first_of(e, count, come, change) {
        Some(first) => Entry { count, first },
        None => match counting::find(behind.at, s, counts, behind.count, name) {
            Some(found) => Entry {
                count,
                first: change.place + change.new + found,
            },
            None => Entry { count, first: 0 },
        },
    }
}

// All entries brought up to date; `old` and `new` hold the entries of both parts.
pub fn renew(
    words: &mut [u32],
    old: &[u32],
    new: &[u32],
    change: Change,
    behind: Behind,
    s: &[u8],
    counts: Counts,
)
    requires image { (behind.at.at + length s.now ≤ most_image) × (counts.scopes ≤ set_scopes) × (behind.count ≤ most_image) × Small change }
    requires room { Room counts.names words.old × Room counts.names old.now × Room counts.names new.now }
    requires few { Firsts counts.names new.now }
    ensures { Renews old.now new.now change behind.count s.now counts words.old words.new }
{
    for n in 0..counts.names {
        let i = counting::entry_at(n);
        let e = Entry {
            count: words[i],
            first: words[i + 1],
        };
        let come = Entry {
            count: new[i],
            first: new[i + 1],
        };
        let after = entry_after(e, old[i], come, change, behind, s, counts, n);
        words[i] = after.count;
        words[i + 1] = after.first;
    }
}
