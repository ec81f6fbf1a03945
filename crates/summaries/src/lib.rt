// The summary of a tree, and a question to it (document 02, T-10).
#![tactic(auto)]

pub mod opening;
pub mod refusal;

ghost use Rattle.std.specs.Prelude.{◌≡◌, ◌≤◌, length};
ghost use Rattle.places.specs.Counting.{Room};
ghost use Rattle.summaries.specs.Opening.{OpenedAt};
ghost use Rattle.summaries.specs.Making.{Clears, Belongs, Makes, Asks, AsksFrom};

use crate::opening::Opened;
use crate::refusal::UsesRefusal;
use numbers::Cursor;
use places::counting;
use places::counting::Entry;
use refusals::Refusal;

// Clears the entries of so many names.
pub fn clear(words: &mut [u32], names: u32)
    requires { Room names words.old }
    ensures { Clears names words.old words.new }
{
    let end = counting::entry_at(names);
    words[counting::FRONT..end].fill(0);
}

// The summary of a tree image that was opened, and how many names have an entry; code 20 where there is no room.
fn make_from(image: &[u8], o: Opened, words: &mut [u32]) -> Result<u32, UsesRefusal>
    requires { OpenedAt image.now o }
    ensures { Makes image.now words.old words.new result }
{
    let names = o.counts.names;
    if words.len() < counting::entry_at(names) {
        return Err(UsesRefusal::Base(Refusal::TooLong));
    }
    clear(words, names);
    words[0] = o.size;
    words[1] = names;
    let front = Cursor { at: 0 };
    let c = Cursor { at: o.root };
    counting::tally(c, front.after(image, c), o.counts, o.size, words);
    Ok(names)
}

pub fn make(image: &[u8], words: &mut [u32]) -> Result<u32, UsesRefusal>
    ensures { Makes image.now words.old words.new result }
{
    make_from(image, opening::open(image)?, words)
}

// Whether a summary is long enough, and has the tree's size and count of names.
#[tactic(auto, unfolding(crate::specs::Making::belongs_to))]
pub fn belongs(words: &[u32], o: Opened) -> bool
    requires { o.counts.names ≤ 1024 }
    ensures { Belongs words.now o result }
{
    let names = o.counts.names;
    counting::entry_at(names) <= words.len() && words[0] == o.size && words[1] == names
}

fn ask_of(words: &[u32], o: Opened, name: u32) -> Result<Entry, UsesRefusal>
    requires { o.counts.names ≤ 1024 }
    ensures { AsksFrom words.now o name result }
{
    if !belongs(words, o) {
        return Err(UsesRefusal::OtherTree);
    }
    if o.counts.names <= name {
        return Err(UsesRefusal::NoName);
    }
    let i = counting::entry_at(name);
    Ok(Entry {
        count: words[i],
        first: words[i + 1],
    })
}

// One entry is read.
pub fn ask(image: &[u8], words: &[u32], name: u32) -> Result<Entry, UsesRefusal>
    ensures { Asks image.now words.now name result }
{
    ask_of(words, opening::open(image)?, name)
}
