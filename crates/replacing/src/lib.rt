// One part of a tree replaced by another, and the summary brought up to date (document 02, T-10).
#![tactic(auto)]

pub mod locating;
pub mod updating;

ghost use Rattle.std.specs.Prelude.{◌++◌, ◌+◌, ◌-◌, ◌≤◌, length, take, drop};
ghost use Rattle.text.specs.Placing.{Placed};
ghost use Rattle.replacing.specs.Replacing.{Parted, Held, Cleared, Told, RenewsFrom, BringsUp, Asked, Ready, Replaces};

use crate::locating::Spot;
use crate::updating::{Behind, Change};
use numbers::Cursor;
use places::counting;
use refusals::Refusal;
use scopes::Name;
use summaries::opening;
use summaries::opening::Opened;
use summaries::refusal::UsesRefusal;

// The bytes of the image where the old part lies.
#[derive(Clone, Copy)]
pub struct Cut {
    pub from: Cursor,
    pub to: Cursor,
}

// Words of the largest summary.
const WORDS: usize = counting::FRONT + counting::ENTRY * Name::MOST as usize;

// The image with a part in place of its bytes between two places.
fn splice(out: &mut [u8], image: &[u8], from: usize, to: usize, part: &[u8]) -> usize
    requires { (from ≤ to) × (to ≤ length image.now) × (from + length part.now + (length image.now - to) ≤ length out.old) }
    ensures { Placed out.old 0 (take from image.now ++ (part.now ++ drop to image.now)) out.new result }
{
    text::put_text(out, 0, &image[..from]);
    text::put_text(out, from, part);
    text::put_text(out, from + part.len(), &image[to..])
}

// The entries and the size brought up to date. The old part ends at a place of the image; what both parts have is in `gone` and `come`.
fn renew_from(
    image: &[u8],
    o: Opened,
    end: Cursor,
    change: Change,
    gone: &[u32],
    come: &[u32],
    words: &mut [u32],
)
    requires told { Told image.now o end.at change gone.now come.now }
    requires held { Held o words.old }
    ensures { RenewsFrom image.now o end.at change gone.now come.now words.old words.new }
{
    let front = Cursor { at: 0 };
    let behind = Behind {
        at: end,
        count: o.size - change.place - change.old,
    };
    updating::renew(
        words,
        gone,
        come,
        change,
        behind,
        front.after(image, end),
        o.counts,
    );
    words[0] = o.size - change.old + change.new;
}

// The same, with room to tally both parts in.
fn bring_with(
    image: &[u8],
    o: Opened,
    cut: Cut,
    part: &[u8],
    change: Change,
    words: &mut [u32],
    gone: &mut [u32],
    come: &mut [u32],
)
    requires parts { Parted image.now o cut.from.at cut.to.at part.now change }
    requires held { Held o words.old }
    requires room { Cleared o gone.old × Cleared o come.old }
    ensures { BringsUp image.now o cut.from.at cut.to.at part.now change words.old words.new }
{
    let front = Cursor { at: 0 };
    counting::tally(
        cut.from,
        front.after(image, cut.from),
        o.counts,
        change.old,
        gone,
    );
    counting::tally(front, part, o.counts, change.new, come);
    renew_from(image, o, cut.to, change, gone, come, words);
}

// The summary brought up to date. The old part is cut out of the image, and the new one is alone in `part`.
fn bring_up(image: &[u8], o: Opened, cut: Cut, part: &[u8], change: Change, words: &mut [u32])
    requires parts { Parted image.now o cut.from.at cut.to.at part.now change }
    requires held { Held o words.old }
    ensures { BringsUp image.now o cut.from.at cut.to.at part.now change words.old words.new }
{
    let mut gone = [0u32; WORDS];
    let mut come = [0u32; WORDS];
    bring_with(image, o, cut, part, change, words, &mut gone, &mut come);
}

// The part put in its place: code 20, or the new image, whose length comes back, and the summary brought up to date.
fn put_part(
    image: &[u8],
    o: Opened,
    spot: Spot,
    place: u32,
    part: &[u8],
    words: &mut [u32],
    out: &mut [u8],
) -> Result<u32, UsesRefusal>
    requires { Ready image.now o spot place part.now words.old }
    ensures { Replaces image.now place part.now words.old words.new out.old out.new result }
{
    let front = Cursor { at: 0 };
    let from = spot.at;
    let old = places::pass_over(from, front.after(image, from), o.counts);
    let new = places::pass_over(front, part, o.counts);
    let to = old.end;
    let length = from.at + part.len() + (image.len() - to.at);
    if Cursor::MOST_IMAGE < length || out.len() < length {
        return Err(UsesRefusal::Base(Refusal::TooLong));
    }
    splice(out, image, from.at, to.at, part);
    let change = Change {
        place,
        old: old.size,
        new: new.size,
    };
    bring_up(image, o, Cut { from, to }, part, change, words);
    Ok(length as u32)
}

// The place found, and the part judged as one for that place.
fn replace_in(
    image: &[u8],
    o: Opened,
    place: u32,
    part: &[u8],
    words: &mut [u32],
    out: &mut [u8],
) -> Result<u32, UsesRefusal>
    requires { Asked image.now o place words.old }
    ensures { Replaces image.now place part.now words.old words.new out.old out.new result }
{
    let front = Cursor { at: 0 };
    let c = Cursor { at: o.root };
    let spot = locating::locate(c, front.after(image, c), o.counts, place);
    if Cursor::MOST_IMAGE < part.len() {
        return Err(UsesRefusal::Base(Refusal::OverLimit));
    }
    roots::measure_whole_tree(front, part, o.counts, spot.levels, spot.low)?;
    put_part(image, o, spot, place, part, words, out)
}

// The part at a place of a tree image replaced by another, which is a tree as it stands in an image; the summary is brought up to date.
pub fn replace(
    image: &[u8],
    place: u32,
    part: &[u8],
    words: &mut [u32],
    out: &mut [u8],
) -> Result<u32, UsesRefusal>
    ensures { Replaces image.now place part.now words.old words.new out.old out.new result }
{
    let o = opening::open(image)?;
    if !summaries::belongs(words, o) || o.size <= place {
        return Err(UsesRefusal::OtherTree);
    }
    replace_in(image, o, place, part, words, out)
}
