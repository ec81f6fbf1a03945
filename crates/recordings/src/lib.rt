// A recording of push buttons (document 02, T-02). It is judged whole, in one pass; then the changes of one scan after another are taken
// into the points.
#![tactic(auto)]

ghost use Rattle.std.specs.Prelude.{◌≡◌, ◌||◌, ◌+◌, ◌≤◌, ◌<◌, length};
ghost use Rattle.numbers.specs.Answers.{read_at, kept};
ghost use Rattle.numbers.specs.Limits.{most_image};
ghost use Rattle.bits.specs.Meeting.{last_mark};
ghost use Rattle.requests.specs.Recording.{read_place, read_change, read_changes, read_scan, read_scans, read_to_end};
ghost use Rattle.recordings.specs.Changes.{coded};
ghost use Rattle.recordings.specs.Judging.{is_marked, or_marked, any_marked, judged_all, judged_of};
ghost use Rattle.recordings.specs.Taking.{Readable, Taken};
ghost use Rattle.recordings.specs.declared.RecordingRefusal.TheVariants.{Broken};

use numbers::{Cursor, Read};
use refusals::Refusal;
use scopes::Point;

// A point and its value.
#[derive(Clone, Copy)]
struct Change {
    pub place: u32,
    pub value: u32,
}

#[derive(Clone, Copy)]
pub enum RecordingRefusal {
    // Code 24.
    Broken,
    // Code 25.
    Driven,
}

impl From<Refusal> for RecordingRefusal {
    ghost from_gives = { λ _ r. r ≡ Broken };

    fn from(_f: Refusal) -> RecordingRefusal {
        RecordingRefusal::Broken
    }
}

impl Change {
    // The greatest value.
    const ON: u32 = 1;
}

// A point that is at least `least`.
fn read_place(c: Cursor, s: &[u8], least: u32) -> Read<u32>
    requires { c.at + length s.now ≤ most_image }
    ensures { result ≡ read_at (c.at + length s.now) (read_place least s.now) }
{
    let (x, past) = c.number_up_to(s, Refusal::Layout, Point::LAST)?;
    if x < least {
        return Err(Refusal::Layout);
    }
    Ok((x, past))
}

fn read_change(c: Cursor, s: &[u8], least: u32) -> Read<Change>
    requires { c.at + length s.now ≤ most_image }
    ensures { result ≡ read_at (c.at + length s.now) (kept coded (read_change least s.now)) }
{
    let (place, behind) = read_place(c, s, least)?;
    let (value, past) = behind.number_up_to(c.after(s, behind), Refusal::Layout, Change::ON)?;
    Ok((Change { place, value }, past))
}

// Whether a driven point was named before, or is now.
fn names_driven(marks: &[u8], before: bool, place: u32) -> bool
    requires { (last_mark < length marks.now) × (place ≤ last_mark) }
    ensures { result ≡ (before || is_marked marks.now place) }
{
    before || marks[place as usize] != 0
}

// `before`: whether a driven point was named before.
fn check_changes(c: Cursor, s: &[u8], marks: &[u8], count: u32, before: bool) -> Read<bool>
    requires { (c.at + length s.now ≤ most_image) × (last_mark < length marks.now) }
    ensures { result ≡ read_at (c.at + length s.now) (kept (or_marked marks.now before) (read_changes count 0 s.now)) }
{
    let mut here = c;
    let mut least = 0;
    let mut driven = before;
    for _ in 0..count {
        let (q, past) = read_change(here, c.after(s, here), least)?;
        driven = names_driven(marks, driven, q.place);
        least = q.place + 1;
        here = past;
    }
    Ok((driven, here))
}

fn check_scan(c: Cursor, s: &[u8], marks: &[u8], before: bool) -> Read<bool>
    requires { (c.at + length s.now ≤ most_image) × (last_mark < length marks.now) }
    ensures { result ≡ read_at (c.at + length s.now) (kept (or_marked marks.now before) (read_scan s.now)) }
{
    let (count, past) = c.number(s)?;
    check_changes(past, c.after(s, past), marks, count, before)
}

fn check_scans(c: Cursor, s: &[u8], marks: &[u8], count: u32) -> Read<bool>
    requires { (c.at + length s.now ≤ most_image) × (last_mark < length marks.now) }
    ensures { result ≡ read_at (c.at + length s.now) (kept (any_marked marks.now) (read_scans count s.now)) }
{
    let mut here = c;
    let mut driven = false;
    for _ in 0..count {
        (driven, here) = check_scan(here, c.after(s, here), marks, driven)?;
    }
    Ok((driven, here))
}

// What follows the count of scans.
fn judge_scans(
    c: Cursor,
    s: &[u8],
    marks: &[u8],
    count: u32,
) -> Result<(u32, Cursor), RecordingRefusal>
    requires { (c.at + length s.now ≤ most_image) × (last_mark < length marks.now) }
    ensures { result ≡ judged_all marks.now count c (read_to_end count s.now) }
{
    let (driven, past) = check_scans(c, s, marks, count)?;
    if past.at < c.at + s.len() {
        return Err(RecordingRefusal::Broken);
    }
    if driven {
        return Err(RecordingRefusal::Driven);
    }
    Ok((count, c))
}

// Whether a recording keeps its layout, and names no point that is marked as driven: how many scans, and where the first begins.
pub fn judge(recording: &[u8], marks: &[u8]) -> Result<(u32, Cursor), RecordingRefusal>
    requires { last_mark < length marks.now }
    ensures { result ≡ judged_of marks.now recording.now }
{
    if Cursor::MOST_IMAGE < recording.len() {
        return Err(RecordingRefusal::Broken);
    }
    let front = Cursor { at: 0 };
    let (count, past) = front.number(recording)?;
    judge_scans(past, front.after(recording, past), marks, count)
}

// Takes so many changes, which were judged, into the points: the place behind them.
fn take_changes(c: Cursor, s: &[u8], points: &mut [u8], count: u32) -> Cursor
    requires { (c.at + length s.now ≤ most_image) × (last_mark < length points.old) × Readable (read_changes count 0 s.now) }
    ensures { Taken (read_changes count 0 s.now) points.old c.at s.now points.new result }
{
    let mut here = c;
    let mut least = 0;
    for _ in 0..count {
        let Ok((q, past)) = read_change(here, c.after(s, here), least) else {
            return here;
        };
        points[q.place as usize] = q.value as u8;
        least = q.place + 1;
        here = past;
    }
    here
}

// Takes the changes of the next scan into the points: the place behind them.
pub fn take_scan(c: Cursor, s: &[u8], points: &mut [u8]) -> Cursor
    requires { (c.at + length s.now ≤ most_image) × (last_mark < length points.old) × Readable (read_scan s.now) }
    ensures { Taken (read_scan s.now) points.old c.at s.now points.new result }
{
    let Ok((count, past)) = c.number(s) else {
        return c;
    };
    take_changes(past, c.after(s, past), points, count)
}
