// The line after a scan, by the list of the driven points and the points' values; and how long all lines are, before any is written.
#![tactic(auto)]

pub mod lengths;
pub mod listing;

ghost use Rattle.std.specs.Prelude.{◌+◌, ◌≤◌, [], length};
ghost use Rattle.text.specs.Placing.{Placed};
ghost use Rattle.requests.specs.ScanJob.{shown};
ghost use Rattle.bits.specs.Meeting.{points};
ghost use Rattle.scan_lines.specs.Lines.{Points, point_shown, line_of};

// A space, the point and its value; gives the place past them, as everything here.
fn put_point(out: &mut [u8], at: usize, point: u32, value: u8) -> usize
    requires { at + length (point_shown point value) ≤ length out.old }
    ensures { Placed out.old at (point_shown point value) out.new result }
{
    let number = text::put_text(out, at, b" @");
    let sign = text::put_number(out, number, point);
    let digit = text::put_text(out, sign, b"=");
    text::put_number(out, digit, value as u32)
}

// Points, each below 1,024, in the order in which they are listed.
fn put_points(out: &mut [u8], at: usize, places: &[u16], values: &[u8]) -> usize
    requires all { Points places.now × (points ≤ length values.now) }
    requires room { at + length (shown places.now values.now []) ≤ length out.old }
    ensures { Placed out.old at (shown places.now values.now []) out.new result }
{
    let mut to = at;
    for &place in places {
        to = put_point(out, to, place as u32, values[place as usize]);
    }
    to
}

// The line after a scan, where there is room for just this line.
pub fn put_line(out: &mut [u8], at: usize, scan: u32, places: &[u16], values: &[u8]) -> usize
    requires all { Points places.now × (points ≤ length values.now) }
    requires room { at + length (line_of places.now scan values.now) ≤ length out.old }
    ensures { Placed out.old at (line_of places.now scan values.now) out.new result }
{
    let first = text::put_number(out, at, scan);
    let end = put_points(out, first, places, values);
    text::put_text(out, end, b"\n")
}
