// The driven points as a list, made once: a line goes through these and not through all points.
ghost use Rattle.std.specs.Prelude.{◌≤◌, ◌<◌, length};
ghost use Rattle.bits.specs.Meeting.{points};
ghost use Rattle.scan_lines.specs.Lines.{Listed, Lists};

use bits::Gathered;

// The point behind the first n, where it has a mark; gives how many there are then.
fn list_point(places: &mut [u16], n: usize, mark: u8, point: u16) -> usize
    requires { n < length places.old }
    ensures { Listed mark point places.old places.new n result }
{
    if mark == 0 {
        return n;
    }
    places[n] = point;
    n + 1
}

// The points with a mark, the least first; gives how many there are.
pub fn list_points(marks: &[u8], places: &mut [u16]) -> usize
    requires { (points ≤ length marks.now) × (points ≤ length places.old) }
    ensures { Lists marks.now places.new result }
{
    let mut n = 0;
    for (point, &mark) in marks[..Gathered::POINTS].iter().enumerate() {
        n = list_point(places, n, mark, point as u16);
    }
    n
}
