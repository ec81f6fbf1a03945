// How long the lines are: each value is one digit, so two lines differ only in the scan's number.
ghost use Rattle.std.specs.Prelude.{◌≡◌, ◌*◌, ◌-◌, ◌≤◌, ◌<◌, length};
ghost use Rattle.bits.specs.Meeting.{points};
ghost use Rattle.scan_lines.specs.Lengths.{most_scans, most_fixed, number_length, mark_length, fixed_length, lines_length};

use bits::Gathered;

// Digits of a point.
fn number_length(point: u32) -> u32
    requires { point < points }
    ensures is { result ≡ number_length point }
    ensures few { result ≤ 4 }
{
    match point {
        ..10 => 1,
        ..100 => 2,
        ..1000 => 3,
        _ => 4,
    }
}

// How much of a line a point is.
fn point_length(mark: u8, point: u32) -> u32
    requires { point < points }
    ensures is { result ≡ mark_length mark point }
    ensures few { result ≤ 8 }
{
    if mark == 0 {
        0
    } else {
        4 + number_length(point)
    }
}

// What every line has behind its number.
pub fn fixed_length(marks: &[u8]) -> u32
    requires { points ≤ length marks.now }
    ensures is { result ≡ fixed_length marks.now }
    ensures small { result ≤ most_fixed }
{
    let mut n = 1;
    for (point, &mark) in marks[..Gathered::POINTS].iter().enumerate() {
        n += point_length(mark, point as u32);
    }
    n
}

// The digits of the numbers from 1 to n: one each, one more each above 9, one more each above 99, and so on.
fn numbers_length(n: u32) -> u32
    requires { n < most_scans }
    ensures is { result ≡ lines_length 1 n 0 }
    ensures few { result ≤ 5 * most_scans }
{
    n + n.saturating_sub(9) + n.saturating_sub(99) + n.saturating_sub(999) + n.saturating_sub(9999)
}

// The length of the lines of so many scans.
pub fn total_length(scans: u32, fixed: u32) -> u32
    requires { (scans < most_scans) × (fixed ≤ most_fixed) }
    ensures { result ≡ lines_length 1 scans fixed }
{
    scans * fixed + numbers_length(scans)
}
