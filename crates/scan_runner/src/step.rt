// One scan.
ghost use Rattle.scan_runner.specs.Stepping.{Scannable, Scanned};

use numbers::Cursor;

// Takes the changes of the next scan into the points, and runs the code once: the place behind the changes. `s` is the recording from the
// cursor on.
pub fn scan_once(c: Cursor, s: &[u8], code: &[u16], points: &mut [u8], bits: &mut [u8]) -> Cursor
    requires { Scannable c.at s.now code.now points.old bits.old }
    ensures { Scanned c.at s.now code.now points.old bits.old points.new bits.new result }
{
    let past = recordings::take_scan(c, s, points);
    ladder::run(code, points, bits);
    past
}
