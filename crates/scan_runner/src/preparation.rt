// What comes before the first scan: the image is checked, the recording judged, and the program wired.
ghost use Rattle.std.specs.Prelude.{◌≤◌, length};
ghost use Rattle.bits.specs.Meeting.{room, NoMarks};
ghost use Rattle.wiring.specs.Words.{most_words};
ghost use Rattle.panel_check.specs.Checking.{RootGood};
ghost use Rattle.scan_runner.specs.Preparing.{WiresRoot, Prepares};

use crate::refusal::ScanRefusal;
use numbers::Cursor;
use wiring::Wired;

// What is known of a program and a recording that are accepted: the words of the code and the bits, how many scans there are, and where
// the first of them begins.
#[derive(Clone, Copy)]
pub struct Prepared {
    pub words: u32,
    pub bits: u32,
    pub scans: u32,
    pub first: Cursor,
}

// The code of a program whose root begins here, and the start values of its bits.
fn wire_root(image: &[u8], root: usize, code: &mut [u16], bits: &mut [u8]) -> Wired
    requires { RootGood image.now root × (most_words ≤ length code.old) × (room ≤ length bits.old) }
    ensures { WiresRoot image.now root code.new bits.new result }
{
    wiring::wire(Cursor { at: root }, &image[root..], code, bits)
}

// `marks` has no mark yet. Of a program and a recording that are accepted, it has the points driven afterwards, `code` the program's code,
// and `bits` the start values of its bits.
pub fn prepare(
    image: &[u8],
    recording: &[u8],
    marks: &mut [u8],
    names: &mut [u32],
    code: &mut [u16],
    bits: &mut [u8],
) -> Result<Prepared, ScanRefusal>
    requires clear { NoMarks marks.old × (room ≤ length names.old) }
    requires room { (most_words ≤ length code.old) × (room ≤ length bits.old) }
    ensures { Prepares image.now recording.now marks.new code.new bits.new result }
{
    let program = panel_check::check(image, marks, names)?;
    let (scans, first) = recordings::judge(recording, marks)?;
    let wired = wire_root(image, program.root, code, bits);
    Ok(Prepared {
        words: wired.words,
        bits: wired.bits,
        scans,
        first,
    })
}
