// The file taken byte by byte: its images are counted as they become whole.
ghost use Rattle.std.specs.Prelude.{◌≡◌, ◌∷◌, [], ◌≤◌, length, take};
ghost use Rattle.requests.specs.Report.{single};
ghost use Rattle.reports.specs.Dividing.{Reached, Waits};
ghost use Rattle.reports.specs.Totals.{codes, totals_of, counted};
ghost use Rattle.term_report.specs.Singles.{Lent};
ghost use Rattle.term_report.specs.Taking.{Room, Settles, Takes};

use crate::single;
use reports::division::Reading;
use reports::totals::Sums;

// Where the reading stands, and the sums. The counts, and the bytes that came of an image, stand in slices.
#[derive(Clone, Copy)]
pub struct Taken {
    pub reading: Reading,
    pub sums: Sums,
}

// Counts the answer to an image.
fn count_image(
    sums: Sums,
    image: &[u8],
    counts: &mut [u64],
    table: &mut [u32],
    out: &mut [u8],
) -> Sums
    requires { (codes ≤ length counts.old) × Lent table.old out.old }
    ensures { totals_of result counts.new ≡ counted (single image.now) (totals_of sums counts.old) }
{
    let a = single::answer(image, table, out);
    sums.count(counts, a.code, a.units)
}

// Counts an image that has become whole.
fn settle(
    here: Reading,
    sums: Sums,
    room: &[u8],
    counts: &mut [u64],
    table: &mut [u32],
    out: &mut [u8],
) -> Taken
    requires { Reached here × Room room.now counts.old table.old out.old }
    ensures { Settles here room.now (totals_of sums counts.old) result counts.new }
{
    match here {
        Reading::Image(have, 0) => Taken {
            reading: Reading::Between,
            sums: count_image(sums, &room[..have], counts, table, out),
        },
        Reading::Passing(0) => Taken {
            reading: Reading::Between,
            sums: sums.count_too_long(counts),
        },
        _ => Taken {
            reading: here,
            sums,
        },
    }
}

fn take_byte(
    here: Taken,
    b: u8,
    room: &mut [u8],
    counts: &mut [u64],
    table: &mut [u32],
    out: &mut [u8],
) -> Taken
    requires { Waits here.reading × Room room.old counts.old table.old out.old }
    ensures { Takes (b ∷ []) here room.old counts.old result room.new counts.new }
{
    let there = here.reading.take(b, room);
    settle(there, here.sums, room, counts, table, out)
}

// Takes the bytes that come next.
pub fn take_bytes(
    here: Taken,
    bytes: &[u8],
    room: &mut [u8],
    counts: &mut [u64],
    table: &mut [u32],
    out: &mut [u8],
) -> Taken
    requires { Waits here.reading × Room room.old counts.old table.old out.old }
    ensures { Takes bytes.now here room.old counts.old result room.new counts.new }
{
    let mut there = here;
    for &b in bytes {
        there = take_byte(there, b, room, counts, table, out);
    }
    there
}
