// The file on standard input, read to its end by way of one buffer.
ghost use Rattle.std.specs.Prelude.{◌≡◌, ◌≤◌, length, replicate};
ghost use Rattle.reports.specs.Texts.{most_text};
ghost use Rattle.reports.specs.Totals.{codes};
ghost use Rattle.term_report.specs.Taking.{Room, Stands, Reports, at_start, cut_with};

use crate::taking;
use crate::taking::Taken;
use reports::division::Reading;
use reports::texts;
use reports::totals::Sums;
use std::io::{Read, Stdin};

fn start() -> Taken
    ensures { result ≡ at_start }
{
    Taken {
        reading: Reading::Between,
        sums: Sums {
            units: 0,
            images: 0,
        },
    }
}

// The rest of the file is not to be had, so it counts as cut.
fn cut(sums: Sums) -> Taken
    ensures { result ≡ cut_with sums }
{
    Taken {
        reading: Reading::Cut,
        sums,
    }
}

// A proved loop has to end, and nothing says that the input does: the reads are counted up to a number that no run reaches.
fn take_file(
    mut stdin: Stdin,
    chunk: &mut [u8],
    room: &mut [u8],
    counts: &mut [u64],
    table: &mut [u32],
    out: &mut [u8],
) -> Taken
    requires { (counts.old ≡ replicate codes 0) × Room room.old counts.old table.old out.old }
    ensures { Stands result room.new counts.new }
{
    let mut here = start();
    for _ in 0..u64::MAX {
        match stdin.read(chunk) {
            Ok(0) => return here,
            Ok(n) => here = taking::take_bytes(here, &chunk[..n], room, counts, table, out),
            Err(_) => return cut(here.sums),
        }
    }
    cut(here.sums)
}

// Puts all that is printed of the file on the page, and gives its length.
pub fn put_report(
    page: &mut [u8],
    stdin: Stdin,
    chunk: &mut [u8],
    room: &mut [u8],
    counts: &mut [u64],
    table: &mut [u32],
    out: &mut [u8],
) -> usize
    requires page { most_text ≤ length page.old }
    requires lent { (counts.old ≡ replicate codes 0) × Room room.old counts.old table.old out.old }
    ensures is { Reports page.old page.new result }
    ensures within { result ≤ length page.new }
{
    let here = take_file(stdin, chunk, room, counts, table, out);
    texts::put_report(page, here.reading, here.sums, counts)
}
