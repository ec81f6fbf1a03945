// Standard output, gathered on a page that is written where the next line might not fit.
ghost use Rattle.std.specs.Prelude.{◌≡◌, ◌≤◌};
ghost use Rattle.replay.specs.Page.{last_start, start_of};

use answer_line::MOST_OTHERS;
use std::io;

// The most that a call may ask for: bytes of the image, of what stands behind it, and of the output.
pub const MOST_BYTES: usize = 70000;

// Two digits for each byte of the output, and of a summary.
const MOST_LINE: usize = 4 * MOST_BYTES + MOST_OTHERS;

// A line starts at this place at the latest.
const LAST_START: usize = 65536;

pub const PAGE: usize = LAST_START + MOST_LINE;

// Writes the page's first bytes.
pub fn write_front(out: &impl Print, page: &[u8], count: usize) -> io::Result<()> {
    if count <= page.len() {
        return out.write_all(&page[0..count]);
    }
    Ok(())
}

// Writes the page's first bytes where no line may start behind them.
pub fn write_full(out: &impl Print, page: &[u8], count: usize) -> io::Result<()> {
    if count <= LAST_START {
        return Ok(());
    }
    write_front(out, page, count)
}

// Where the next line starts, behind so many bytes or, where those have been written, on the empty page.
pub fn next_start(count: usize) -> usize
    ensures { (result ≡ start_of count) × (result ≤ last_start) }
{
    if count <= LAST_START {
        return count;
    }
    0
}
