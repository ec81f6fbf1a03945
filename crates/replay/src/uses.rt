// A question to a summary, and a replacement. Their summary stands behind the image as bytes; what is no whole word there is dropped.
ghost use Rattle.std.specs.Prelude.{◌≡◌, ◌+◌, ◌*◌, ◌/◌, ◌≤◌, length, take, drop, replicate};
ghost use Rattle.text.specs.Placing.{Placed};
ghost use Rattle.requests.specs.Replacing.{replace_job};
ghost use Rattle.meirhuppa.specs.Endings.{answer_is};
ghost use Rattle.answer_line.specs.Format.{byte_fill};
ghost use Rattle.answer_line.specs.Words.{words_of};
ghost use Rattle.answer_line.specs.Calls.{uses_line, replace_call};

use crate::answer::{Call, numbers};
use crate::as_words::MOST_WORDS;
use answer_line::{buffers, words};
use meirhuppa::answers::Answer;
use meirhuppa::uses_jobs;

// Puts the line of a question on the page, and gives the place past it.
pub fn ask(
    call: Call,
    image: &[u8],
    summary: &[u8],
    table: &[u32],
    page: &mut [u8],
    at: usize,
) -> usize
    requires { (length summary.now ≤ 70000) × (at + 91 ≤ length page.old) }
    ensures { Placed page.old at (uses_line image.now summary.now call.phase call.budget table.now) page.new result }
{
    let mut room = [0u32; MOST_WORDS];
    let lent = &mut room[..summary.len() / 4];
    words::take_words(summary, lent);
    let a = uses_jobs::meirhuppa_uses(image, lent, call.phase);
    answer_line::put_told(page, at, a.code, a.count, a.first, call.budget, table)
}

// The replacement with buffers that are filled first: the summary's words from its bytes, the output with one value.
fn replaced(
    place: u32,
    image: &[u8],
    summary: &[u8],
    part: &[u8],
    lent: &mut [u32],
    output: &mut [u8],
) -> Answer
    requires { length lent.old ≡ length summary.now / 4 }
    ensures { record { answer = answer_is result; summary = lent.new; output = output.new } ≡ replace_job image.now place part.now (words_of summary.now) (replicate (length output.old) byte_fill) }
{
    words::take_words(summary, lent);
    buffers::fill_bytes(output);
    uses_jobs::meirhuppa_replace(image, place, part, lent, output)
}

// Puts the line of a replacement on the page, and gives the place past it. `behind` has the summary and the part.
pub fn replace(
    call: Call,
    image: &[u8],
    behind: &[u8],
    table: &[u32],
    output: &mut [u8],
    page: &mut [u8],
    at: usize,
) -> usize
    requires behind { (call.split ≤ length behind.now) × (call.split ≤ 70000) }
    requires room { at + length output.old * 2 + call.split * 2 + 91 ≤ length page.old }
    ensures { Placed page.old at (replace_call image.now (take call.split behind.now) (drop call.split behind.now) call.phase call.budget table.now (length output.old)) page.new result }
{
    let mut room = [0u32; MOST_WORDS];
    let lent = &mut room[..call.split / 4];
    let split = call.split;
    let a = replaced(
        call.phase,
        image,
        &behind[..split],
        &behind[split..],
        lent,
        output,
    );
    answer_line::put_replaced(page, at, numbers(a), call.budget, table, output, lent)
}
