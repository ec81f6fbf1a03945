// The panel check and the summary of a tree, which are lent words where the other jobs are lent bytes. These words are laid out as the output's
// bytes after it; what is no whole word there stays as it was filled.
ghost use Rattle.std.specs.Prelude.{◌≡◌, [], ◌/◌, ◌≤◌, length};
ghost use Rattle.meirhuppa.specs.Endings.{answer_is};
ghost use Rattle.answer_line.specs.Calls.{panel_bytes, summary_bytes};

use crate::page::MOST_BYTES;
use answer_line::{buffers, words};
use meirhuppa::answers::Answer;
use meirhuppa::{panel, uses_jobs};

// The most words that an output or an input has.
pub const MOST_WORDS: usize = MOST_BYTES / 4;

// The two differ in the job alone, but it writes into what it is lent: a closure would need both contracts again, and is no plainer.
pub fn panel(image: &[u8], output: &mut [u8]) -> Answer
    requires { length output.old ≤ 70000 }
    ensures { record { answer = answer_is result; output = output.new; table = [] } ≡ panel_bytes image.now (length output.old) }
{
    let mut room = [0u32; MOST_WORDS];
    let lent = &mut room[..output.len() / 4];
    buffers::fill_words(lent, buffers::BYTES);
    buffers::fill_bytes(output);
    let a = panel::meirhuppa_panel(image, lent);
    words::put_words(output, 0, lent);
    a
}

pub fn summary(image: &[u8], output: &mut [u8]) -> Answer
    requires { length output.old ≤ 70000 }
    ensures { record { answer = answer_is result; output = output.new; table = [] } ≡ summary_bytes image.now (length output.old) }
{
    let mut room = [0u32; MOST_WORDS];
    let lent = &mut room[..output.len() / 4];
    buffers::fill_words(lent, buffers::BYTES);
    buffers::fill_bytes(output);
    let a = uses_jobs::meirhuppa_summary(image, lent);
    words::put_words(output, 0, lent);
    a
}
