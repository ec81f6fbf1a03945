// One call and the line that answers it.
ghost use Rattle.std.specs.Prelude.{◌≡◌, [], ◌+◌, ◌*◌, ◌≤◌, length, take, drop};
ghost use Rattle.text.specs.Placing.{Placed};
ghost use Rattle.meirhuppa.specs.Endings.{answer_is};
ghost use Rattle.answer_line.specs.Numbers as line;
ghost use Rattle.answer_line.specs.Format.{answer_line};
ghost use Rattle.answer_line.specs.Calls.{job_of, request_of, fresh_job, call_line};

use crate::{as_words, uses};
use answer_line::{Numbers, buffers};
use meirhuppa::answers::Answer;
use meirhuppa::{evaluate, expansion, parsing, resolve, scan, shrink, text_jobs};

// The numbers at the head of a call; the last three are sizes. Behind the image some jobs have more: `split` bytes are the first such input, and
// what follows them is the second.
#[derive(Clone, Copy)]
pub struct Call {
    pub job: u32,
    pub phase: u32,
    pub budget: u32,
    pub words: u32,
    pub output: u32,
    pub image: u32,
    pub split: usize,
}

impl Call {
    pub const RESOLVE: u32 = 0;

    pub const EXPAND: u32 = 1;

    pub const PARSE: u32 = 2;

    pub const EVALUATE: u32 = 3;

    pub const PANEL: u32 = 4;

    pub const SCAN: u32 = 5;

    pub const READ: u32 = 6;

    pub const PRINT: u32 = 7;

    pub const SUMMARY: u32 = 8;

    pub const USES: u32 = 9;

    pub const REPLACE: u32 = 10;

    pub const SHRINK: u32 = 11;

    pub const LAST_JOB: u32 = Call::SHRINK;
}

pub fn numbers(a: Answer) -> Numbers
    ensures { line.answer_is result ≡ answer_is a }
{
    Numbers {
        code: a.code,
        units: a.units,
        name: a.name,
        length: a.length,
        first: a.first,
        second: a.second,
    }
}

// The jobs of document 01. Every number above those of the others is evaluate's: no call that comes here has one over `EVALUATE`.
fn do_job(call: Call, image: &[u8], table: &mut [u32], output: &mut [u8]) -> Answer
    ensures { record { answer = answer_is result; output = output.new; table = table.new } ≡ job_of call.job image.now call.phase call.budget table.old output.old }
{
    if call.job == Call::RESOLVE {
        return resolve::meirhuppa_resolve(image, call.phase, call.budget, table);
    }
    if call.job == Call::EXPAND {
        return expansion::meirhuppa_expand(image, call.phase, call.budget, table, output);
    }
    if call.job == Call::PARSE {
        return parsing::meirhuppa_parse(image, call.budget, table, output);
    }
    evaluate::meirhuppa_evaluate(image, call.budget, table, output)
}

// The requests of document 02 that are lent an output, which is filled first. Every number above those of the others is the printer's: no call has
// one over `LAST_JOB`. A text stands in the image's place.
fn do_request(call: Call, image: &[u8], second: &[u8], output: &mut [u8]) -> Answer
    requires { length output.old ≤ 70000 }
    ensures { record { answer = answer_is result; output = output.new; table = [] } ≡ request_of call.job image.now second.now (length output.old) }
{
    if call.job == Call::PANEL {
        return as_words::panel(image, output);
    }
    if call.job == Call::SUMMARY {
        return as_words::summary(image, output);
    }
    buffers::fill_bytes(output);
    if call.job == Call::SCAN {
        return scan::meirhuppa_scan(image, second, output);
    }
    if call.job == Call::READ {
        return text_jobs::meirhuppa_read(image, output);
    }
    if call.job == Call::SHRINK {
        return shrink::meirhuppa_shrink(image, output);
    }
    text_jobs::meirhuppa_print(image, output)
}

// Any job, with buffers that are filled first. Every number above `EVALUATE` is a request's: no call has one over `LAST_JOB`.
fn do_fresh(call: Call, image: &[u8], second: &[u8], table: &mut [u32], output: &mut [u8]) -> Answer
    requires { length output.old ≤ 70000 }
    ensures { record { answer = answer_is result; output = output.new; table = table.new } ≡ fresh_job call.job image.now second.now call.phase call.budget (length table.old) (length output.old) }
{
    buffers::fill_words(table, buffers::WORD);
    if Call::EVALUATE < call.job {
        return do_request(call, image, second, output);
    }
    buffers::fill_bytes(output);
    do_job(call, image, table, output)
}

fn put_answer(
    call: Call,
    image: &[u8],
    second: &[u8],
    table: &mut [u32],
    output: &mut [u8],
    page: &mut [u8],
    at: usize,
) -> usize
    requires { (at + length output.old * 2 + 75 ≤ length page.old) × (length output.old ≤ 70000) }
    ensures { Placed page.old at (answer_line call.budget (fresh_job call.job image.now second.now call.phase call.budget (length table.old) (length output.old))) page.new result }
{
    let a = do_fresh(call, image, second, table, output);
    answer_line::put_line(page, at, numbers(a), call.budget, table, output)
}

// Puts the line of a call on the page, and gives the place past it. The buffers are exactly as long as the call says; `behind` is what the
// job has behind the image.
pub fn answer(
    call: Call,
    image: &[u8],
    behind: &[u8],
    table: &mut [u32],
    output: &mut [u8],
    page: &mut [u8],
    at: usize,
) -> usize
    requires lent { (call.split ≤ length behind.now) × (call.split ≤ 70000) × (length output.old ≤ 70000) }
    requires room { at + length output.old * 2 + call.split * 2 + 91 ≤ length page.old }
    ensures { Placed page.old at (call_line call.job image.now (take call.split behind.now) (drop call.split behind.now) call.phase call.budget (length table.old) (length output.old)) page.new result }
{
    let split = call.split;
    if call.job == Call::USES {
        buffers::fill_words(table, buffers::WORD);
        return uses::ask(call, image, &behind[..split], table, page, at);
    }
    if call.job == Call::REPLACE {
        buffers::fill_words(table, buffers::WORD);
        return uses::replace(call, image, behind, table, output, page, at);
    }
    put_answer(call, image, &behind[..split], table, output, page, at)
}
