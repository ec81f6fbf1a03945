// Reads a stream of job calls on standard input, and prints a line for each: what the job gave back, and what it did to the
// table and the output that it was lent.
#![tactic(auto)]

mod answer;
mod as_words;
mod inputs;
mod page;
mod stream;
mod uses;

ghost use Rattle.std.specs.Prelude.{◌≡◌, false, ◌∷◌, [], ◌≤◌, length};
ghost use Rattle.std.proofs.Math.ListN;
ghost use Rattle.text.specs.Placing.{Placed};
ghost use Rattle.replay.specs.Page.{last_start};

use crate::answer::Call;
use crate::inputs::BEHIND;
use crate::page::{MOST_BYTES, PAGE};
use crate::stream::{Cut, Input};
use std::io;
use std::io::Stdin;

// The most words of the table that a call may ask for.
const MOST_WORDS: usize = 170000;

// How far the run is: what is left of the input, how many bytes of the page are still to be written, and whether a call may follow.
#[derive(Clone, Copy)]
struct Run {
    input: Input,
    count: usize,
    ongoing: bool,
}

fn ended(input: Input, count: usize) -> Run
    ensures { (result.count ≡ count) × (result.ongoing ≡ false) }
{
    Run {
        input,
        count,
        ongoing: false,
    }
}

// The run that a stream ends which breaks the format: with the line `cut`.
fn cut(input: Input, count: usize, page: &mut [u8; PAGE]) -> Run
    requires { count ≤ last_start }
    ensures { Placed page.old count (99 ∷ 117 ∷ 116 ∷ 10 ∷ []) page.new result.count × (result.ongoing ≡ false) }
{
    let past = text::put_text(page, count, b"cut\n");
    ended(input, past)
}

// A call whose inputs are read, of which so many bytes stand behind the image. Gives the place past its line.
fn put_call(
    call: Call,
    length: usize,
    image: &[u8],
    behind: &[u8],
    table: &mut [u32],
    output: &mut [u8],
    page: &mut [u8; PAGE],
    at: usize,
) -> usize
    requires inputs { (call.split ≤ 70000) × (call.split ≤ length) × (length ≤ ListN.length behind.now) }
    requires room { (at ≤ last_start) × (ListN.length output.old ≤ 70000) }
{
    answer::answer(call, image, &behind[..length], table, output, page, at)
}

// A call whose head is read, with image, table and output exactly as long as it says; its line starts where the run is.
fn exact(
    call: Call,
    run: Run,
    stdin: Stdin,
    room: &mut [u8; Input::ROOM],
    image: &mut [u8],
    behind: &mut [u8],
    table: &mut [u32],
    output: &mut [u8],
    page: &mut [u8; PAGE],
) -> Run
    requires { (run.count ≤ last_start) × (length output.old ≤ 70000) × (length behind.old ≡ 140000) }
{
    match inputs::read_inputs(call.job, run.input, stdin, room, image, behind) {
        Ok((split, length, past)) => {
            let asked = Call { split, ..call };
            let end = put_call(asked, length, image, behind, table, output, page, run.count);
            Run {
                input: past,
                count: end,
                ongoing: true,
            }
        }
        Err(Cut) => cut(run.input, run.count, page),
    }
}

// The same with buffers as long as any call may ask for.
fn sized(
    call: Call,
    run: Run,
    stdin: Stdin,
    room: &mut [u8; Input::ROOM],
    image: &mut [u8],
    behind: &mut [u8],
    table: &mut [u32],
    output: &mut [u8],
    page: &mut [u8; PAGE],
) -> Run
    requires { (run.count ≤ last_start) × (length output.old ≤ 70000) × (length behind.old ≡ 140000) }
{
    let words = call.words as usize;
    let bytes = call.output as usize;
    let length = call.image as usize;
    if Call::LAST_JOB < call.job
        || table.len() < words
        || output.len() < bytes
        || image.len() < length
    {
        return cut(run.input, run.count, page);
    }
    exact(
        call,
        run,
        stdin,
        room,
        &mut image[..length],
        behind,
        &mut table[..words],
        &mut output[..bytes],
        page,
    )
}

// The head of the next call, with the input behind it, or none where the stream ends.
fn head(
    input: Input,
    stdin: Stdin,
    room: &mut [u8; Input::ROOM],
) -> Result<Option<(Call, Input)>, Cut> {
    let Some((job, past)) = input.number(stdin, room)? else {
        return Ok(None);
    };
    let (rest, start) = past.numbers(stdin, room)?;
    let [phase, budget, words, output, image] = rest;
    let call = Call {
        job,
        phase,
        budget,
        words,
        output,
        image,
        split: 0,
    };
    Ok(Some((call, start)))
}

// The next call, or the end.
fn next(
    rt: HostRuntime,
    run: Run,
    room: &mut [u8; Input::ROOM],
    image: &mut [u8],
    behind: &mut [u8],
    table: &mut [u32],
    output: &mut [u8; MOST_BYTES],
    page: &mut [u8; PAGE],
) -> io::Result<Run>
    requires { length behind.old ≡ 140000 }
{
    page::write_full(&rt, page, run.count)?;
    let count = page::next_start(run.count);
    let stdin = rt.stdin();
    Ok(match head(run.input, stdin, room) {
        Ok(Some((call, start))) => {
            let here = Run {
                input: start,
                count,
                ongoing: true,
            };
            sized(call, here, stdin, room, image, behind, table, output, page)
        }
        Ok(None) => ended(run.input, count),
        Err(Cut) => cut(run.input, count, page),
    })
}

// A proved loop has to end, and nothing says that the input does: the calls are counted to a number that no run comes to.
fn answer_all(
    rt: HostRuntime,
    room: &mut [u8; Input::ROOM],
    image: &mut [u8],
    behind: &mut [u8],
    table: &mut [u32],
    output: &mut [u8; MOST_BYTES],
    page: &mut [u8; PAGE],
) -> io::Result<()>
    requires { length behind.old ≡ 140000 }
{
    let mut run = Run {
        input: Input::start(),
        count: 0,
        ongoing: true,
    };
    for _ in 0..u64::MAX {
        run = next(rt, run, room, image, behind, table, output, page)?;
        if !run.ongoing {
            break;
        }
    }
    page::write_front(&rt, page, run.count)
}

fn main(rt: HostRuntime) -> io::Result<()> {
    let mut room = [0u8; Input::ROOM];
    let mut page = [0u8; PAGE];
    let mut image = [0u8; MOST_BYTES];
    let mut behind = [0u8; BEHIND];
    let mut table = [0u32; MOST_WORDS];
    let mut output = [0u8; MOST_BYTES];
    answer_all(
        rt,
        &mut room,
        &mut image,
        &mut behind,
        &mut table,
        &mut output,
        &mut page,
    )
}
