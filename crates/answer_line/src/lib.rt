// The line that answers a call of the replay stream: what the job gave back, and what it did to the buffers that it was lent.
#![tactic(auto)]

pub mod buffers;
mod columns;
pub mod words;

ghost use Rattle.std.specs.Prelude.{◌≡◌, ◌+◌, ◌*◌, ◌≤◌, length};
ghost use Rattle.text.specs.Placing.{Placed};
ghost use Rattle.answer_line.specs.Format.{answer_columns, answer_line, replace_line};
ghost use Rattle.answer_line.specs.Calls.{uses_result};
ghost use Rattle.answer_line.specs.Numbers.{answer_is, answered};

// What a line has besides the bytes of output and summary, at most.
pub const MOST_OTHERS: usize = 91;

// The numbers that a job gives back.
#[derive(Clone, Copy)]
pub struct Numbers {
    pub code: u32,
    pub units: u32,
    pub name: u32,
    pub length: u32,
    pub first: u32,
    pub second: u32,
}

impl Numbers {
    fn of(code: u32, length: u32) -> Numbers
        ensures { answer_is result ≡ answered code length }
    {
        Numbers {
            code,
            units: 0,
            name: 0,
            length,
            first: 0,
            second: 0,
        }
    }
}

// Writes the columns of a job with that budget that gave back `a` and left the buffers so, and gives the place past them.
pub fn put_columns(
    out: &mut [u8],
    at: usize,
    a: Numbers,
    budget: u32,
    table: &[u32],
    output: &[u8],
) -> usize
    requires { at + length output.now * 2 + 74 ≤ length out.old }
    ensures bytes { Placed out.old at (answer_columns budget (record { answer = answer_is a; output = output.now; table = table.now })) out.new result }
    ensures few { result ≤ at + length output.now * 2 + 74 }
{
    let buffers = columns::put_numbers(out, at, a);
    columns::put_buffers(out, buffers, budget, a.length, table, output)
}

// The whole line.
pub fn put_line(
    out: &mut [u8],
    at: usize,
    a: Numbers,
    budget: u32,
    table: &[u32],
    output: &[u8],
) -> usize
    requires { at + length output.now * 2 + 75 ≤ length out.old }
    ensures bytes { Placed out.old at (answer_line budget (record { answer = answer_is a; output = output.now; table = table.now })) out.new result }
    ensures few { result ≤ at + length output.now * 2 + 75 }
{
    let end = put_columns(out, at, a, budget, table, output);
    text::put_text(out, end, b"\n")
}

// The line of a question: count and first place are its output.
pub fn put_told(
    out: &mut [u8],
    at: usize,
    code: u32,
    count: u32,
    first: u32,
    budget: u32,
    table: &[u32],
) -> usize
    requires { at + 91 ≤ length out.old }
    ensures { Placed out.old at (answer_line budget (uses_result table.now (record { code = code; count = count; first = first }))) out.new result }
{
    let mut pair = [0u8; 8];
    if code != 0 {
        return put_line(out, at, Numbers::of(code, 0), budget, table, &pair[..0]);
    }
    words::put_words(&mut pair, 0, &[count, first]);
    put_line(out, at, Numbers::of(code, 8), budget, table, &pair)
}

// The line of a replacement that left the summary so.
pub fn put_replaced(
    out: &mut [u8],
    at: usize,
    a: Numbers,
    budget: u32,
    table: &[u32],
    output: &[u8],
    summary: &[u32],
) -> usize
    requires { at + length output.now * 2 + length summary.now * 8 + 77 ≤ length out.old }
    ensures { Placed out.old at (replace_line budget (record { answer = answer_is a; output = output.now; table = table.now }) summary.now) out.new result }
{
    let space = put_columns(out, at, a, budget, table, output);
    let column = text::put_text(out, space, b" ");
    let end = columns::put_summary(out, column, a.code, summary);
    text::put_text(out, end, b"\n")
}
