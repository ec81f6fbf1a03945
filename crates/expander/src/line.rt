// The line that the program prints for an image.
ghost use Rattle.std.specs.Prelude.{◌≡◌, ◌≤◌, length};
ghost use Rattle.model.specs.Limits.{program_budget, most_image};
ghost use Rattle.model.specs.Jobs.{parse_ending, line_of, program, line_bytes};
ghost use Rattle.expander.specs.Lines.{line_is, job_budget, Lent};
ghost use Rattle.expander.specs.Bytes.{Printed};

use meirhuppa::{expansion, limits, parsing};

// Units of each job.
pub const BUDGET: u32 = 400;

pub const WORDS: usize = BUDGET as usize * limits::WORDS_PER_UNIT;

// Two words, two numbers of at most ten digits, three spaces and a line end.
pub const MOST_BYTES: usize = 33;

// The code, and the units of both jobs.
#[derive(Clone, Copy)]
pub struct Line {
    pub code: u32,
    pub units: u32,
}

// How many bytes the line of an image has, and the code that it tells.
#[derive(Clone, Copy)]
pub struct Shown {
    pub length: usize,
    pub code: u32,
}

// The line of parsing an image, after so many units.
fn parsed(image: &[u8], before: u32, table: &mut [u32], tree: &mut [u8]) -> Line
    requires { (before ≤ job_budget) × Lent table.old tree.old }
    ensures { line_is result ≡ line_of before (parse_ending image.now program_budget most_image) }
{
    let p = parsing::meirhuppa_parse(image, BUDGET, table, tree);
    Line {
        code: p.code,
        units: before + p.units,
    }
}

// The line of expanding an image and parsing what that wrote. If expanding is refused, it shows that code and those units only.
fn expanded(image: &[u8], table: &mut [u32], out: &mut [u8], tree: &mut [u8]) -> Line
    requires { Lent table.old out.old × Lent table.old tree.old }
    ensures { line_is result ≡ program image.now }
{
    let e = expansion::meirhuppa_expand(image, 0, BUDGET, table, out);
    if e.code == 0 {
        parsed(&out[..e.length as usize], e.units, table, tree)
    } else {
        Line {
            code: e.code,
            units: e.units,
        }
    }
}

pub fn of_image(image: &[u8]) -> Line
    ensures { line_is result ≡ program image.now }
{
    let mut table = [0u32; WORDS];
    let mut out = [0u8; limits::MOST_IMAGE];
    let mut tree = [0u8; limits::MOST_IMAGE];
    expanded(image, &mut table, &mut out, &mut tree)
}

// Writes a line to the start of a buffer, and gives its length.
pub fn put_line(l: Line, out: &mut [u8]) -> usize
    requires { 33 ≤ length out.old }
    ensures { Printed (line_bytes (line_is l)) out.old out.new result }
{
    let units = text::put_named(out, 0, b"code ", l.code);
    let end = text::put_named(out, units, b" units ", l.units);
    text::put_text(out, end, b"\n")
}

// All that the program prints for an image on standard output.
pub fn print(image: &[u8], out: &mut [u8]) -> Shown
    requires { 33 ≤ length out.old }
    ensures bytes { Printed (line_bytes (program image.now)) out.old out.new result.length }
    ensures code { result.code ≡ (program image.now).code }
{
    let l = of_image(image);
    Shown {
        length: put_line(l, out),
        code: l.code,
    }
}
