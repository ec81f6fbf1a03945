// The report's lines, put into a buffer. Each function gives the place past what it put.
ghost use Rattle.std.specs.Prelude.{[], ◌++◌, ◌+◌, ◌*◌, ◌≤◌, length};
ghost use Rattle.std.proofs.Math.Option.{some};
ghost use Rattle.model.specs.Jobs.{digits};
ghost use Rattle.text.specs.Placing.{Placed};
ghost use Rattle.requests.specs.Report.{code_line, units_line, mean_line};
ghost use Rattle.reports.specs.Totals.{codes, totals_of, ended, reported};
ghost use Rattle.reports.specs.Texts.{longest_line, most_text, first_codes};

use crate::division::Reading;
use crate::totals::{CODES, Sums};

// A number of 64 bits has at most so many digits.
const MOST_DIGITS: usize = 20;

// A line is a word, two numbers, and a space and a line end at most; there is one for each code, one for the units, and one for the mean.
pub const MOST_BYTES: usize = (CODES + 2) * (5 + 2 * MOST_DIGITS + 2);

// A word and the number behind it.
fn put_number(out: &mut [u8], at: usize, word: &[u8], n: u64) -> usize
    requires { at + length word.now + 20 ≤ length out.old }
    ensures bytes { Placed out.old at (word.now ++ digits 20 n []) out.new result }
    ensures few { result ≤ at + length word.now + 20 }
{
    let number = text::put_text(out, at, word);
    text::put_wide(out, number, MOST_DIGITS, n)
}

// The line of a code, where it was given.
fn put_code(out: &mut [u8], at: usize, code: usize, count: u64) -> usize
    requires { at + longest_line ≤ length out.old }
    ensures bytes { Placed out.old at (code_line code count []) out.new result }
    ensures few { result ≤ at + longest_line }
{
    if count == 0 {
        return at;
    }
    let times = put_number(out, at, b"code ", code as u64);
    let end = put_number(out, times, b" ", count);
    text::put_text(out, end, b"\n")
}

fn put_units(out: &mut [u8], at: usize, units: u64) -> usize
    requires { at + longest_line ≤ length out.old }
    ensures bytes { Placed out.old at (units_line units []) out.new result }
    ensures few { result ≤ at + longest_line }
{
    let end = put_number(out, at, b"units ", units);
    text::put_text(out, end, b"\n")
}

fn put_mean(out: &mut [u8], at: usize, sums: Sums) -> usize
    requires { at + longest_line ≤ length out.old }
    ensures bytes { Placed out.old at (mean_line sums.images sums.units) out.new result }
    ensures few { result ≤ at + longest_line }
{
    if sums.images == 0 {
        return text::put_text(out, at, b"mean none\n");
    }
    let second = put_number(out, at, b"mean ", sums.units / sums.images);
    let end = put_number(out, second, b" ", sums.units % sums.images);
    text::put_text(out, end, b"\n")
}

// The lines of the codes that were given, the least first, at the start of a buffer.
fn put_codes(out: &mut [u8], counts: &[u64]) -> usize
    requires { (codes ≤ length counts.now) × (codes * longest_line ≤ length out.old) }
    ensures bytes { Placed out.old 0 (first_codes codes counts.now) out.new result }
    ensures few { result ≤ codes * longest_line }
{
    let mut to = 0;
    for i in 0..CODES {
        to = put_code(out, to, i, counts[i]);
    }
    to
}

// The report of the totals.
fn put_totals(out: &mut [u8], sums: Sums, counts: &[u64]) -> usize
    requires { (codes ≤ length counts.now) × (most_text ≤ length out.old) }
    ensures bytes { Placed out.old 0 (reported (some (totals_of sums counts.now))) out.new result }
    ensures few { result ≤ most_text }
{
    let units = put_codes(out, counts);
    let mean = put_units(out, units, sums.units);
    put_mean(out, mean, sums)
}

// All that is printed of a file, once no byte is to come: the report, or that it is cut.
pub fn put_report(out: &mut [u8], here: Reading, sums: Sums, counts: &[u64]) -> usize
    requires { (codes ≤ length counts.now) × (most_text ≤ length out.old) }
    ensures bytes { Placed out.old 0 (reported (ended here (totals_of sums counts.now))) out.new result }
    ensures within { result ≤ length out.new }
{
    if here.between() {
        return put_totals(out, sums, counts);
    }
    text::put_text(out, 0, b"cut\n")
}
