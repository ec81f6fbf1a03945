// The columns of the line, each but the last with a space behind it. What puts one gives the place past it.
ghost use Rattle.std.specs.Prelude.{◌≡◌, ◌++◌, ◌+◌, ◌*◌, ◌≤◌, length, drop, take};
ghost use Rattle.text.specs.Placing.{Placed};
ghost use Rattle.answer_line.specs.Format.{byte_fill, all_are, number_column, number_columns, table_column, written_column, output_column, buffer_columns, summary_front, summary_column};
ghost use Rattle.answer_line.specs.Numbers.{answer_is};

use crate::{Numbers, buffers, words};

fn put_number(out: &mut [u8], at: usize, n: u32) -> usize
    requires { at + 11 ≤ length out.old }
    ensures bytes { Placed out.old at (number_column n) out.new result }
    ensures few { result ≤ at + 11 }
{
    let end = text::put_decimal(out, at, n);
    text::put_text(out, end, b" ")
}

fn put_pair(out: &mut [u8], at: usize, a: u32, b: u32) -> usize
    requires { at + 22 ≤ length out.old }
    ensures bytes { Placed out.old at (number_column a ++ number_column b) out.new result }
    ensures few { result ≤ at + 22 }
{
    let second = put_number(out, at, a);
    put_number(out, second, b)
}

pub fn put_numbers(out: &mut [u8], at: usize, a: Numbers) -> usize
    requires { at + 66 ≤ length out.old }
    ensures bytes { Placed out.old at (number_columns (answer_is a)) out.new result }
    ensures few { result ≤ at + 66 }
{
    let name = put_pair(out, at, a.code, a.units);
    let first = put_pair(out, name, a.name, a.length);
    put_pair(out, first, a.first, a.second)
}

fn put_table(out: &mut [u8], at: usize, budget: u32, table: &[u32]) -> usize
    requires { at + 6 ≤ length out.old }
    ensures bytes { Placed out.old at (table_column budget table.now) out.new result }
    ensures few { result ≤ at + 6 }
{
    if buffers::are_words(table, buffers::WORD) {
        return text::put_text(out, at, b"kept ");
    }
    if buffers::is_clear(table, budget) {
        return text::put_text(out, at, b"clear ");
    }
    text::put_text(out, at, b"bad ")
}

// The written bytes, at most all that there are.
fn put_written(out: &mut [u8], at: usize, count: usize, output: &[u8]) -> usize
    requires { at + length output.now * 2 + 1 ≤ length out.old }
    ensures bytes { Placed out.old at (written_column count output.now) out.new result }
    ensures few { result ≤ at + length output.now * 2 + 1 }
{
    if count == 0 {
        return text::put_text(out, at, b"-");
    }
    text::put_hexadecimal(out, at, &output[..count.min(output.len())])
}

fn is_kept_after(count: usize, output: &[u8]) -> bool
    ensures { result ≡ all_are byte_fill (drop count output.now) }
{
    if output.len() < count {
        return true;
    }
    buffers::are_bytes(&output[count..], buffers::BYTE)
}

fn put_output(out: &mut [u8], at: usize, written: u32, output: &[u8]) -> usize
    requires { at + length output.now * 2 + 2 ≤ length out.old }
    ensures bytes { Placed out.old at (output_column written output.now) out.new result }
    ensures few { result ≤ at + length output.now * 2 + 2 }
{
    let count = written as usize;
    let end = put_written(out, at, count, output);
    if is_kept_after(count, output) {
        return end;
    }
    text::put_text(out, end, b"!")
}

pub fn put_buffers(
    out: &mut [u8],
    at: usize,
    budget: u32,
    written: u32,
    table: &[u32],
    output: &[u8],
) -> usize
    requires { at + length output.now * 2 + 8 ≤ length out.old }
    ensures bytes { Placed out.old at (buffer_columns budget written table.now output.now) out.new result }
    ensures few { result ≤ at + length output.now * 2 + 8 }
{
    let second = put_table(out, at, budget, table);
    put_output(out, second, written, output)
}

// How many words the summary of so many names is.
fn words_of(names: u32) -> usize
    ensures { result ≡ 2 + 2 * names }
{
    2 + 2 * (names as usize)
}

// How many words a summary is, of those that there are.
fn summary_words(words: &[u32]) -> usize
    ensures few { result ≤ length words.now }
    ensures front { take result words.now ≡ summary_front words.now }
{
    if words.len() < 2 {
        return words.len();
    }
    words_of(words[1]).min(words.len())
}

pub fn put_summary(out: &mut [u8], at: usize, code: u32, words: &[u32]) -> usize
    requires { at + length words.now * 8 + 1 ≤ length out.old }
    ensures bytes { Placed out.old at (summary_column code words.now) out.new result }
    ensures few { result ≤ at + length words.now * 8 + 1 }
{
    if code != 0 {
        return text::put_text(out, at, b"-");
    }
    let count = summary_words(words);
    words::put_words_hexadecimal(out, at, &words[..count])
}
