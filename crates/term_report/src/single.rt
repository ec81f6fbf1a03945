// The answer to one image: that of expanding it at phase 0 with the program's budget.
ghost use Rattle.std.specs.Prelude.{◌≡◌, ◌<◌};
ghost use Rattle.requests.specs.Report.{single};
ghost use Rattle.reports.specs.Totals.{codes};
ghost use Rattle.term_report.specs.Singles.{line_is, Lent};

use meirhuppa::{expansion, limits};

const BUDGET: u32 = 400;

// What is lent to the job: the words that its budget pays for, and an output as long as an image may be.
pub const WORDS: usize = BUDGET as usize * limits::WORDS_PER_UNIT;

pub const BYTES: usize = limits::MOST_IMAGE;

#[derive(Clone, Copy)]
pub struct Single {
    pub code: u32,
    pub units: u32,
}

pub fn answer(image: &[u8], table: &mut [u32], out: &mut [u8]) -> Single
    requires { Lent table.old out.old }
    ensures is { line_is result ≡ single image.now }
    ensures listed { result.code < codes }
{
    let a = expansion::meirhuppa_expand(image, 0, BUDGET, table, out);
    Single {
        code: a.code,
        units: a.units,
    }
}
