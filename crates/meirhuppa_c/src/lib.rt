// The library for C: each function that include/meirhuppa.h declares, and no more. It calls the function of crate `meirhuppa` that has its name,
// and promises what that one promises.
#![tactic(auto)]

ghost use Rattle.std.specs.Prelude.{[]};
ghost use Rattle.model.specs.Jobs.{resolve_job, expand_job, parse_job, evaluate_job};
ghost use Rattle.requests.specs.Panel.{panel_job};
ghost use Rattle.requests.specs.ScanJob.{scan_job};
ghost use Rattle.requests.specs.TextJobs.{read_job, print_job};
ghost use Rattle.requests.specs.Uses.{summary_job, uses_job};
ghost use Rattle.requests.specs.Replacing.{replace_job};
ghost use Rattle.shrinking.specs.ShrinkJob.{shrink_job};
ghost use Rattle.meirhuppa.specs.Endings.{Answered};
ghost use Rattle.meirhuppa.specs.Panels.{PanelAnswered};
ghost use Rattle.meirhuppa.specs.Scans.{ScanAnswered};
ghost use Rattle.meirhuppa.specs.Shrinks.{ShrinkAnswered};
ghost use Rattle.meirhuppa.specs.Texts.{TextAnswered};
ghost use Rattle.meirhuppa.specs.UsesJobs.{SummaryAnswered, UsesAnswered, ReplaceAnswered};

use meirhuppa::answers::Answer;
use meirhuppa::uses_jobs::Uses;
use meirhuppa::{evaluate, expansion, panel, parsing, resolve, scan, shrink, text_jobs, uses_jobs};

#[unsafe(no_mangle)]
pub extern "C" fn meirhuppa_resolve(
    image: &[u8],
    phase: u32,
    budget: u32,
    table: &mut [u32],
) -> Answer
    ensures { Answered (resolve_job image.now phase budget table.old) result [] table.new }
{
    resolve::meirhuppa_resolve(image, phase, budget, table)
}

#[unsafe(no_mangle)]
pub extern "C" fn meirhuppa_expand(
    image: &[u8],
    phase: u32,
    budget: u32,
    table: &mut [u32],
    out: &mut [u8],
) -> Answer
    ensures { Answered (expand_job image.now phase budget table.old out.old) result out.new table.new }
{
    expansion::meirhuppa_expand(image, phase, budget, table, out)
}

#[unsafe(no_mangle)]
pub extern "C" fn meirhuppa_parse(
    image: &[u8],
    budget: u32,
    table: &mut [u32],
    out: &mut [u8],
) -> Answer
    ensures { Answered (parse_job image.now budget table.old out.old) result out.new table.new }
{
    parsing::meirhuppa_parse(image, budget, table, out)
}

#[unsafe(no_mangle)]
pub extern "C" fn meirhuppa_evaluate(
    image: &[u8],
    budget: u32,
    table: &mut [u32],
    out: &mut [u8],
) -> Answer
    ensures { Answered (evaluate_job image.now budget table.old out.old) result out.new table.new }
{
    evaluate::meirhuppa_evaluate(image, budget, table, out)
}

#[unsafe(no_mangle)]
pub extern "C" fn meirhuppa_panel(image: &[u8], bits: &mut [u32]) -> Answer
    ensures { PanelAnswered (panel_job image.now bits.old) result bits.new }
{
    panel::meirhuppa_panel(image, bits)
}

#[unsafe(no_mangle)]
pub extern "C" fn meirhuppa_scan(image: &[u8], recording: &[u8], out: &mut [u8]) -> Answer
    ensures { ScanAnswered (scan_job image.now recording.now out.old) result out.new }
{
    scan::meirhuppa_scan(image, recording, out)
}

#[unsafe(no_mangle)]
pub extern "C" fn meirhuppa_read(text: &[u8], out: &mut [u8]) -> Answer
    ensures { TextAnswered (read_job text.now out.old) result out.new }
{
    text_jobs::meirhuppa_read(text, out)
}

#[unsafe(no_mangle)]
pub extern "C" fn meirhuppa_print(image: &[u8], out: &mut [u8]) -> Answer
    ensures { TextAnswered (print_job image.now out.old) result out.new }
{
    text_jobs::meirhuppa_print(image, out)
}

#[unsafe(no_mangle)]
pub extern "C" fn meirhuppa_summary(image: &[u8], summary: &mut [u32]) -> Answer
    ensures { SummaryAnswered (summary_job image.now summary.old) result summary.new }
{
    uses_jobs::meirhuppa_summary(image, summary)
}

#[unsafe(no_mangle)]
pub extern "C" fn meirhuppa_uses(image: &[u8], summary: &[u32], name: u32) -> Uses
    ensures { UsesAnswered (uses_job image.now summary.now name) result }
{
    uses_jobs::meirhuppa_uses(image, summary, name)
}

#[unsafe(no_mangle)]
pub extern "C" fn meirhuppa_replace(
    image: &[u8],
    place: u32,
    part: &[u8],
    summary: &mut [u32],
    out: &mut [u8],
) -> Answer
    ensures { ReplaceAnswered (replace_job image.now place part.now summary.old out.old) result summary.new out.new }
{
    uses_jobs::meirhuppa_replace(image, place, part, summary, out)
}

#[unsafe(no_mangle)]
pub extern "C" fn meirhuppa_shrink(image: &[u8], out: &mut [u8]) -> Answer
    ensures { ShrinkAnswered (shrink_job image.now out.old) result out.new }
{
    shrink::meirhuppa_shrink(image, out)
}
