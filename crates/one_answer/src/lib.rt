// Condition 2 of the public functions themselves: each function here calls one of them and says that what came back, and what output and table
// hold, is the job's and could be nothing else. A public contract that said less would not do for this.
#![tactic(auto)]

ghost use Rattle.std.specs.Prelude.{[]};
ghost use Rattle.model.specs.Jobs.{resolve_job, expand_job, parse_job, evaluate_job};
ghost use Rattle.requests.specs.Panel.{panel_job};
ghost use Rattle.requests.specs.ScanJob.{scan_job};
ghost use Rattle.requests.specs.TextJobs.{read_job, print_job};
ghost use Rattle.requests.specs.Uses.{summary_job, uses_job};
ghost use Rattle.requests.specs.Replacing.{replace_job};
ghost use Rattle.shrinking.specs.ShrinkJob.{shrink_job};
ghost use Rattle.one_answer.specs.Once.{Once, PanelOnce, ScanOnce, TextOnce, ShrinkOnce, SummaryOnce, UsesOnce, ReplaceOnce};

use meirhuppa::answers::Answer;
use meirhuppa::uses_jobs::Uses;
use meirhuppa::{evaluate, expansion, panel, parsing, resolve, scan, shrink, text_jobs, uses_jobs};

pub fn resolve_once(image: &[u8], phase: u32, budget: u32, table: &mut [u32]) -> Answer
    ensures { Once (resolve_job image.now phase budget table.old) result [] table.new }
{
    resolve::meirhuppa_resolve(image, phase, budget, table)
}

pub fn expand_once(
    image: &[u8],
    phase: u32,
    budget: u32,
    table: &mut [u32],
    out: &mut [u8],
) -> Answer
    ensures { Once (expand_job image.now phase budget table.old out.old) result out.new table.new }
{
    expansion::meirhuppa_expand(image, phase, budget, table, out)
}

pub fn parse_once(image: &[u8], budget: u32, table: &mut [u32], out: &mut [u8]) -> Answer
    ensures { Once (parse_job image.now budget table.old out.old) result out.new table.new }
{
    parsing::meirhuppa_parse(image, budget, table, out)
}

pub fn evaluate_once(image: &[u8], budget: u32, table: &mut [u32], out: &mut [u8]) -> Answer
    ensures { Once (evaluate_job image.now budget table.old out.old) result out.new table.new }
{
    evaluate::meirhuppa_evaluate(image, budget, table, out)
}

pub fn panel_once(image: &[u8], bits: &mut [u32]) -> Answer
    ensures { PanelOnce (panel_job image.now bits.old) result bits.new }
{
    panel::meirhuppa_panel(image, bits)
}

pub fn scan_once(image: &[u8], recording: &[u8], out: &mut [u8]) -> Answer
    ensures { ScanOnce (scan_job image.now recording.now out.old) result out.new }
{
    scan::meirhuppa_scan(image, recording, out)
}

pub fn read_once(bytes: &[u8], out: &mut [u8]) -> Answer
    ensures { TextOnce (read_job bytes.now out.old) result out.new }
{
    text_jobs::meirhuppa_read(bytes, out)
}

pub fn print_once(image: &[u8], out: &mut [u8]) -> Answer
    ensures { TextOnce (print_job image.now out.old) result out.new }
{
    text_jobs::meirhuppa_print(image, out)
}

pub fn shrink_once(image: &[u8], out: &mut [u8]) -> Answer
    ensures { ShrinkOnce (shrink_job image.now out.old) result out.new }
{
    shrink::meirhuppa_shrink(image, out)
}

pub fn summary_once(image: &[u8], summary: &mut [u32]) -> Answer
    ensures { SummaryOnce (summary_job image.now summary.old) result summary.new }
{
    uses_jobs::meirhuppa_summary(image, summary)
}

pub fn uses_once(image: &[u8], summary: &[u32], name: u32) -> Uses
    ensures { UsesOnce (uses_job image.now summary.now name) result }
{
    uses_jobs::meirhuppa_uses(image, summary, name)
}

pub fn replace_once(
    image: &[u8],
    place: u32,
    part: &[u8],
    summary: &mut [u32],
    out: &mut [u8],
) -> Answer
    ensures { ReplaceOnce (replace_job image.now place part.now summary.old out.old) result summary.new out.new }
{
    uses_jobs::meirhuppa_replace(image, place, part, summary, out)
}
