// The scan runner of document 02, T-02: a tree image and a recording, with neither phase nor budget nor table.
ghost use Rattle.requests.specs.ScanJob.{scan_job};
ghost use Rattle.meirhuppa.specs.Scans.{ScanAnswered};

use crate::answers::Answer;
use scan_runner::job;

// A line for each scan of a recording, into `out`.
pub fn meirhuppa_scan(image: &[u8], recording: &[u8], out: &mut [u8]) -> Answer
    ensures { ScanAnswered (scan_job image.now recording.now out.old) result out.new }
{
    match job::run_job(image, recording, out) {
        Ok(length) => Answer::written(length, 0),
        Err(f) => Answer::refused(f.code(), 0),
    }
}
