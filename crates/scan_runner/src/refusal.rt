// The refusals of the scan runner: those of the panel check, 24 and 25.
ghost use Rattle.std.specs.Prelude.{◌≡◌};
ghost use Rattle.requests.specs.ScanJob.{scan_code};
ghost use Rattle.scan_runner.specs.Refusing.{scan_refusal_of, refusal_from};
ghost use Rattle.scan_runner.specs.declared.refusal.ScanRefusal.TheVariants.{Panel};

use panel_check::refusal::PanelRefusal;
use recordings::RecordingRefusal;

#[derive(Clone, Copy)]
pub enum ScanRefusal {
    Panel(PanelRefusal),
    BadRecording,
    DrivenChange,
}

impl ScanRefusal {
    pub fn code(self) -> u32
        ensures { result ≡ scan_code (scan_refusal_of self) }
    {
        match self {
            ScanRefusal::Panel(f) => f.code(),
            ScanRefusal::BadRecording => 24,
            ScanRefusal::DrivenChange => 25,
        }
    }
}

impl From<PanelRefusal> for ScanRefusal {
    ghost from_gives = { λ f r. r ≡ Panel f };

    fn from(f: PanelRefusal) -> ScanRefusal {
        ScanRefusal::Panel(f)
    }
}

impl From<RecordingRefusal> for ScanRefusal {
    ghost from_gives = { λ f r. r ≡ refusal_from f };

    fn from(f: RecordingRefusal) -> ScanRefusal {
        match f {
            RecordingRefusal::Broken => ScanRefusal::BadRecording,
            RecordingRefusal::Driven => ScanRefusal::DrivenChange,
        }
    }
}
