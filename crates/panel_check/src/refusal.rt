// The refusals of the panel check: those of document 01, and 21 to 23.
ghost use Rattle.std.specs.Prelude.{◌≡◌};
ghost use Rattle.requests.specs.Panel.{panel_code};
ghost use Rattle.panel_check.specs.Refusing.{panel_refusal_of};

use refusals::Refusal;

#[derive(Clone, Copy)]
pub enum PanelRefusal {
    Base(Refusal),
    Outside,
    DrivenTwice,
    TooManyBits,
}

impl PanelRefusal {
    pub fn code(self) -> u32
        ensures { result ≡ panel_code (panel_refusal_of self) }
    {
        match self {
            PanelRefusal::Base(f) => f.code(),
            PanelRefusal::Outside => 21,
            PanelRefusal::DrivenTwice => 22,
            PanelRefusal::TooManyBits => 23,
        }
    }
}
