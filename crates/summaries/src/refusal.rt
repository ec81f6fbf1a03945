// The refusals of the jobs about uses: those of document 01, 29 and 30.
ghost use Rattle.std.specs.Prelude.{◌≡◌};
ghost use Rattle.requests.specs.Uses.{uses_code};
ghost use Rattle.summaries.specs.Refusing.{uses_refusal_of};
ghost use Rattle.summaries.specs.declared.refusal.UsesRefusal.TheVariants.{Base};

use refusals::Refusal;

#[derive(Clone, Copy)]
pub enum UsesRefusal {
    Base(Refusal),
    OtherTree,
    NoName,
}

impl From<Refusal> for UsesRefusal {
    ghost from_gives = { λ f u. u ≡ Base f };

    fn from(f: Refusal) -> Self {
        UsesRefusal::Base(f)
    }
}

impl UsesRefusal {
    pub fn code(self) -> u32
        ensures { result ≡ uses_code (uses_refusal_of self) }
    {
        match self {
            UsesRefusal::Base(f) => f.code(),
            UsesRefusal::OtherTree => 29,
            UsesRefusal::NoName => 30,
        }
    }
}
