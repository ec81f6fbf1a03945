// How the two jobs of text end: the refusals, what was written, and how much room there is for it.
#![tactic(auto)]

ghost use Rattle.std.specs.Prelude.{◌≡◌};
ghost use Rattle.requests.specs.FromText.{text_code};
ghost use Rattle.text_endings.specs.Ending.{text_refusal_of, Room};
ghost use Rattle.text_endings.specs.declared.TextRefusal.TheVariants.{Base};

use numbers::Cursor;
use refusals::Refusal;

// The refusals of document 01, 26 and 27.
#[derive(Clone, Copy)]
pub enum TextRefusal {
    Base(Refusal),
    BadText,
    Unbalanced,
}

// How many bytes were written.
pub type Written = Result<u32, TextRefusal>;

impl From<Refusal> for TextRefusal {
    ghost from_gives = { λ f r. r ≡ Base f };

    fn from(refusal: Refusal) -> TextRefusal {
        TextRefusal::Base(refusal)
    }
}

impl TextRefusal {
    pub fn code(self) -> u32
        ensures { result ≡ text_code (text_refusal_of self) }
    {
        match self {
            TextRefusal::Base(f) => f.code(),
            TextRefusal::BadText => 26,
            TextRefusal::Unbalanced => 27,
        }
    }
}

// How many bytes there may be, for an output of so many.
pub fn room_in(out: usize) -> usize
    ensures { Room out result }
{
    out.min(Cursor::MOST_IMAGE)
}
