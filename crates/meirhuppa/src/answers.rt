// The numbers that a job gives back.
ghost use Rattle.std.specs.Prelude.{◌≡◌, ◌≤◌};
ghost use Rattle.model.specs.Refusals.{small_table};
ghost use Rattle.model.specs.Competing.{no_rivals};
ghost use Rattle.model.specs.Jobs.{answer_of, refused};
ghost use Rattle.finish.specs.Ends.{length_of};
ghost use Rattle.meirhuppa.specs.Endings.{answer_is, answer_for};
ghost use Rattle.numbers.specs.Limits.{most_image};

use finish::Ending;
use refusals::Refusal;

#[repr(C)]
#[derive(Clone, Copy)]
pub struct Answer {
    pub code: u32,
    pub units: u32,
    pub name: u32,
    pub length: u32,
    // The places of the two bindings that compete, with code 6; else 0.
    pub first: u32,
    pub second: u32,
}

impl Answer {
    // So many bytes written, after so many units.
    pub(crate) fn written(length: u32, units: u32) -> Answer
        ensures { answer_is result ≡ record { code = 0; units = units; name = 0; len = length; first = 0; second = 0 } }
    {
        Answer {
            code: 0,
            units,
            name: 0,
            length,
            first: 0,
            second: 0,
        }
    }

    // A refusal's number, after so many units.
    pub(crate) fn refused(code: u32, units: u32) -> Answer
        ensures { answer_is result ≡ record { code = code; units = units; name = 0; len = 0; first = 0; second = 0 } }
    {
        Answer {
            code,
            units,
            name: 0,
            length: 0,
            first: 0,
            second: 0,
        }
    }
}

// Code 5.
pub fn small_table() -> Answer
    ensures { answer_is result ≡ answer_of (refused small_table no_rivals 0) }
{
    Answer::refused(Refusal::SmallTable.code(), 0)
}

// A refusal with its code and units, and with the bindings that compete where it is 6; a name, or the length of the image that was written.
pub fn given_back(ending: Ending) -> Answer
    requires { length_of ending ≤ most_image }
    ensures { answer_is result ≡ answer_for ending }
{
    match ending {
        Ending::Refused(f, units) => Answer::refused(f.code(), units),
        Ending::Stopped(f, rivals, units) => {
            let mut a = Answer::refused(f.code(), units);
            a.first = rivals.first;
            a.second = rivals.second;
            a
        }
        Ending::Named(n, units) => {
            let mut a = Answer::written(0, units);
            a.name = n.0;
            a
        }
        Ending::Written(n, units) => Answer::written(n as u32, units),
    }
}
