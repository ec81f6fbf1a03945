// Document 01, 'Expanding', its first paragraph: the state that expand, parse and evaluate hand on, what is charged, and when an entry
// starts.
#![tactic(auto)]

ghost use Rattle.std.specs.Prelude.{◌≡◌, Err};
ghost use Rattle.steps.specs.States.{stop_of, ambiguous_of, raised_to, charge_of, enter_of};

use numbers::Cursor;
use refusals::Refusal;
use store::rivals::Rivals;

#[derive(Clone, Copy)]
pub struct State {
    // The first free word of the table.
    pub top: u32,
    // Units not yet charged.
    pub left: u32,
    // Names reached: the next one has this number.
    pub names: u32,
    // Scopes reached: the last one taken has this number.
    pub scopes: u32,
    // How many bindings the store has.
    pub bindings: u32,
}

// A refusal, the bindings that compete where it is code 6, and the units not charged.
#[derive(Clone, Copy)]
pub struct Stop {
    pub refusal: Refusal,
    pub rivals: Rivals,
    pub left: u32,
}

// Where the result lies, and the state after it.
#[derive(Clone, Copy)]
pub struct Out {
    pub at: u32,
    pub state: State,
}

impl State {
    // Entries in progress.
    pub const MOST_ENTRIES: u32 = 128;

    // Nesting of what is made: that of what is read.
    pub const MOST_NESTING: u32 = Cursor::MOST_NESTING;

    // The same with another first free word.
    pub fn raised(self, top: u32) -> State
        ensures { result ≡ raised_to top self }
    {
        State { top, ..self }
    }

    // Refused here: what is left is not charged.
    pub fn stop(self, refusal: Refusal) -> Stop
        ensures { result ≡ stop_of refusal self }
    {
        let rivals = Rivals {
            first: 0,
            second: 0,
        };
        Stop {
            refusal,
            rivals,
            left: self.left,
        }
    }

    pub fn refuse(self, refusal: Refusal) -> Result<Out, Stop>
        ensures { result ≡ Err (stop_of refusal self) }
    {
        Err(self.stop(refusal))
    }

    // Code 6, with those that compete.
    pub fn ambiguous(self, rivals: Rivals) -> Result<Out, Stop>
        ensures { result ≡ Err (ambiguous_of rivals self) }
    {
        Err(Stop {
            refusal: Refusal::Ambiguous,
            rivals,
            left: self.left,
        })
    }

    #[tactic(auto, unfolding(crate::specs::States::charge_of))]
    pub fn charge(self, n: u32) -> Result<State, Stop>
        ensures { result ≡ charge_of n self }
    {
        if self.left < n {
            return Err(self.stop(Refusal::OverBudget));
        }
        Ok(State {
            left: self.left - n,
            ..self
        })
    }

    // Starts an entry with so many entries to spare.
    #[tactic(auto, unfolding(crate::specs::States::enter_of))]
    pub fn enter(self, entries: u32) -> Result<State, Stop>
        ensures { result ≡ enter_of entries self }
    {
        if entries == 0 {
            return Err(self.stop(Refusal::TooManyEntries));
        }
        self.charge(1)
    }
}
