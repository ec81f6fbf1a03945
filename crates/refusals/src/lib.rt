// The refusals of document 01, 'Numbers given back': one case for each number, and no bare number anywhere else in the code.
#![tactic(auto)]

ghost use Rattle.std.specs.Prelude.{◌≡◌};
ghost use Rattle.model.specs.Refusals.{code_of};
ghost use Rattle.refusals.specs.Refusing.{refusal_of};

#[derive(Clone, Copy, Debug, PartialEq, Eq)]
pub enum Refusal {
    Layout = 1,
    OverLimit = 2,
    Unowned = 3,
    WrongKind = 4,
    SmallTable = 5,
    Ambiguous = 6,
    NoMeaning = 7,
    NoRule = 8,
    NoSyntax = 9,
    NotApplicable = 10,
    WrongArgument = 11,
    NoPhase = 12,
    NoNameLeft = 13,
    NoScopeLeft = 14,
    NoBindingLeft = 15,
    TooDeep = 17,
    TooManyEntries = 18,
    OverBudget = 19,
    TooLong = 20,
    OutsideUse = 28,
}

impl Refusal {
    // Document 01's number.
    pub fn code(self) -> u32
        ensures { result ≡ code_of (refusal_of self) }
    {
        self as u32
    }
}
