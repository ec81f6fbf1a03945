// The rules of the panel profile, in the request's words.
ghost use Rattle.std.specs.Prelude.{◌≡◌};
ghost use Rattle.requests.specs.Panel.{word_numbered};
ghost use Rattle.profile.specs.Rules.{rung_rule, contacts_rule, rule_of, bit_rule, takes_variable, takes_point, takes_atom, takes_count};

use scopes::Point;

// What a place of a program asks for.
#[derive(Clone, Copy)]
pub enum Wanted {
    Program,
    Expression,
    // A point that is driven.
    Point,
    // A bit that is set.
    Variable,
    // The start value of a bit: number 0 or 1.
    Start,
}

// How many arguments follow a head.
#[derive(Clone, Copy)]
pub enum Count {
    Exactly(u32),
    AtLeast(u32),
}

// What follows a head: how many arguments; what the first is to be, and what the others.
#[derive(Clone, Copy)]
pub struct Rule {
    pub count: Count,
    pub first: Wanted,
    pub others: Wanted,
}

const NUMBER: u32 = 1;

const POINT: u32 = 2;

pub const RUNG: u32 = 4;

const AND: u32 = 0;

const OR: u32 = 1;

const NOT: u32 = 2;

const OUT: u32 = 3;

const SET: u32 = 4;

const ALL: u32 = 5;

impl Wanted {
    // A bit in scope is an expression.
    #[tactic(auto, unfolding(crate::specs::Rules::takes_variable))]
    pub fn takes_variable(self) -> bool
        ensures { result ≡ takes_variable self }
    {
        matches!(self, Wanted::Expression | Wanted::Variable)
    }

    #[tactic(auto, unfolding(crate::specs::Rules::takes_atom, crate::specs::Rules::takes_point))]
    pub fn takes_atom(self, kind: u32, content: u32) -> bool
        ensures { result ≡ takes_atom self kind content }
    {
        match self {
            Wanted::Expression | Wanted::Point => kind == POINT && content <= Point::LAST,
            Wanted::Start => kind == NUMBER && content <= 1,
            Wanted::Program | Wanted::Variable => false,
        }
    }
}

impl Rule {
    // A program: `out` of a point and an expression, `set` of a bit and an expression, `all` of one or more programs.
    #[tactic(auto, unfolding(crate::specs::Rules::rung_rule, requests::specs::Panel::word_numbered))]
    fn of_rung(word: u32) -> Option<Rule>
        ensures { result ≡ rung_rule (word_numbered word) }
    {
        match word {
            OUT => Some(Rule {
                count: Count::Exactly(2),
                first: Wanted::Point,
                others: Wanted::Expression,
            }),
            SET => Some(Rule {
                count: Count::Exactly(2),
                first: Wanted::Variable,
                others: Wanted::Expression,
            }),
            ALL => Some(Rule {
                count: Count::AtLeast(1),
                first: Wanted::Program,
                others: Wanted::Program,
            }),
            _ => None,
        }
    }

    // An expression: `and` or `or` of at least two expressions, `not` of one.
    #[tactic(auto, unfolding(crate::specs::Rules::contacts_rule, requests::specs::Panel::word_numbered))]
    fn of_contacts(word: u32) -> Option<Rule>
        ensures { result ≡ contacts_rule (word_numbered word) }
    {
        let count = match word {
            AND | OR => Count::AtLeast(2),
            NOT => Count::Exactly(1),
            _ => return None,
        };
        Some(Rule {
            count,
            first: Wanted::Expression,
            others: Wanted::Expression,
        })
    }

    // The rule of a rung word, where `wanted` is what the application is to be.
    #[tactic(auto, unfolding(crate::specs::Rules::rule_of))]
    pub fn of_word(wanted: Wanted, word: u32) -> Option<Rule>
        ensures { result ≡ rule_of wanted (word_numbered word) }
    {
        match wanted {
            Wanted::Program => Rule::of_rung(word),
            Wanted::Expression => Rule::of_contacts(word),
            Wanted::Point | Wanted::Variable | Wanted::Start => None,
        }
    }

    // A function is applied to its bit's start value.
    #[tactic(auto, unfolding(crate::specs::Rules::bit_rule))]
    pub fn of_bit(wanted: Wanted) -> Option<Rule>
        ensures { result ≡ bit_rule wanted }
    {
        match wanted {
            Wanted::Program => Some(Rule {
                count: Count::Exactly(1),
                first: Wanted::Start,
                others: Wanted::Start,
            }),
            _ => None,
        }
    }

    // Every rule asks for a first argument.
    #[tactic(auto, unfolding(crate::specs::Rules::takes_count))]
    pub fn takes_count(self, count: u32) -> bool
        ensures { result ≡ takes_count self count }
    {
        count != 0
            && match self.count {
                Count::Exactly(n) => count == n,
                Count::AtLeast(n) => n <= count,
            }
    }
}
