// The countings of document 01 and its scope sets. What a set is made of is known in this crate alone.
#![tactic(auto)]

ghost use Rattle.std.specs.Prelude.{◌≡◌, not, ◌+◌, ◌*◌, ◌/◌, ◌^◌, ◌≤◌, ◌<◌, length, eqb};
ghost use Rattle.std.specs.Int.Bits.{bit_or};
ghost use Rattle.model.specs.Scopes as model;
ghost use Rattle.scopes.specs.Sets.{word_digits, set_words, set_scopes, most_long, scopes_of, long_members, Declared};

// Scope numbers, name numbers and point numbers are separate countings: a name never serves as a scope.
#[derive(Clone, Copy, PartialEq, Eq)]
pub struct Scope(pub u32);

#[derive(Clone, Copy, PartialEq, Eq)]
pub struct Name(pub u32);

#[derive(Clone, Copy, PartialEq, Eq)]
pub struct Point(pub u32);

// Symbols are numbered as names 0 to 3 and the image's words.
#[derive(Clone, Copy, PartialEq, Eq)]
pub struct Symbol(pub u32);

impl Scope {
    pub const MOST: u32 = 64 * ScopeSet::WORDS as u32;
}

impl Name {
    pub const CORE: u32 = 4;

    pub const MOST: u32 = 1024;
}

impl Point {
    pub const LAST: u32 = 1023;
}

// Primitives are numbered from 0 to this.
pub const LAST_PRIMITIVE: u32 = 9;

// A scope set, handed on as one value: scope k is a member where the digit of weight 2 ^ (k - 1) is 1. The words hold 64 digits each, the
// low word first.
#[derive(Clone, Copy)]
pub struct ScopeSet {
    pub words: [u64; ScopeSet::WORDS],
}

impl ScopeSet {
    // Nothing else says how wide a set is, but for the limit of scopes and how sets lie in the table and the store.
    pub const WORDS: usize = 4;

    pub fn empty() -> Self
        ensures { scopes_of result ≡ 0 }
    {
        ScopeSet {
            words: [0; ScopeSet::WORDS],
        }
    }

    // The set with scope k alone.
    fn only(k: Scope) -> Self
        requires { Declared k }
        ensures { scopes_of result ≡ model.only k.0 }
    {
        let place = k.0 - 1;
        let word = (place / 64) as usize;
        let mut r = ScopeSet {
            words: [0; ScopeSet::WORDS],
        };
        r.words[word] = 1u64 << (place % 64);
        r
    }

    pub fn add(self, k: Scope) -> Self
        requires { Declared k }
        ensures { scopes_of result ≡ model.add k.0 (scopes_of self) }
    {
        ScopeSet::only(k).union(self)
    }

    // Take it out if it is there, else put it in.
    pub fn flip(self, k: Scope) -> Self
        requires { Declared k }
        ensures { scopes_of result ≡ model.flip k.0 (scopes_of self) }
    {
        if self.has(k) {
            self.prune(ScopeSet::only(k))
        } else {
            self.add(k)
        }
    }

    // The members that are not prunable.
    pub fn prune(self, prunable: ScopeSet) -> Self
        ensures { scopes_of result ≡ model.prune (scopes_of prunable) (scopes_of self) }
    {
        let mut r = self;
        for i in 0..ScopeSet::WORDS {
            r.words[i] = self.words[i] & !prunable.words[i];
        }
        r
    }

    pub fn union(self, other: ScopeSet) -> Self
        ensures { scopes_of result ≡ bit_or (scopes_of self) (scopes_of other) }
    {
        let mut r = self;
        for i in 0..ScopeSet::WORDS {
            r.words[i] = self.words[i] | other.words[i];
        }
        r
    }

    // Every member is one of the other set.
    pub fn within(self, other: ScopeSet) -> bool
        ensures { result ≡ model.within (scopes_of self) (scopes_of other) }
    {
        for i in 0..ScopeSet::WORDS {
            if self.words[i] & other.words[i] != self.words[i] {
                return false;
            }
        }
        true
    }

    pub fn has(self, k: Scope) -> bool
        requires { Declared k }
        ensures { result ≡ model.has k.0 (scopes_of self) }
    {
        let place = k.0 - 1;
        (self.words[(place / 64) as usize] >> (place % 64)) % 2 == 1
    }

    // How many members there are.
    pub fn count(self) -> u32
        ensures value { result ≡ length (model.members (scopes_of self)) }
        ensures upper_bound { result ≤ set_scopes }
    {
        let mut n = 0;
        for i in 0..ScopeSet::WORDS {
            n += self.words[i].count_ones();
        }
        n
    }

    // How many members there are from scope 128 on: the last digit of word 1, and the words above.
    pub fn count_long(self) -> u32
        ensures { (result ≡ length (long_members (scopes_of self))) × (result ≤ most_long) }
    {
        let mut n = (self.words[1] >> 63).count_ones();
        for i in 2..ScopeSet::WORDS {
            n += self.words[i].count_ones();
        }
        n
    }

    // A member has digit q of word i or a higher one.
    fn reaches(self, i: usize, q: u32) -> bool
        requires { (i < set_words) × (q < word_digits) }
        ensures { result ≡ not (eqb (scopes_of self / 2 ^ (i * word_digits + q)) 0) }
    {
        self.words[i] >> q != 0 || self.words[i + 1..].iter().any(|word| *word != 0)
    }

    // The order of an image: that of the ascending lists of members, a proper prefix first. The lowest digit in which the sets differ decides.
    pub fn before(self, other: ScopeSet) -> bool
        ensures { result ≡ model.set_before (scopes_of self) (scopes_of other) }
    {
        for i in 0..ScopeSet::WORDS {
            let mine = self.words[i];
            let differing = mine ^ other.words[i];
            if differing != 0 {
                let q = differing.trailing_zeros();
                return if (mine >> q) % 2 == 1 {
                    other.reaches(i, q)
                } else {
                    !self.reaches(i, q)
                };
            }
        }
        false
    }
}
