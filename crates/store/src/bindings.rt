// A binding is some words of the store: symbol, target, and the words of the set. How many there are is the caller's to keep.
ghost use Rattle.std.specs.Prelude.{◌≡◌, ◌+◌, ◌*◌, ◌%◌, ◌≤◌, length};
ghost use Rattle.model.specs.Resolving as model;
ghost use Rattle.scopes.specs.Sets.{scopes_of};
ghost use Rattle.store.specs.Words.{bind_of, bind_at, Put, Placed, Shifted, Inserts};
ghost use Rattle.store.specs.Sizes.{binding_size};

use crate::sets;
use scopes::{Name, ScopeSet, Symbol};

#[derive(Clone, Copy)]
pub struct Binding {
    pub symbol: Symbol,
    pub target: Name,
    pub set: ScopeSet,
}

impl Binding {
    // Of the store.
    pub const WORDS: usize = 2 + ScopeSet::WORDS;

    // Ascending by symbol and then set.
    pub fn before(self, other: Binding) -> bool
        ensures { result ≡ model.bind_before (bind_of self) (bind_of other) }
    {
        if self.symbol != other.symbol {
            return self.symbol.0 < other.symbol.0;
        }
        self.set.before(other.set)
    }

    // It counts for symbol x with set s.
    pub fn is_candidate(self, x: Symbol, s: ScopeSet) -> bool
        ensures { result ≡ model.candidate x.0 (scopes_of s) (bind_of self) }
    {
        self.symbol == x && self.set.within(s)
    }
}

fn half(word: u64) -> u32
    ensures { result ≡ word % 4294967296 }
{
    (word % 4294967296) as u32
}

// The binding at place i.
pub fn get(store: &[u64], i: usize) -> Binding
    requires { i * binding_size + binding_size ≤ length store.now }
    ensures { bind_of result ≡ bind_at store.now i }
{
    let at = i * Binding::WORDS;
    Binding {
        symbol: Symbol(half(store[at])),
        target: Name(half(store[at + 1])),
        set: sets::get_set(store, at + 2),
    }
}

// b written at place i.
pub fn put(store: &mut [u64], i: usize, b: Binding)
    requires { i * binding_size + binding_size ≤ length store.old }
    ensures { Put (bind_of b) store.old store.new i }
{
    let at = i * Binding::WORDS;
    store[at] = u64::from(b.symbol.0);
    store[at + 1] = u64::from(b.target.0);
    sets::put_set(store, at + 2, b.set);
}

// The place of b among the first count: that of the first binding that it comes before.
fn place(store: &[u64], count: usize, b: Binding) -> usize
    requires { count * binding_size ≤ length store.now }
    ensures { Placed (bind_of b) store.now count result }
{
    for i in 0..count {
        if b.before(get(store, i)) {
            return i;
        }
    }
    count
}

// The words from lo to hi moved up by one binding's words, the last first.
fn shift(store: &mut [u64], lo: usize, hi: usize)
    requires { (lo ≤ hi) × (hi + binding_size ≤ length store.old) }
    ensures { Shifted lo hi store.old store.new }
{
    for k in (lo..hi).rev() {
        store[k + Binding::WORDS] = store[k];
    }
}

// b put in its place among the first count, which are one more then. That there is room for it is for the caller to judge.
pub fn insert(store: &mut [u64], count: usize, b: Binding)
    requires { count * binding_size + binding_size ≤ length store.old }
    ensures { Inserts (bind_of b) count store.old store.new }
{
    let i = place(store, count, b);
    shift(store, i * Binding::WORDS, count * Binding::WORDS);
    put(store, i, b);
}
