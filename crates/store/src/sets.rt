// Scope sets in a store: each word of a set is one of the store.
ghost use Rattle.std.specs.Prelude.{◌≡◌, ◌+◌, ◌≤◌, length};
ghost use Rattle.scopes.specs.Sets.{scopes_of, words_from, word_digits, set_words};
ghost use Rattle.store.specs.Words.{SetPut};

use scopes::ScopeSet;

// The set whose words are those from place at on. Word by word: `copy_from_slice` tests for an overlap, and its copies stay on the stack of
// each expansion in progress.
pub fn get_set(store: &[u64], at: usize) -> ScopeSet
    requires { at + set_words ≤ length store.now }
    ensures { scopes_of result ≡ words_from word_digits set_words store.now at }
{
    ScopeSet {
        words: [store[at], store[at + 1], store[at + 2], store[at + 3]],
    }
}

pub fn put_set(store: &mut [u64], at: usize, set: ScopeSet)
    requires { at + set_words ≤ length store.old }
    ensures { SetPut (scopes_of set) store.old store.new at }
{
    store[at] = set.words[0];
    store[at + 1] = set.words[1];
    store[at + 2] = set.words[2];
    store[at + 3] = set.words[3];
}
