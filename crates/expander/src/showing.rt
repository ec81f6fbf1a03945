// A binding as people read it: its word, its scopes and its place, as in `x{1,2} (binding 1)`. The image was judged before, but nothing here
// leans on that: every place in it is tested. What is printed here is tested and not proved.
ghost use Rattle.std.specs.Prelude.{◌≤◌, length};
ghost use Rattle.store.specs.Sizes.{store_size};

use scopes::{Name, Scope, ScopeSet, Symbol};
use std::io;
use store::bindings;
use store::resolving::Resolving;

pub fn say(error: &impl Print, text: &[u8]) -> io::Result<()> {
    error.write_all(text)
}

fn say_number(error: &impl Print, n: u32) -> io::Result<()> {
    error.print(n)
}

// ---- the word

// Where the first word has its length: behind the kind and the count of words, which takes two groups from 128 on.
fn first_word(image: &[u8]) -> usize {
    match image.get(1) {
        None => 0,
        Some(&count) => if count < 128 { 2 } else { 3 },
    }
}

// The place past the word that has its length at `at`; the image's end where no whole word is there.
fn past_word(image: &[u8], at: usize) -> usize
    ensures { result ≤ length image.now }
{
    match image.get(at) {
        None => image.len(),
        Some(&length) => image.len().min(at + 1 + usize::from(length)),
    }
}

// Where word i, counted from 0, has its length.
fn word_place(image: &[u8], i: u32) -> usize {
    let mut at = first_word(image);
    for _ in 0..i {
        at = past_word(image, at);
    }
    at
}

fn print_own_word(error: &impl Print, image: &[u8], i: u32) -> io::Result<()> {
    let at = word_place(image, i);
    let end = past_word(image, at);
    if at < end {
        say(error, &image[at + 1..end])
    } else {
        Ok(())
    }
}

// Symbols are numbered as the core names and the image's words.
fn print_word(error: &impl Print, image: &[u8], symbol: Symbol) -> io::Result<()> {
    match symbol.0 {
        0 => say(error, b"lambda"),
        1 => say(error, b"let-syntax"),
        2 => say(error, b"quote"),
        3 => say(error, b"syntax"),
        n => print_own_word(error, image, n - Name::CORE),
    }
}

// ---- the scopes

fn print_scope(error: &impl Print, k: u32, behind: bool) -> io::Result<()> {
    if behind {
        say(error, b",")?;
    }
    say_number(error, k)
}

// The members, ascending, with commas between.
fn print_scopes(error: &impl Print, set: ScopeSet) -> io::Result<()> {
    let mut behind = false;
    for k in 1..=Scope::MOST {
        if set.has(Scope(k)) {
            print_scope(error, k, behind)?;
            behind = true;
        }
    }
    Ok(())
}

// ---- the binding

// The binding at a place of the store, counted from 1. There is none at others.
pub fn print_binding(error: &impl Print, image: &[u8], store: &[u64], place: u32) -> io::Result<()>
    requires { store_size ≤ length store.now }
{
    let i = place as usize;
    if i == 0 || Resolving::MOST < i {
        return Ok(());
    }
    let b = bindings::get(store, i - 1);
    print_word(error, image, b.symbol)?;
    say(error, b"{")?;
    print_scopes(error, b.set)?;
    say(error, b"} (binding ")?;
    say_number(error, place)?;
    say(error, b")")
}
