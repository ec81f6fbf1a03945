// The words of an image: their bytes, and that all are different and none a core word.
#![tactic(auto)]

ghost use Rattle.std.specs.Prelude.{◌≡◌, ℕ, ◌+◌, ◌≤◌, length};
ghost use Rattle.numbers.specs.Limits.{most_image};
ghost use Rattle.model.specs.Reading.{word_byte, first_byte, all_word_bytes, good_word, same_bytes, among, core_words};
ghost use Rattle.numbers.specs.Answers.{read_at};
ghost use Rattle.words.specs.Section.{word_length, Old, Stands, Midway, WordsRead};

use numbers::{Cursor, Read};
use refusals::Refusal;

// Bytes of a word.
const MOST_LENGTH: u32 = 32;

// 33 to 126, but not ( ) ; ' #
fn word_byte(b: u8) -> bool
    ensures { result ≡ word_byte b }
{
    matches!(b, 33..=126) && !matches!(b, b'(' | b')' | b';' | b'\'' | b'#')
}

// The first is no digit and not @
fn first_byte(b: u8) -> bool
    ensures { result ≡ first_byte b }
{
    !matches!(b, b'0'..=b'9' | b'@')
}

fn all_word_bytes(w: &[u8]) -> bool
    ensures { result ≡ all_word_bytes w.now }
{
    w.iter().all(|b| word_byte(*b))
}

pub fn good_word(w: &[u8]) -> bool
    ensures { result ≡ good_word w.now }
{
    !w.is_empty() && first_byte(w[0]) && all_word_bytes(w)
}

pub fn same_bytes(a: &[u8], b: &[u8]) -> bool
    ensures { result ≡ same_bytes a.now b.now }
{
    a == b
}

// The four core words are fixed byte strings, compared with each word of an image.
pub fn is_core(w: &[u8]) -> bool
    ensures { result ≡ among w.now core_words }
{
    same_bytes(w, b"lambda")
        || same_bytes(w, b"let-syntax")
        || same_bytes(w, b"quote")
        || same_bytes(w, b"syntax")
}

// ---- the section

// A word's length at a cursor, where `s` is the image from there on.
fn word_length(c: Cursor, s: &[u8]) -> Read<u32>
    requires { c.at + length s.now ≤ most_image }
    ensures { result ≡ read_at (c.at + length s.now) (word_length s.now) }
{
    let (n, past) = c.number(s)?;
    if n == 0 {
        return Err(Refusal::Layout);
    }
    if MOST_LENGTH < n {
        return Err(Refusal::OverLimit);
    }
    Ok((n, past))
}

// Whether w is one of the first k words of the section: they are looked up where they lie, so nothing has to be stored.
fn is_old(section: &[u8], k: u32, w: &[u8]) -> bool
    requires { length section.now ≤ most_image }
    ensures { Old section.now k w.now result }
{
    let mut at = 0;
    for _ in 0..k {
        let Ok((n, past)) = word_length(Cursor { at }, &section[at..]) else {
            return false;
        };
        let to = past.at + n as usize;
        if section.len() < to {
            return false;
        }
        if same_bytes(w, &section[past.at..to]) {
            return true;
        }
        at = to;
    }
    false
}

// Whether w may stand behind the first `done` words of the section.
fn may_stand(section: &[u8], done: u32, w: &[u8]) -> bool
    requires { length section.now ≤ most_image }
    ensures { Stands section.now done w.now result }
{
    good_word(w) && !is_core(w) && !is_old(section, done, w)
}

// `left` words at the place `at` of the image s, behind `done` words of the section that begins at `start`; the place past them, or
// the fault.
pub fn read_words(
    s: &[u8],
    start: usize,
    at: usize,
    done: u32,
    left: u32,
) -> Result<Cursor, Refusal>
    requires { Midway s.now start at done left }
    ensures { WordsRead s.now start at done left result }
{
    let mut here = Cursor { at };
    for passed in done..done + left {
        let (n, past) = word_length(here, &s[here.at..])?;
        let to = past.at + n as usize;
        if s.len() < to || !may_stand(&s[start..], passed, &s[past.at..to]) {
            return Err(Refusal::Layout);
        }
        here = Cursor { at: to };
    }
    Ok(here)
}
