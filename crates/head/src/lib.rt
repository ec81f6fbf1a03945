// The head of an image: its kind, words, and counts of names and scopes.
#![tactic(auto)]

ghost use Rattle.std.specs.Prelude.{◌≡◌, ℕ, ◌+◌, ◌≤◌, length, drop};
ghost use Rattle.words.specs.Section.{most_words};
ghost use Rattle.numbers.specs.Limits.{most_image};
ghost use Rattle.model.specs.Reading.{read_head};
ghost use Rattle.numbers.specs.Answers.{place_at};
ghost use Rattle.head.specs.Heads.{read_kind, read_after_kind, head_at, declares, CountsRead};

use numbers::{Cursor, Read};
use refusals::Refusal;
use scopes::{Name, Scope};

// What the rest of an image is judged by.
#[derive(Clone, Copy)]
pub struct Head {
    pub words: u32,
    // Core names and words counted.
    pub names: u32,
    pub scopes: u32,
}

// How many symbols, names (symbols counted) and scopes the head declares.
#[derive(Clone, Copy)]
pub struct Counts {
    pub symbols: u32,
    pub names: u32,
    pub scopes: u32,
}

// A head that was read, and the place past it.
#[derive(Clone, Copy)]
pub struct Front {
    pub head: Head,
    pub end: usize,
}

impl Head {
    pub const SYNTAX: u32 = 1;

    pub const TREE: u32 = 2;

    pub const CORE_NAMES: u32 = Name::CORE;

    // Words and made names together: core names are counted among the names.
    const MOST_NEW: u32 = Name::MOST - Head::CORE_NAMES;

    // What the rest of the image is judged by.
    pub fn counts(self) -> Counts
        requires { self.words ≤ most_words }
        ensures { result ≡ declares self }
    {
        Counts {
            symbols: self.words + Head::CORE_NAMES,
            names: self.names,
            scopes: self.scopes,
        }
    }
}

// The kind: 1 or 2, and the job's.
fn read_kind(s: &[u8], kind: u32) -> Result<Cursor, Refusal>
    requires { length s.now ≤ most_image }
    ensures { result ≡ place_at (length s.now) (read_kind kind s.now) }
{
    let start = Cursor { at: 0 };
    let (k, past) = start.number(s)?;
    if k == 0 || Head::TREE < k {
        return Err(Refusal::Layout);
    }
    if k != kind {
        return Err(Refusal::WrongKind);
    }
    Ok(past)
}

// The counts of made names and scopes, behind so many words.
fn read_counts(s: &[u8], c: Cursor, words: u32) -> Read<Head>
    requires { (length s.now ≤ most_image) × (c.at ≤ length s.now) × (words ≤ most_words) }
    ensures { CountsRead s.now c.at words result }
{
    let (made, past) = c.number_up_to(&s[c.at..], Refusal::OverLimit, Head::MOST_NEW - words)?;
    let (scopes, end) = past.number_up_to(&s[past.at..], Refusal::OverLimit, Scope::MOST)?;
    let names = Head::CORE_NAMES + words + made;
    let head = Head {
        words,
        names,
        scopes,
    };
    Ok((head, end))
}

// The words and counts, behind the kind.
fn read_after_kind(s: &[u8], c: Cursor) -> Read<Head>
    requires { (length s.now ≤ most_image) × (c.at ≤ length s.now) }
    ensures { result ≡ head_at (length s.now) (read_after_kind (drop c.at s.now)) }
{
    let (words, past) = c.number_up_to(&s[c.at..], Refusal::OverLimit, Head::MOST_NEW)?;
    let behind = words::read_words(s, past.at, past.at, 0, words)?;
    read_counts(s, behind, words)
}

// The head of the image s, which has to be of that kind. Kinds stay numbers: `read_head` promises its answer for a number that is none.
pub fn read_head(s: &[u8], kind: u32) -> Read<Head>
    requires { length s.now ≤ most_image }
    ensures { result ≡ head_at (length s.now) (read_head kind s.now) }
{
    let c = read_kind(s, kind)?;
    read_after_kind(s, c)
}
