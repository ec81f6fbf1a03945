// Document 01, 'Expanding': the meanings that names have beyond the core, the last first, as a chain in the table. A form's meanings are
// known by the index of an entry, 0 for the core alone, so that leaving a scope takes nothing.
#![tactic(auto, using(crate::proofs::Laws::laws))]

ghost use Rattle.std.specs.Prelude.{◌≡◌, ℕ, ◌*◌, ◌≤◌, length};
ghost use Rattle.things.specs.Measuring.{Seen};
ghost use Rattle.things.specs.Making.{Roomy};
ghost use Rattle.stops.specs.Stops.{KnownZ};
ghost use Rattle.environment.specs.Meanings.{Known, CoreMeans, Means, MeansAmong, MeansAt, Extended};
ghost use Rattle.table.specs.Sizes.{entry_size};
ghost use Rattle.store.specs.Sizes.{binding_size};

use forms::{Form, Naming};
use scopes::{Name, Scope};
use store::rivals::Rivals;
use table::Entry;
use things::Made;

#[derive(Clone, Copy)]
pub enum Meaning {
    // The core forms.
    Lambda,
    LetSyntax,
    Quote,
    Syntax,
    // Where its binder lies.
    Variable(u32),
    // Where its value lies.
    Macro(u32),
    // Of a stop, whatever it means elsewhere.
    Stopped,
    Unknown,
    // Of an identifier with several candidates, none of which contains every other: the two that compete.
    Unclear(Rivals),
}

impl Meaning {
    // The kinds of entries, which are words of the table: any word is read.
    pub const VARIABLE: u32 = 0;

    pub const MACRO: u32 = 1;
}

// One entry more.
pub fn extend(table: &mut [u32], top: u32, name: Name, kind: u32, at: u32, next: u32) -> Made
    requires { Roomy table.old top entry_size }
    ensures { Extended table.old table.new top name.0 kind at next result.at result.top }
{
    table::put_entry(
        table,
        top,
        Entry {
            at,
            next,
            name,
            kind,
        },
    );
    Made {
        at: top,
        top: top + Entry::WORDS,
    }
}

fn core_meaning(name: Name) -> Meaning
    ensures { CoreMeans name.0 result }
{
    match forms::form_of(name) {
        Form::Lambda => Meaning::Lambda,
        Form::LetSyntax => Meaning::LetSyntax,
        Form::Quote => Meaning::Quote,
        Form::Syntax => Meaning::Syntax,
        Form::Other => Meaning::Unknown,
    }
}

// What a name means by the entries from e on.
pub fn lookup(table: &[u32], e: u32, name: Name) -> Meaning
    requires { Known table.now e }
    ensures { Means table.now e name.0 result }
{
    if e == 0 {
        return core_meaning(name);
    }
    let x = table::get_entry(table, e);
    if x.name != name {
        return lookup(table, x.next, name);
    }
    if x.kind == Meaning::VARIABLE {
        Meaning::Variable(x.at)
    } else {
        Meaning::Macro(x.at)
    }
}

// The same with the stops z.
pub fn lookup_among(table: &[u32], e: u32, z: u32, name: Name) -> Meaning
    requires { Known table.now e × KnownZ table.now z }
    ensures { MeansAmong table.now e z name.0 result }
{
    if stops::is_stopped(table, z, name) {
        return Meaning::Stopped;
    }
    lookup(table, e, name)
}

// What the head of a list means: Unknown where it is no identifier.
pub fn meaning_of(
    table: &[u32],
    store: &[u64],
    count: u32,
    i: u32,
    phase: u32,
    e: u32,
    z: u32,
) -> Meaning
    requires { Seen table.now i × Known table.now e × KnownZ table.now z × (count * binding_size ≤ length store.now) }
    ensures { MeansAt phase store.now count table.now i e z result }
{
    match forms::name_of(table, store, count, i, phase) {
        Naming::Unclear(rivals) => Meaning::Unclear(rivals),
        Naming::Unnamed => Meaning::Unknown,
        Naming::Named(n) => lookup_among(table, e, z, n),
    }
}

// Request T-08: where a tree is evaluated. Without an introduction scope (0) it is a right-hand side or the evaluate job; with one, a use of a
// macro at that phase, with those meanings and stops.
#[derive(Clone, Copy)]
pub struct Place {
    pub intro: Scope,
    pub phase: u32,
    pub meanings: u32,
    pub stops: u32,
}
