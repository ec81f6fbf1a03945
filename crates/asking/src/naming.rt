// The names of the stops of a local expansion, each of which must have a meaning. Their bits lie at the state's first free word.
ghost use Rattle.environment.specs.Meanings.{Known};
ghost use Rattle.asking.specs.Stopping.{HasMeaning, ReadyNamed, StopsNamed, ReadyStop, StopsOne, ReadyStops, StopsAll};

use environment::{Meaning, Place};
use forms::Naming;
use refusals::Refusal;
use scopes::Name;
use steps::{State, Stop};

// The stops of before are not asked for.
fn has_meaning(table: &[u32], e: u32, n: Name) -> bool
    requires { Known table.now e }
    ensures { HasMeaning table.now e n.0 result }
{
    !matches!(
        environment::lookup(table, e, n),
        Meaning::Unknown | Meaning::Unclear(_)
    )
}

fn stop_named(table: &mut [u32], s: State, n: Name, e: u32) -> Result<State, Stop>
    requires { ReadyNamed table.old s e }
    ensures { StopsNamed e table.old table.new s n.0 result }
{
    if !has_meaning(table, e, n) {
        return Err(s.stop(Refusal::WrongArgument));
    }
    stops::stop(table, s.top, n);
    Ok(s)
}

fn stop_one(table: &mut [u32], store: &[u64], s: State, i: u32, at: Place) -> Result<State, Stop>
    requires { ReadyStop table.old store.now s i at }
    ensures { StopsOne at store.now table.old table.new s i result }
{
    match forms::name_of(table, store, s.bindings, i, at.phase) {
        Naming::Unnamed => Err(s.stop(Refusal::WrongArgument)),
        Naming::Unclear(rivals) => Err(Stop {
            refusal: Refusal::Ambiguous,
            rivals,
            left: s.left,
        }),
        Naming::Named(n) => stop_named(table, s, n, at.meanings),
    }
}

// Of the chain c. The table that holds the chain is written meanwhile, so no iterator goes over it.
pub fn stop_all(
    table: &mut [u32],
    store: &[u64],
    s: State,
    c: u32,
    at: Place,
) -> Result<State, Stop>
    requires { ReadyStops table.old store.now s c at }
    ensures { StopsAll at store.now table.old table.new s c result }
{
    let mut k = c;
    while k != 0 {
        let x = table::get_cell(table, k);
        stop_one(table, store, s, x.head, at)?;
        k = x.tail;
    }
    Ok(s)
}
