// Bindings read into the store of a job: the first fault decides, and each binding is judged against the one before it when it is whole.
ghost use Rattle.std.specs.Prelude.{◌≡◌, ◌+◌, ◌-◌, ◌*◌, ◌≤◌, ◌<◌, length, IfOk};
ghost use Rattle.scopes.specs.Sets.{set_scopes};
ghost use Rattle.numbers.specs.Limits.{most_image};
ghost use Rattle.numbers.specs.Answers.{read_at, seen};
ghost use Rattle.store.specs.Words.{bind_of, binds_of};
ghost use Rattle.bindings.specs.Sections.{read_one, read_all, MoreRead, SomeRead};
ghost use Rattle.store.specs.Sizes.{binding_size, store_size, most_bindings};

use head::Counts;
use numbers::{Cursor, Read};
use refusals::Refusal;
use scopes::{Name, Symbol};
use store::bindings;
use store::bindings::Binding;
use store::resolving::Resolving;

// A binding: symbol, target, set.
fn read_binding(c: Cursor, s: &[u8], counts: Counts) -> Read<Binding>
    requires { (c.at + length s.now ≤ most_image) × (counts.scopes ≤ set_scopes) }
    ensures { seen bind_of result ≡ read_at (c.at + length s.now) (read_one counts s.now) }
{
    let (x, past) = c.number_below(s, counts.symbols)?;
    let (t, behind) = past.number_below(c.after(s, past), counts.names)?;
    let (set, end) = sets::read_set(behind, c.after(s, behind), counts.scopes)?;
    let binding = Binding {
        symbol: Symbol(x),
        target: Name(t),
        set,
    };
    Ok((binding, end))
}

// The bindings from place i to place count, each after the one before; `last` is the one before the first of them.
fn read_more(
    c: Cursor,
    s: &[u8],
    counts: Counts,
    store: &mut [u64],
    i: usize,
    count: usize,
    last: Binding,
) -> Result<Cursor, Refusal>
    requires image { (c.at + length s.now ≤ most_image) × (counts.scopes ≤ set_scopes) }
    requires held { (i ≤ count) × (count * binding_size ≤ length store.old) }
    ensures { MoreRead counts s.now (c.at + length s.now) (bind_of last) i count store.old store.new result }
{
    let mut here = c;
    let mut prior = last;
    for k in i..count {
        let (b, past) = read_binding(here, c.after(s, here), counts)?;
        if !prior.before(b) {
            return Err(Refusal::Layout);
        }
        bindings::put(store, k, b);
        here = past;
        prior = b;
    }
    Ok(here)
}

// So many bindings, into the store from its start.
fn read_some(
    c: Cursor,
    s: &[u8],
    counts: Counts,
    store: &mut [u64],
    count: usize,
) -> Result<Cursor, Refusal>
    requires image { (c.at + length s.now ≤ most_image) × (counts.scopes ≤ set_scopes) }
    requires held { count * binding_size ≤ length store.old }
    ensures { SomeRead counts s.now (c.at + length s.now) count store.new result }
{
    if count == 0 {
        return Ok(c);
    }
    let (b, past) = read_binding(c, s, counts)?;
    bindings::put(store, 0, b);
    read_more(past, c.after(s, past), counts, store, 1, count, b)
}

// The bindings of an image, at a cursor, where `s` is the image from there on: how many stand in the store, with the place past them.
pub fn read_bindings(c: Cursor, s: &[u8], counts: Counts, store: &mut [u64]) -> Read<usize>
    requires image { (c.at + length s.now ≤ most_image) × (counts.scopes ≤ set_scopes) }
    requires held { store_size ≤ length store.old }
    ensures result_after { seen (binds_of store.new) result ≡ read_at (c.at + length s.now) (read_all counts s.now) }
    ensures count_le_most_bindings { IfOk result (λ r. r.0 ≤ most_bindings) }
{
    let (n, past) = c.number_up_to(s, Refusal::OverLimit, Resolving::MOST as u32)?;
    let count = n as usize;
    let behind = read_some(past, c.after(s, past), counts, store, count)?;
    Ok((count, behind))
}
