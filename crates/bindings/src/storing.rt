// Bindings written, in the order in which they stand. All of them together take at most 203,264 bytes, so their length is exact.
ghost use Rattle.std.specs.Prelude.{◌≡◌, ◌+◌, ◌*◌, ◌≤◌, length};
ghost use Rattle.std.proofs.lemmas.List.Edits.{sets};
ghost use Rattle.bindings.specs.Lengths.{longest_binding, longest_bindings};
ghost use Rattle.model.specs.Writing.{bind_bytes, binds_bytes};
ghost use Rattle.store.specs.Words.{bind_of, binds_of};
ghost use Rattle.store.specs.Sizes.{binding_size, most_bindings};

use store::bindings;
use store::bindings::Binding;

// How many bytes a binding takes.
fn binding_len(b: Binding) -> usize
    ensures { (result ≡ length (bind_bytes (bind_of b))) × (result ≤ longest_binding) }
{
    numbers::number_len(b.symbol.0) + numbers::number_len(b.target.0) + sets::set_len(b.set)
}

// Writes a binding at a place, and gives the place past it.
fn put_binding(out: &mut [u8], at: usize, b: Binding) -> usize
    requires { at + length (bind_bytes (bind_of b)) ≤ length out.old }
    ensures past { result ≡ at + length (bind_bytes (bind_of b)) }
    ensures bytes { out.new ≡ sets out.old at (bind_bytes (bind_of b)) }
{
    let second = numbers::put_number(out, at, b.symbol.0);
    let third = numbers::put_number(out, second, b.target.0);
    sets::put_set(out, third, b.set)
}

// How many bytes the first count bindings take.
pub fn bindings_len(store: &[u64], count: usize) -> usize
    requires { (count * binding_size ≤ length store.now) × (count ≤ most_bindings) }
    ensures { (result ≡ length (binds_bytes (binds_of store.now count))) × (result ≤ longest_bindings) }
{
    let mut n: usize = 0;
    for i in 0..count {
        n += binding_len(bindings::get(store, i));
    }
    n
}

// Writes the first count bindings at a place, and gives the place past them.
pub fn put_bindings(out: &mut [u8], at: usize, store: &[u64], count: usize) -> usize
    requires room { at + length (binds_bytes (binds_of store.now count)) ≤ length out.old }
    requires held { count * binding_size ≤ length store.now }
    ensures past { result ≡ at + length (binds_bytes (binds_of store.now count)) }
    ensures bytes { out.new ≡ sets out.old at (binds_bytes (binds_of store.now count)) }
{
    let mut here = at;
    for i in 0..count {
        here = put_binding(out, here, bindings::get(store, i));
    }
    here
}
