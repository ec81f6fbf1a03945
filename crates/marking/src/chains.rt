// The bindings of each symbol as a chain: for each symbol the place of its last binding, for each binding the place of the one before it with the
// same symbol. Places count from 1, and 0 is none.
ghost use Rattle.marking.specs.Chains.{Unchained, Chains};

use store::bindings;

// There are as many bindings as `befores` has places.
pub fn chain(store: &[u64], lasts: &mut [usize], befores: &mut [usize])
    requires { Unchained store.now lasts.old befores.old }
    ensures { Chains store.now lasts.old befores.old lasts.new befores.new }
{
    for i in 0..befores.len() {
        let x = bindings::get(store, i).symbol.0 as usize;
        befores[i] = lasts[x];
        lasts[x] = i + 1;
    }
}
