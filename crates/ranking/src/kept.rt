// The bindings that are marked, written with new numbers, in the order in which they stand.
ghost use Rattle.store.specs.Words.{bind_of};
ghost use Rattle.text.specs.Placing.{Placed};
ghost use Rattle.marking.specs.Kept.{kept_of};
ghost use Rattle.ranking.specs.Numbered.{bind_by, binds_by, RoomFor, KeptRoom};

use crate::numbered;
use store::bindings;
use store::bindings::Binding;

fn put_binding(out: &mut [u8], at: usize, b: Binding, ranks: &[u32]) -> usize
    requires { RoomFor out.old at ranks.now (bind_by ranks.now (bind_of b)) }
    ensures { Placed out.old at (bind_by ranks.now (bind_of b)) out.new result }
{
    let second = numbers::put_number(out, at, b.symbol.0);
    let third = numbers::put_number(out, second, b.target.0);
    numbered::put_set(out, third, b.set, ranks)
}

// There are as many bindings as marks.
pub fn put_kept(out: &mut [u8], at: usize, store: &[u64], marks: &[u8], ranks: &[u32]) -> usize
    requires { KeptRoom out.old at ranks.now store.now marks.now }
    ensures { Placed out.old at (binds_by ranks.now (kept_of marks.now store.now)) out.new result }
{
    let mut here = at;
    for (i, &mark) in marks.iter().enumerate() {
        if mark != 0 {
            here = put_binding(out, here, bindings::get(store, i), ranks);
        }
    }
    here
}
