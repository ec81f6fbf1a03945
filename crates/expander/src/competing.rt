// T-04 for people: which two bindings compete, in a line on standard error. A job gives their places back and no more, so the image is expanded
// a second time, with a store that can be looked at behind it. What is printed here is tested and not proved: no contract can say what is
// written.
ghost use Rattle.std.specs.Prelude.{◌≤◌, length};
ghost use Rattle.store.specs.Sizes.{store_size, held_size};
ghost use Rattle.table.specs.Lending.{Lent};
ghost use Rattle.expander.specs.Lines.{job_budget};

use crate::{line, showing};
use finish::Ending;
use jobs::expanding;
use meirhuppa::limits;
use std::io;
use store::carried;
use store::rivals::Rivals;

fn print_rivals(error: &impl Print, image: &[u8], store: &[u64], rivals: Rivals) -> io::Result<()>
    requires { store_size ≤ length store.now }
{
    showing::say(error, b"ambiguous: ")?;
    showing::print_binding(error, image, store, rivals.first)?;
    showing::say(error, b" and ")?;
    showing::print_binding(error, image, store, rivals.second)?;
    showing::say(error, b" compete\n")
}

fn print_with(
    error: &impl Print,
    image: &[u8],
    store: &mut [u64],
    table: &mut [u32],
    out: &mut [u8],
) -> io::Result<()>
    requires lent { Lent table.old job_budget }
    requires wide { held_size ≤ length store.old }
{
    match expanding::expand_image(out, image, store, table, 0, line::BUDGET) {
        Ending::Stopped(_, rivals, _) => print_rivals(error, image, store, rivals),
        _ => Ok(()),
    }
}

// For an image whose expansion stops at code 6.
pub fn print(error: &impl Print, image: &[u8]) -> io::Result<()> {
    let mut store = [0u64; carried::HELD];
    let mut table = [0u32; line::WORDS];
    let mut out = [0u8; limits::MOST_IMAGE];
    print_with(error, image, &mut store, &mut table, &mut out)
}
