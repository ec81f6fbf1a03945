// Reads one image on standard input, expands it at phase 0, parses the result, and prints one line: the code, and the units of both jobs. With
// code 6 a line on standard error says which two bindings compete.
#![tactic(auto)]

mod competing;
mod line;
mod showing;

use refusals::Refusal;
use std::io;

// One byte more than an image may have shows that there are too many.
const INPUT: usize = meirhuppa::limits::MOST_IMAGE + 1;

// Parsing what was expanded never gives code 6: where it comes, it comes of expanding, and expanding once more shows why.
fn print(rt: HostRuntime, image: &[u8]) -> io::Result<()> {
    let mut text = [0u8; line::MOST_BYTES];
    let shown = line::print(image, &mut text);
    rt.write_all(&text[..shown.length])?;
    if shown.code == Refusal::Ambiguous.code() {
        return competing::print(&rt.stderr(), image);
    }
    Ok(())
}

fn main(rt: HostRuntime) -> io::Result<()> {
    let mut image = [0u8; INPUT];
    let n = input::read_full(&mut rt.stdin(), &mut image);
    print(rt, &image[..n])
}
