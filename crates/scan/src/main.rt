// Runs a recording on the program of a tree image: `scan IMAGE RECORDING`, both files. Prints a line for each scan; of what is refused, one
// line `code ..` on standard error, and nothing on standard output.
#![tactic(auto)]

mod files;
mod lines;

use bits::Gathered;
use std::io;
use wiring::Wired;

// The image and the recording are read; everything else is made here.
fn run(rt: HostRuntime, image: &[u8], recording: &[u8]) -> io::Result<()> {
    let mut marks = [0u8; Gathered::POINTS];
    let mut names = [0u32; Gathered::ROOM as usize];
    let mut code = [0u16; Wired::ROOM];
    let mut values = [0u8; Gathered::POINTS];
    let mut bits = [0u8; Gathered::ROOM as usize];
    let mut line = [0u8; lines::ROOM];
    lines::print(
        rt,
        image,
        recording,
        &mut marks,
        &mut names,
        &mut code,
        &mut values,
        &mut bits,
        &mut line,
    )
}

fn main(rt: HostRuntime) -> io::Result<()> {
    let mut image = [0u8; files::ROOM];
    let mut recording = [0u8; files::ROOM];
    let m = files::read_argument(rt, 1, &mut image);
    let n = files::read_argument(rt, 2, &mut recording);
    run(rt, &image[..m], &recording[..n])
}
