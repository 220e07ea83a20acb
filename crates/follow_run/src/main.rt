// Runs the recordings of its folder whose names stand on standard input, a line each, through the functions of `follow`, and prints for
// each its name, what is printed for it, and an empty line. independent/follow.py makes the recordings and, by an implementation of its
// own, what this program must write.

#![tactic(auto)]

use buffers::count_first;
use follow_header::put_header;
use follower::Follow;
use following::begin;
use runs_files::{read_full, read_named};
use runs_text::text;
use std::io;
use std::rt::Files;
use stream::buffered;

// Writes the bytes before place at.
fn print(rt: &impl Print, out: &[u8], at: usize) -> io::Result<()> {
    let n = count_first(at, out);
    text(rt, &out[..n])
}

// What is printed for the bytes of a whole recording.
fn print_followed(rt: &impl Print, bytes: &[u8]) -> io::Result<()> {
    let mut space = [0u8; 65536];
    let out: &mut [u8] = &mut space;
    let at = put_header(out, 0);
    let n = buffered::<Follow>(begin(), bytes, 0, true, out, at);
    print(rt, out, n.at)
}

// One recording, by the name of its file.
fn run(rt: &(impl Files + Print), name: &[u8]) -> io::Result<()> {
    text(rt, name)?;
    text(rt, b"\n")?;
    let mut space = [0u8; 65536];
    let n = read_named(rt, name, &mut space)?;
    print_followed(rt, &space[..n])?;
    text(rt, b"\n")
}

fn main(rt: HostRuntime) -> io::Result<()> {
    let mut space = [0u8; 65536];
    let n = read_full(&mut rt.reader(), &mut space)?;
    for line in space[..n].split_inclusive(|byte| *byte == b'\n') {
        run(&rt, line.strip_suffix(b"\n").unwrap_or(line))?;
    }
    Ok(())
}
