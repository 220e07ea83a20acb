// Runs the lists of calls of its folder whose names stand on standard input, a line each, through the functions of `rehearse`, and prints
// for each its name, what is printed for it, and an empty line. independent/rehearse.py makes the lists and, by an implementation of its
// own, what this program must write.

#![tactic(auto)]

use buffers::count_first;
use header_line::put_header;
use rehearser::Rehearse;
use rehearsing::begin;
use rounds::round;
use runs_files::{read_full, read_named};
use runs_text::text;
use standing::{Run, Wants, after_write, begin_run};
use std::io;
use std::rt::Files;

// Writes the bytes before place at.
fn print(rt: &impl Print, out: &[u8], at: usize) -> io::Result<()> {
    let n = count_first(at, out);
    text(rt, &out[..n])
}

// What is printed for the list of a file. A list that fits the buffer has fewer rounds.
fn print_rehearsed(rt: &(impl Files + Print), name: &[u8]) -> io::Result<()> {
    let mut input_space = [0u8; 65536];
    let mut out_space = [0u8; 65536];
    let input: &mut [u8] = &mut input_space;
    let out: &mut [u8] = &mut out_space;
    let filled = read_named(rt, name, input)?;
    let mut r = begin();
    // the input buffer has the whole list
    let mut s = Run {
        filled,
        ended: true,
        ..begin_run(put_header(out, 0))
    };
    for _ in 0..65536 {
        let rehearsed = round::<Rehearse>(r, s, input, out);
        r = rehearsed.state;
        s = after_write(rehearsed.run);
        print(rt, out, rehearsed.run.at)?;
        if !matches!(rehearsed.run.wants, Wants::Write) {
            return Ok(());
        }
    }
    Ok(())
}

// One list, by the name of its file.
fn run(rt: &(impl Files + Print), name: &[u8]) -> io::Result<()> {
    text(rt, name)?;
    text(rt, b"\n")?;
    print_rehearsed(rt, name)?;
    text(rt, b"\n")
}

fn main(rt: HostRuntime) -> io::Result<()> {
    let mut space = [0u8; 65536];
    let n = read_full(&mut rt.reader(), &mut space)?;
    for line in space[..n].split_inclusive(|byte| *byte == b'\n') {
        run(&rt, line.strip_suffix(b"\n").unwrap_or(line))?;
    }
    Ok(())
}
