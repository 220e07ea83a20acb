// Follows a recording: reads `m,n` and then rows of minislots, and prints the listener's counters after each slot.
// It reads standard input, or the file that its first argument names, or, where that is the word `example`, a recording of its own.

#![tactic(auto)]

use follow_header::put_header;
use follower::Follow;
use following::begin;
use pipes::{Failure, flush, open_named, serve, status, too_long};
use rounds::round;
use standing::begin_run;
use std::env::{Env, FillError};
use std::io::{self, Read, Write};
use std::process::ExitCode;
use std::rt::Files;
use stream::buffered;

// Follows all that the reader gives. A proved loop has to end, and nothing says that the input does: so the loop counts its rounds, up to
// a number that no run comes to.
fn follow_input(reader: &mut impl Read, writer: &mut impl Write) -> Result<(), Failure> {
    let mut input_space = [0u8; 65536];
    let mut out_space = [0u8; 65536];
    let input: &mut [u8] = &mut input_space;
    let out: &mut [u8] = &mut out_space;
    let mut f = begin();
    let mut s = begin_run(put_header(out, 0));
    for _ in 0..u64::MAX {
        let followed = round::<Follow>(f, s, input, out);
        f = followed.state;
        let served = serve(reader, writer, followed.run, input, out)?;
        s = served.run;
        if !served.live {
            return Ok(());
        }
    }
    Ok(())
}

// Follows the recording of the paper's example.
fn follow_example(writer: &mut impl Write) -> Result<(), Failure> {
    let mut space = [0u8; 4096];
    let out: &mut [u8] = &mut space;
    let at = put_header(out, 0);
    let recording = b"2,1\r\n0,0,0,0\r\n63,1,95,3\r\n127,3,0,0\r\n111,1,119,2\r\n0,0,0,0\r\n";
    let n = buffered::<Follow>(begin(), recording, 0, true, out, at);
    flush(writer, out, n.at)
}

fn follow_named(rt: &(impl Files + Print), name: &[u8]) -> Result<(), Failure> {
    let mut writer = io::writer(rt);
    if name == b"example".as_slice() {
        return follow_example(&mut writer);
    }
    let mut file = open_named(rt, name)?;
    follow_input(&mut file, &mut writer)
}

fn main(rt: HostRuntime) -> ExitCode {
    let errors = rt.stderr();
    let mut space = [0u8; 4096];
    match rt.arg(1, &mut space) {
        Ok(length) => {
            let name = &space[..length];
            status(&errors, name, follow_named(&rt, name))
        }
        Err(FillError::NotPresent) => {
            let done = follow_input(&mut rt.reader(), &mut io::writer(&rt));
            status(&errors, b"standard input", done)
        }
        Err(FillError::TooLong) => status(&errors, b"argument", Err(too_long())),
    }
}
