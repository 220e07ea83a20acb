// Rehearses a channel: reads its start and then calls, and prints every answer.
// It reads standard input, or the file that its first argument names, or, where that is the word `example`, a list of its own.

#![tactic(auto)]

use header_line::put_header;
use pipes::{Failure, flush, open_named, serve, status, too_long};
use rehearser::Rehearse;
use rehearsing::begin;
use rounds::round;
use standing::begin_run;
use std::env::{Env, FillError};
use std::io::{self, Read, Write};
use std::process::ExitCode;
use std::rt::Files;
use stream::buffered;

// Rehearses all that the reader gives. A proved loop has to end, and nothing says that the input does: so the loop counts its rounds, up
// to a number that no run comes to.
fn rehearse_input(reader: &mut impl Read, writer: &mut impl Write) -> Result<(), Failure> {
    let mut input_space = [0u8; 65536];
    let mut out_space = [0u8; 65536];
    let input: &mut [u8] = &mut input_space;
    let out: &mut [u8] = &mut out_space;
    let mut r = begin();
    let mut s = begin_run(put_header(out, 0));
    for _ in 0..u64::MAX {
        let rehearsed = round::<Rehearse>(r, s, input, out);
        r = rehearsed.state;
        let served = serve(reader, writer, rehearsed.run, input, out)?;
        s = served.run;
        if !served.live {
            return Ok(());
        }
    }
    Ok(())
}

// Rehearses a short list of calls on three stations.
fn rehearse_example(writer: &mut impl Write) -> Result<(), Failure> {
    let mut space = [0u8; 65536];
    let out: &mut [u8] = &mut space;
    let at = put_header(out, 0);
    let list =
        b"2,1,7,8,9\r\noffer,7,48\r\nslot,1,1,1\r\noffer,8,20\r\noffer,9,97\r\noffer,7,1\r\nslot,1,2,2\r\n\
          slot,1,1,2\r\nshow\r\nslot,1,1,1\r\nslot,1,1,1\r\nslot,1,1,1\r\nslot,1,1,1\r\n";
    let n = buffered::<Rehearse>(begin(), list, 0, true, out, at);
    flush(writer, out, n.at)
}

fn rehearse_named(rt: &(impl Files + Print), name: &[u8]) -> Result<(), Failure> {
    let mut writer = io::writer(rt);
    if name == b"example".as_slice() {
        return rehearse_example(&mut writer);
    }
    let mut file = open_named(rt, name)?;
    rehearse_input(&mut file, &mut writer)
}

fn main(rt: HostRuntime) -> ExitCode {
    let errors = rt.stderr();
    let mut space = [0u8; 4096];
    match rt.arg(1, &mut space) {
        Ok(length) => {
            let name = &space[..length];
            status(&errors, name, rehearse_named(&rt, name))
        }
        Err(FillError::NotPresent) => {
            let done = rehearse_input(&mut rt.reader(), &mut io::writer(&rt));
            status(&errors, b"standard input", done)
        }
        Err(FillError::TooLong) => status(&errors, b"argument", Err(too_long())),
    }
}
