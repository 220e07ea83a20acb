// What a run needs of the system: bytes of its input, and that its output is written. Nothing here knows what the bytes are.

#![tactic(auto)]

use buffers::count_first;
use standing::{Run, Wants, after_read, after_write, read_end};
use std::fs;
use std::io::{self, ErrorKind, Read, Write};
use std::process::ExitCode;
use std::rt::Files;

// A run after what it needed was done, and whether it goes on.
#[derive(Clone, Copy)]
pub struct Served {
    pub run: Run,
    pub live: bool,
}

// What failed: the input could not be opened or read, or the output not be written.
#[derive(Clone, Copy)]
pub enum Failure {
    Input(io::Error),
    Output(io::Error),
}

// Writes the bytes before place at.
pub fn flush(writer: &mut impl Write, out: &[u8], at: usize) -> Result<(), Failure> {
    let n = count_first(at, out);
    writer.write_all(&out[..n]).map_err(Failure::Output)
}

// Reads on, behind the bytes that are kept. Where that fails, what the output buffer holds is written before it is told.
fn read_on(
    reader: &mut impl Read,
    writer: &mut impl Write,
    s: Run,
    input: &mut [u8],
    out: &[u8],
) -> Result<Served, Failure> {
    let kept = count_first(s.filled, input);
    let end = read_end(kept, input);
    match reader.read(&mut input[kept..end]) {
        Ok(more) => Ok(Served {
            run: after_read(s, input, more),
            live: true,
        }),
        Err(error) => {
            flush(writer, out, s.at)?;
            Err(Failure::Input(error))
        }
    }
}

// Does what a run needs: reads on, or writes what the output buffer holds.
pub fn serve(
    reader: &mut impl Read,
    writer: &mut impl Write,
    s: Run,
    input: &mut [u8],
    out: &[u8],
) -> Result<Served, Failure> {
    match s.wants {
        Wants::Read => read_on(reader, writer, s, input, out),
        Wants::Write => {
            flush(writer, out, s.at)?;
            Ok(Served {
                run: after_write(s),
                live: true,
            })
        }
        Wants::End => {
            flush(writer, out, s.at)?;
            Ok(Served {
                run: s,
                live: false,
            })
        }
    }
}

// ---- the input by its name, and the end of a program

// Opens the file of this name for reading. std takes a name that is text.
pub fn open_named<R: Files>(rt: &R, name: &[u8]) -> Result<R::File, Failure> {
    let Ok(text) = str::from_utf8(name) else {
        let kind = ErrorKind::InvalidFilename;
        return Err(Failure::Input(io::Error::new(kind, "the name is not UTF-8 text")));
    };
    fs::open(rt, text).map_err(Failure::Input)
}

// The system's number of a name that is too long.
const ENAMETOOLONG: i32 = 36;

// That a name is longer than any file's.
pub fn too_long() -> Failure {
    Failure::Input(io::Error::from_raw_os_error(ENAMETOOLONG))
}

// Tells what failed, by its name and in the system's words.
fn tell(errors: &impl Print, name: &[u8], error: io::Error) -> io::Result<()> {
    errors.write_all(name)?;
    errors.println(format_args!(": {error}"))
}

// The status that a shell gives a program which the signal of a closed pipe ended.
const PIPE_CLOSED: u8 = 141;

// The status that a program ends with. What failed is told first, the input by its name. That nobody reads on is not told.
pub fn status(errors: &impl Print, name: &[u8], done: Result<(), Failure>) -> ExitCode {
    let told = match done {
        Ok(()) => return ExitCode::SUCCESS,
        Err(Failure::Input(error)) => tell(errors, name, error),
        Err(Failure::Output(error)) => {
            if error.kind() == ErrorKind::BrokenPipe {
                return ExitCode::from(PIPE_CLOSED);
            }
            tell(errors, b"standard output", error)
        }
    };
    let _ = told;
    ExitCode::FAILURE
}
