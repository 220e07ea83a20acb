// What a run reads: its standard input, and the files of its folder. For the programs that check by running.

#![tactic(auto)]

ghost use Rattle.std.specs.Prelude.{◌≡◌, ◌≤◌, length, take, IfOk};

use std::fs;
use std::io::{self, Read};
use std::rt::Files;

// Reads until the buffer is full or the input ends, and gives how many bytes came.
pub fn read_full(reader: &mut impl Read, space: &mut [u8]) -> io::Result<usize>
    ensures within { IfOk result (λ n. n ≤ length space.new) }
    ensures taken { IfOk result (λ n. n ≡ length (take n space.new)) }
{
    let mut done = 0;
    // by hand: std's read_to_end puts what it reads into a Vec, and nothing is allocated here
    while done < space.len() {
        let n = reader.read(&mut space[done..])?;
        if n == 0 {
            break;
        }
        done += n;
    }
    Ok(done)
}

// The name as text, as std wants it of a file.
fn name_text(name: &[u8]) -> io::Result<&str> {
    str::from_utf8(name).map_err(|_| io::Error::from(io::ErrorKind::InvalidFilename))
}

// Reads the file of this name as far as the buffer has room, and gives how many bytes came.
pub fn read_named(rt: &impl Files, name: &[u8], space: &mut [u8]) -> io::Result<usize>
    ensures within { IfOk result (λ n. n ≤ length space.new) }
    ensures taken { IfOk result (λ n. n ≡ length (take n space.new)) }
{
    let mut file = fs::open(rt, name_text(name)?)?;
    read_full(&mut file, space)
}
