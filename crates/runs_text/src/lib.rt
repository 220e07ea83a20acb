// Bytes and numbers on standard output, for the programs that check by running.

#![tactic(auto)]

use std::fmt::Display;
use std::io;

pub fn text(rt: &impl Print, bytes: &[u8]) -> io::Result<()> {
    rt.write_all(bytes)
}

// Numbers with a comma in front of each.
pub fn fields<T: Display>(rt: &impl Print, numbers: &[T]) -> io::Result<()> {
    for number in numbers {
        print!(rt; ",{number}")?;
    }
    Ok(())
}
