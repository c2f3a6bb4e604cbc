// The program: it reads a sheet from standard input, and prints it in order of name with every list and table in order; or
// the number of the first denial. The work is in crate `sheets`.
#![tactic(auto)]

use sheets::{INPUT_LIMIT, settle};
use std::io::{self, ErrorKind, Read, Write};

fn main(rt: HostRuntime) -> io::Result<()> {
    let mut input = Vec::new(rt.alloc());
    // one byte more than may be, to tell what is too long
    rt.stdin()
        .take(INPUT_LIMIT as u64 + 1)
        .read_to_end(&mut input)?;
    match settle(rt.alloc(), input.as_slice()) {
        Ok(sheet) => rt.stdout().write_all(sheet.as_slice()),
        Err(fault) => match fault.number() {
            Some(number) => println!(rt; "{number}"),
            None => Err(ErrorKind::OutOfMemory.into()),
        },
    }
}
