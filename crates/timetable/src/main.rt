// The program: answers the lines of standard input, one by one, on standard output.
//
//   command   the commands, as lines of text
//   lines     a text cut into lines
//   session   the answers to a whole input
#![tactic(auto)]

ghost use Rattle.std.specs.Prelude.{◌≡◌, ◌+◌, ◌≤◌, take, IfOk, IfSome};
ghost use Rattle.std.specs.Io.{ReadsAtMost};
ghost use Rattle.std.specs.Io.KnownBytes.{ReadConsumes};
ghost use Rattle.timetable.specs.Session.{limit};

mod command;
mod lines;
mod session;

use session::{LIMIT, answers};
use sha256::Sha256;
use std::io;
use std::io::{ErrorKind, Read, Write};

// Room for one byte more than a session takes. An array: to read takes no memory, and the first read asks for all at once.
const BUFFER: usize = LIMIT + 1;

fn main(rt: HostRuntime) -> io::Result<()> {
    let mut buffer = [0u8; BUFFER];
    let count = read_input(&mut rt.stdin(), &mut buffer)?;
    let out = answers::<Sha256>(rt.alloc(), &buffer[..count])?;
    rt.stdout().write_all(out.as_bytes())
}

// Reads all bytes of the input, or enough of them to see that it is too long, and says how many came.
fn read_input<R: Read>(input: &mut R, buffer: &mut [u8; BUFFER]) -> io::Result<usize>
    ensures value { IfOk result (λ n. IfSome (R.remaining input.old) (λ bytes. take n buffer.new ≡ take (limit + 1) bytes)) }
    ensures bound { IfOk result (λ n. n ≤ limit + 1) }
{
    let mut filled = 0;
    while filled < BUFFER {
        let count = read_some(input, &mut buffer[filled..])?;
        if count == 0 {
            break;
        }
        filled += count;
    }
    Ok(filled)
}

// One read, made again where a signal interrupts it.
fn read_some<R: Read>(input: &mut R, buffer: &mut [u8]) -> io::Result<usize>
    ensures bound { ReadsAtMost result buffer.new }
    ensures bytes { ReadConsumes (R.remaining input.old) (R.remaining input.new) result buffer.new }
{
    for _ in 0..u64::MAX {
        match input.read(buffer) {
            Err(fault) if fault.kind() == ErrorKind::Interrupted => {}
            answer => return answer,
        }
    }
    Err(ErrorKind::Interrupted.into())
}
