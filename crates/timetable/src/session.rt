// A session: lines of commands in, their answers out.
ghost use Rattle.std.specs.Prelude.{◌≡◌, ◌++◌, IfOk, OnOk, string_bytes};
ghost use Rattle.timetable.specs.Lines.{lines, LinesOf};
ghost use Rattle.timetable.specs.Session.{answer, transcript};

use crate::command::{Command, NotACommand};
use crate::lines::Lines;
use digest::DigestKind;
use std::alloc::{AllocError, Global};

// The most bytes that a session takes.
pub const LIMIT: usize = 16_384;

// The node of the map that holds nothing.
const EMPTY_NODE: [u8; 7] = [0xA2, 0x61, 0x65, 0x80, 0x61, 0x6C, 0xF6];

// The answers to the lines of the input, in order; to more than `LIMIT` bytes, `too long` alone.
pub fn answers<K: DigestKind>(heap: Global, input: &[u8]) -> Result<String, AllocError>
    ensures transcript { IfOk result (λ text. string_bytes text ≡ transcript K.DigestKind.kind input.now) }
    ensures lines { LinesOf input.now (lines input.now) }
{
    if input.len() > LIMIT {
        return String::from_str(heap, "too long\n");
    }
    let mut out = String::new(heap);
    for (i, line) in (Lines { rest: input }).enumerate() {
        write_answer::<K>(&mut out, i + 1, line)?;
    }
    Ok(out)
}

// Writes the answer to one line, given its number.
fn write_answer<K: DigestKind>(
    out: &mut String,
    number: usize,
    line: &[u8],
) -> Result<(), AllocError>
    ensures { OnOk result (string_bytes out.new ≡ string_bytes out.old ++ answer K.DigestKind.kind number line.now) }
{
    match Command::try_from(line) {
        Ok(Command::Root) => {
            let root = K::digest(&EMPTY_NODE);
            writeln!(out, "{root}")
        }
        Err(NotACommand) => writeln!(out, "bad {number}"),
    }
}
