// Reads a card file on standard input and prints its layout: `card_text` decides everything.
// Only a read that answers 0 is the end of the input. Where a read or a write fails, an interrupted one too, a line on standard error says so: after a failed
// read nothing stands on standard output, and after a failed write what stands there may be cut.
#![tactic(auto)]

ghost use Rattle.std.specs.Prelude.{IfOk};
ghost use Rattle.card.specs.Inputs.{IsPrefixLen};

use std::io::{self, Read, Write};

fn main(rt: HostRuntime) {
    // One byte more than is taken, so that a longer input shows.
    let mut input = [0u8; card_output::MAX_INPUT + 1];
    match read_input(&mut rt.stdin(), &mut input) {
        Ok(n) => answer(&rt, &input[..n]),
        Err(_) => complain(&rt, b"card: the input could not be read\n"),
    }
}

// How many bytes came up to the end of the input, or as many as there is room for. Each turn reads a byte at least, or is the last.
fn read_input<R: Read>(from: &mut R, room: &mut [u8]) -> io::Result<usize>
    ensures { IfOk result (λ n. IsPrefixLen n room.new) }
{
    let mut n = 0;
    while n < room.len() {
        let more = from.read(&mut room[n..])?;
        if more == 0 {
            break;
        }
        n += more;
    }
    Ok(n)
}

fn answer(rt: &HostRuntime, input: &[u8]) {
    let text = card_output::card_text(input);
    if !write_all(&mut rt.stdout(), text.as_bytes()) {
        complain(rt, b"card: the answer could not be written\n");
    }
}

fn complain(rt: &HostRuntime, line: &[u8]) {
    write_all(&mut rt.stderr(), line);
}

// Writes all the bytes, or stops at the first write that takes none or fails, and says whether all were written.
// The library's `write_all` tries an interrupted write again.
fn write_all<W: Write>(to: &mut W, bytes: &[u8]) -> bool {
    let mut rest = bytes;
    while !rest.is_empty() {
        match to.write(rest) {
            Ok(0) | Err(_) => return false,
            Ok(n) => rest = &rest[n..],
        }
    }
    true
}
