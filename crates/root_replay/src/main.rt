// Replays a stored list of numbers and their roots, which the machine's square root gave, and prints how many of its lines agree.
#![tactic(auto)]

mod list;

ghost use Rattle.std.specs.Prelude.{◌/◌, ◌≤◌, length};

use list::LINE;
use std::io::{self, Read};

// A refusal stands in the list as a NaN's pattern with its number in the digits: no root has such a pattern.
const REFUSED: u64 = 9221120237041090560;

fn main(rt: HostRuntime) -> io::Result<()> {
    let mut text = [0u8; 65536];
    let n = read_full(&mut rt.stdin(), &mut text);
    let agreed = agreeing(&text[..n]);
    let all = n.div_ceil(LINE);
    // A last line that is cut counts among all.
    println!(rt; "root: {agreed} of {all} agree")
}

// Reads until there is no room left, the input ends or a read fails, and says how many bytes came.
fn read_full<R: Read>(input: &mut R, room: &mut [u8]) -> usize
    ensures { result ≤ length room.new }
{
    let mut done = 0;
    while done < room.len() {
        match input.read(&mut room[done..]) {
            Ok(0) | Err(_) => break,
            Ok(n) => done += n,
        }
    }
    done
}

// How many whole lines agree.
fn agreeing(text: &[u8]) -> usize
    ensures { result ≤ length text.now / 34 }
{
    let (whole, _) = text.as_chunks::<LINE>();
    whole.iter().filter(|line| agrees(line)).count()
}

// Whether a line holds a number and what the root answers to it.
fn agrees(line: &[u8; LINE]) -> bool {
    let (Some(given), Some(expected)) = (
        list::pattern_of(&line[..16]),
        list::pattern_of(&line[17..33]),
    ) else {
        return false;
    };
    line[16] == b' ' && line[33] == b'\n' && answered(given) == expected
}

// The pattern of the root's answer to a pattern.
fn answered(pattern: u64) -> u64 {
    match root::root(bits::float_of(pattern)) {
        Err(refusal) => REFUSED + u64::from(refusal.number()),
        Ok(r) if r.is_nan() => REFUSED,
        Ok(r) => r.to_bits(),
    }
}
