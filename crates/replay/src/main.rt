// Replays records of inputs and of the answers that the patched Rust gave, and prints for each kind how many agree.
// A record is a kind byte, a two-byte length and a body: the input, then the answer.
#![tactic(auto)]

mod body;
mod boxes;
mod cards;
mod charges;
mod circles;
mod groups;
mod hypots;
mod kinds;
mod layouts;
mod places;
mod touches;

ghost use Rattle.std.specs.Prelude.{◌≤◌, length};

use body::Body;
use kinds::{KINDS, Kind, Malformed};
use std::io::{self, Read};

// More records than any list has.
const BUDGET: u64 = 100000000;

// How many records there are, and how many of them agree.
#[derive(Clone, Copy, Default)]
struct Count {
    seen: u64,
    agreed: u64,
}

impl Count {
    fn add(&mut self, agrees: bool) {
        self.seen = self.seen.saturating_add(1);
        self.agreed = self.agreed.saturating_add(u64::from(agrees));
    }
}

// The kinds' counts in their order, and that of the malformed records, none of which agrees.
#[derive(Clone, Copy, Default)]
struct Tally {
    kinds: [Count; 14],
    malformed: Count,
}

fn main(rt: HostRuntime) -> io::Result<()> {
    let tally = all(&mut rt.stdin());
    for (kind, count) in KINDS.iter().zip(&tally.kinds) {
        println!(rt; "{kind} {} of {}", count.agreed, count.seen)?;
    }
    println!(rt;
        "malformed {} of {}",
        tally.malformed.agreed, tally.malformed.seen
    )
}

fn all<R: Read>(input: &mut R) -> Tally {
    let mut tally = Tally::default();
    for _ in 0..BUDGET {
        match next(input) {
            Some(Ok((kind, agrees))) => tally.kinds[kind as usize].add(agrees),
            Some(Err(Malformed)) => tally.malformed.add(false),
            None => break,
        }
    }
    tally
}

// The next record's kind and whether it agrees, or nothing at the end.
fn next<R: Read>(input: &mut R) -> Option<Result<(Kind, bool), Malformed>> {
    let mut head = [0u8; 3];
    match read_full(input, &mut head) {
        0 => None,
        3 => Some(record(input, head)),
        _ => Some(Err(Malformed)),
    }
}

// A record by its head: its body is read whatever its kind.
fn record<R: Read>(input: &mut R, head: [u8; 3]) -> Result<(Kind, bool), Malformed> {
    let [byte, low, high] = head;
    let length = usize::from(u16::from_le_bytes([low, high]));
    let mut room = [0u8; 65536];
    let body = room.get_mut(..length).ok_or(Malformed)?;
    if read_full(input, body) < length {
        return Err(Malformed);
    }
    let kind = Kind::try_from(byte)?;
    Ok((kind, kind.agrees(Body::new(body))))
}

// Reads until there is no room left, the input ends or a read fails, and says how many bytes came.
fn read_full<R: Read>(input: &mut R, room: &mut [u8]) -> usize
    ensures { result ≤ length room.new }
{
    let mut done = 0;
    while done < room.len() {
        match input.read(&mut room[done..]) {
            Ok(0) | Err(_) => break,
            Ok(n) => done += n,
        }
    }
    done
}
