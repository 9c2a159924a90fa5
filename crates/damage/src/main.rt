// Takes the bytes of a dossier from standard input, changes each byte by itself, and cuts them at each length,
// and prints which answers that changes. Without a head it prints how many items are past their lists.
#![tactic(auto)]

use dossier::refusal::{Part, Refusal};
use listing::ask::answer;
use listing::found::Shown;
use std::io;
use std::io::Read;

const LIMIT: u64 = 4_096;

const PARTS: [Part; 4] = [Part::Instruction, Part::Word, Part::Line, Part::Row];

// The places of a part that are asked for: one more than the sample's longest list has.
const PLACES: u32 = 8;

fn changed(rt: &HostRuntime, before: &[u8], after: &[u8]) -> io::Result<()> {
    for part in PARTS {
        for place in 0..PLACES {
            let now = answer(after, part, place);
            if now != answer(before, part, place) {
                print!(rt; ", {}", Shown(now))?;
            }
        }
    }
    println!(rt; "")
}

fn past_in(bytes: &[u8], part: Part) -> usize {
    (0..PLACES)
        .filter(|place| matches!(answer(bytes, part, *place), Err(Refusal::Past { .. })))
        .count()
}

// The total saturates: a plain sum of the four counts was tried, and the proof that it fits did not close.
fn past(bytes: &[u8]) -> usize {
    PARTS.iter().fold(
        0usize,
        |count, part| count.saturating_add(past_in(bytes, *part)),
    )
}

fn report(rt: &HostRuntime, before: &[u8], after: &[u8]) -> io::Result<()> {
    let head = answer(after, Part::Head, 0);
    print!(rt; "{}", Shown(head))?;
    if head.is_ok() {
        changed(rt, before, after)
    } else {
        println!(rt; ", {} past", past(after))
    }
}

fn change_each(rt: &HostRuntime, bytes: &[u8], mask: u8) -> io::Result<()> {
    let mut copy = bytes.to_vec(rt.alloc())?;
    let after = copy.as_mut_slice();
    for (at, byte) in bytes.iter().enumerate() {
        after[at] = *byte ^ mask;
        print!(rt; "byte {at} by {mask}: ")?;
        report(rt, bytes, after)?;
        after[at] = *byte;
    }
    Ok(())
}

fn main(rt: HostRuntime) -> io::Result<()> {
    let mut bytes = Vec::new(rt.alloc());
    rt.stdin().take(LIMIT).read_to_end(&mut bytes)?;
    for mask in [1, 128] {
        change_each(&rt, &bytes, mask)?;
    }
    for length in 0..bytes.len() {
        print!(rt; "length {length}: ")?;
        report(&rt, &bytes, &bytes[0..length])?;
    }
    Ok(())
}
