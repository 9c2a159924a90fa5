// Prints what the bytes of a dossier on standard input mean: the head, then the items, part by part.
#![tactic(auto)]

use dossier::refusal::Part;
use listing::ask::answer;
use listing::found::{Found, Shown};
use std::io;
use std::io::Read;

// A longer input is cut, so that it has no head.
const LIMIT: u64 = 65_537;

fn main(rt: HostRuntime) -> io::Result<()> {
    let mut bytes = Vec::new(rt.alloc());
    rt.stdin().take(LIMIT).read_to_end(&mut bytes)?;
    let first = answer(&bytes, Part::Head, 0);
    println!(rt; "{}", Shown(first))?;
    let Ok(Found::Head(head)) = first else {
        return Ok(());
    };
    let parts = [
        (Part::Instruction, head.instructions),
        (Part::Word, head.words),
        (Part::Line, head.lines),
        (Part::Row, head.rows),
    ];
    for (part, count) in parts {
        for place in 0..count {
            println!(rt; "{place}: {}", Shown(answer(&bytes, part, place)))?;
        }
    }
    Ok(())
}
