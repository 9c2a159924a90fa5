// Checks the dossiers on standard input, one to a line as a name and hex digits, over each holder and under
// layers, all at once and unit by unit, and prints what the verdict says where all agree.
#![tactic(auto)]

ghost use Rattle.std.specs.Prelude.{◌<◌, IfOk};

mod tables;
mod ways;

use anyhow::{Context, Result, bail};
use std::io::{BufRead, BufReader};
use ways::every_way;

// Small letters alone.
fn digit(byte: u8) -> Result<u32>
    ensures { IfOk result (λ digit. digit < 16) }
{
    match char::from(byte) {
        c @ ('0'..='9' | 'a'..='f') => c.to_digit(16).context("no hex digit"),
        _ => bail!("no hex digit"),
    }
}

fn unhex(rt: &HostRuntime, text: &str) -> Result<Vec<u8>> {
    let (pairs, rest) = text.as_bytes().as_chunks::<2>();
    let mut bytes = Vec::new(rt.alloc());
    for [high, low] in pairs {
        bytes.push((digit(*high)? * 16 + digit(*low)?) as u8)?;
    }
    if !rest.is_empty() {
        bail!("half a byte");
    }
    Ok(bytes)
}

fn check_line(rt: &HostRuntime, line: &str) -> Result<()> {
    let (name, hex) = line.split_once(':').context("a line has no name")?;
    let bytes = unhex(rt, hex.trim())?;
    let text = match every_way(rt.alloc(), &bytes)? {
        Some(receipt) => receipt.to_string(rt.alloc())?,
        None => String::from_str(rt.alloc(), "the ways differ")?,
    };
    // What the verdict says stands in the last line of a receipt.
    let said = text.as_str().lines().last().unwrap_or("no line");
    println!(rt; "{name}: {said}")?;
    Ok(())
}

fn main(rt: HostRuntime) -> Result<()> {
    for line in BufReader::new(rt.alloc(), rt.stdin())?.lines(rt.alloc()) {
        check_line(&rt, line?.as_str())?;
    }
    Ok(())
}
