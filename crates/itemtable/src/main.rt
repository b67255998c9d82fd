// Reads and writes single items as the lines of a table say, and prints what comes of it.
#![tactic(auto)]

mod reads;
mod writes;

use anyhow::Context;
use hexline::bytes_of;
use reads::read_item;
use std::io::{BufRead, BufReader};
use writes::write_item;

// A line is `read KIND BYTES` or `write KIND VALUE`.
fn answer(rt: &HostRuntime, line: &str) -> anyhow::Result<()> {
    let (call, rest) = line.split_once(' ').context("no call")?;
    let (kind, value) = rest.split_once(' ').context("no kind")?;
    if call == "read" {
        let bytes = bytes_of(rt.alloc(), value)?;
        let said = read_item(kind, bytes.as_slice());
        println!(rt; "{said}")?;
    } else {
        let run = write_item(rt.alloc(), kind, value)?;
        let text = hex::encode(rt.alloc(), run)?;
        println!(rt; "{text}")?;
    }
    Ok(())
}

fn main(rt: HostRuntime) -> anyhow::Result<()> {
    let heap = rt.alloc();
    // The loop stands in both table programs: of its three lines a function would take the loop, and each program a closure, so it would be no plainer.
    for line in BufReader::new(heap, rt.stdin())?.lines(heap) {
        let line = line?;
        answer(&rt, line.as_str())?;
    }
    Ok(())
}
