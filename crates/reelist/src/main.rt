// Reads a v04 payload from standard input and lists its spans.
#![tactic(auto)]

use spanlist::line::{HEADER, Line};
use spanlist::list::{MAX_BYTES, list_payload};
use spanlist::refusal::Refusal;
use std::alloc::Global;
use std::fmt::Write;
use std::io::Read;
use std::process::ExitCode;

// The whole table as text.
fn table(heap: Global, lines: &[Line]) -> anyhow::Result<String> {
    let mut text = String::new(heap);
    writeln!(text, "{HEADER}")?;
    for line in lines {
        writeln!(text, "{line}")?;
    }
    Ok(text)
}

// Prints a refusal, and ends with it.
fn refuse(rt: &HostRuntime, refusal: Refusal) -> anyhow::Result<ExitCode> {
    if let Some(number) = refusal.number() {
        println!(rt; "refused,{number}")?;
    }
    Ok(ExitCode::FAILURE)
}

// Lists what standard input holds, and answers how to end.
fn list(rt: &HostRuntime) -> anyhow::Result<ExitCode> {
    let heap = rt.alloc();
    let mut payload = Vec::new(heap);
    rt.stdin()
        .take(MAX_BYTES as u64 + 1)
        .read_to_end(&mut payload)?;
    match list_payload(heap, payload.as_slice()) {
        Ok(lines) => {
            let text = table(heap, lines.as_slice())?;
            rt.print(text)?;
            Ok(ExitCode::SUCCESS)
        }
        Err(refusal) => refuse(rt, refusal),
    }
}

fn main(rt: HostRuntime) -> ExitCode {
    list(&rt).unwrap_or(ExitCode::FAILURE)
}
