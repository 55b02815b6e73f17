// Runs one job: reads it from standard input and writes what it prints to standard output. What fails on the way is said on
// standard error, and the exit status is 0 then too.
#![tactic(auto)]

ghost use Rattle.std.specs.Prelude.{◌≤◌, length, IfOk};

use job::{MAX_TEXT, MAX_TOTALS};
use job_parse::{MAX_BYTES, MAX_CELLS};
use shape::sizes::Sizes;
use std::io::{self, Read, Write};

// Reads until the buffer is full or the input ends: how many bytes came. No `for`, since each read gives as many as it
// will. A read that fails is an error, since it is no end of the input.
fn read_input<R: Read>(from: &mut R, input: &mut [u8]) -> io::Result<usize>
    ensures { IfOk result (λ bytes. bytes ≤ length input.new) }
{
    let mut bytes: usize = 0;
    while bytes < input.len() {
        let more = from.read(&mut input[bytes..])?;
        if more == 0 {
            break;
        }
        bytes += more;
    }
    Ok(bytes)
}

// Says on standard error what failed. Where that fails too, there is nobody left to tell.
fn say(rt: &HostRuntime, what: &str) {
    match eprintln!(rt; "run_job: {what}") {
        Ok(()) => {}
        Err(_) => {}
    }
}

// Runs the job and writes its text.
fn run(rt: &HostRuntime, input: &[u8]) {
    let mut cells = [0u8; MAX_CELLS];
    let mut lines = [0u8; Sizes::MAX_ROWS];
    let mut counters = [0u8; Sizes::MAX_ROWS];
    let mut flags = [0u8; Sizes::MAX_ROWS];
    let mut totals = [0u8; MAX_TOTALS];
    let mut matches = [0u8; Sizes::MAX_ROWS];
    let mut out = [0u8; MAX_TEXT];
    let end = job::job(
        input,
        &mut cells,
        &mut lines,
        &mut counters,
        &mut flags,
        &mut totals,
        &mut matches,
        &mut out,
    );
    if MAX_TEXT < end {
        return;
    }
    match rt.stdout().write_all(&out[..end]) {
        Ok(()) => {}
        Err(_) => say(rt, "the result cannot be written"),
    }
}

fn main(rt: HostRuntime) {
    // one byte past the limit is enough to know that a job is too long
    let mut input = [0u8; MAX_BYTES + 1];
    match read_input(&mut rt.stdin(), &mut input) {
        Ok(bytes) => run(&rt, &input[..bytes]),
        Err(_) => say(&rt, "the job cannot be read"),
    }
}
