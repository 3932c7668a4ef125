// Tables of a file of requests, loaded into memory and written out again: how many, and how many came out as they stood, byte for byte.
#![tactic(auto)]

#[cfg(test)]
mod other;
mod trip;
#[cfg(test)]
mod words;

use serving::fault::Fault;
use serving::requests::Requests;
use serving::status;
use std::process::ExitCode;
use trip::{Tally, there_and_back};

// So many numbers are lent for loading, and as many for writing.
const LENT: usize = 1048576;

fn run(rt: &HostRuntime) -> Result<(), Fault> {
    let heap = rt.alloc();
    let mut requests = Requests::open(rt, heap, "random.requests")?;
    let mut memory = Vec::new(heap);
    memory.resize(LENT, 0)?;
    let mut written = Vec::new(heap);
    written.resize(LENT, 0)?;
    let mut all = Tally::default();
    for _ in 0..u64::MAX {
        if !requests.advance()? {
            break;
        }
        let more = there_and_back(
            requests.bytes(),
            memory.as_mut_slice(),
            written.as_mut_slice(),
        );
        all.tables = all.tables.wrapping_add(more.tables);
        all.same = all.same.wrapping_add(more.same);
    }
    let (tables, same) = (all.tables, all.same);
    println!(rt; "{tables} tables, {same} written back as they stood").map_err(Fault::CannotWrite)
}

fn main(rt: HostRuntime) -> ExitCode {
    status(run(&rt))
}
