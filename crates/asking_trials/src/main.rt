// Tests of what is proved, by running it: a thousand requests from a generator, typed queries over random schemas and requests that are off in one way
// or another; and requests that are hard for one reason or another: nested millions deep, counts and lengths that promise more than comes, types and
// data that would be vast as trees, no memory lent. The hard ones are made here, since most would be too large to keep; one that takes two seconds or
// more is said to be late. What is written is compared with the right lines.
#![tactic(auto)]

mod bench;
mod deep;
mod shared;
mod short;
mod write;

use asking_serving::asker::Asking;
use bench::Bench;
use deep::{deep_data, deep_queries};
use serving::fault::Fault;
use serving::{serve, status};
use shared::{shared_parts, vast};
use short::{broken_off, nothing_lent};
use std::process::ExitCode;

fn run(rt: &HostRuntime) -> Result<(), Fault> {
    serve::<Asking>(rt)?;
    let mut bench = Bench::new(rt.alloc())?;
    deep_queries(rt, &mut bench)?;
    deep_data(rt, &mut bench)?;
    broken_off(rt, &mut bench)?;
    shared_parts(rt, &mut bench)?;
    vast(rt, &mut bench)?;
    nothing_lent(rt, &mut bench)
}

fn main(rt: HostRuntime) -> ExitCode {
    status(run(&rt))
}
