// Serving a file of requests: it is read through a large buffer, each request is put to a desk with the memory that the file lends it, and a line is
// written for each answer. The desk is any that tells its answers by lines.
#![tactic(auto)]

ghost use Rattle.std.specs.Prelude.{◌≡◌, MatchResult};
ghost use Rattle.std.specs.Process.{exit_status};

pub mod answers;
pub mod call;
pub mod fault;
mod header;
pub mod landed;
pub mod requests;
pub mod teller;

use answers::{answer_all, write_out};
use call::{Call, read_call};
use fault::{Fault, tell};
use requests::Requests;
use std::process::ExitCode;
use teller::Teller;

// Answers all requests of the file; the lines of those in front of a fault are written too.
fn run<D: Teller>(rt: &HostRuntime, call: &Call) -> Result<(), Fault> {
    let heap = rt.alloc();
    let mut requests = Requests::open(rt, heap, call.file.as_str())?;
    let mut out = Vec::new(heap);
    let answered = answer_all::<D>(rt, heap, &mut requests, call.work, &mut out);
    let written = write_out(rt, &mut out);
    answered?;
    written
}

// What a program does that is called with its arguments: a fault is told on standard error.
pub fn serve<D: Teller>(rt: &HostRuntime) -> Result<(), Fault> {
    let call = read_call(rt).inspect_err(|fault| {
        let _ = tell(rt, "", *fault);
    })?;
    run::<D>(rt, &call).inspect_err(|fault| {
        let _ = tell(rt, call.file.as_str(), *fault);
    })
}

// The status of a program: what is left of a fault that has been told.
pub fn status(done: Result<(), Fault>) -> ExitCode
    ensures { MatchResult done (λ _. exit_status result ≡ 0) (λ _. exit_status result ≡ 1) }
{
    match done {
        Ok(()) => ExitCode::SUCCESS,
        Err(_fault) => ExitCode::FAILURE,
    }
}
