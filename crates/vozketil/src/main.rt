// The program: answers the requests of a file, a line for each.
#![tactic(auto)]

use serving::landed::Landed;
use serving::{serve, status};
use std::process::ExitCode;

fn main(rt: HostRuntime) -> ExitCode {
    status(serve::<Landed>(&rt))
}
