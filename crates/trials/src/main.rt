// The program once more, on a thousand requests from a generator: typed queries over random schemas, and requests that are off in one way or
// another. Its lines are compared with the right ones.
#![tactic(auto)]

use serving::landed::Landed;
use serving::{serve, status};
use std::process::ExitCode;

fn main(rt: HostRuntime) -> ExitCode {
    status(serve::<Landed>(&rt))
}
