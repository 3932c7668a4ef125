// The program over the desk that asks: answers the requests of a file, a line for each.
#![tactic(auto)]

use asking_serving::asker::Asking;
use serving::{serve, status};
use std::process::ExitCode;

fn main(rt: HostRuntime) -> ExitCode {
    status(serve::<Asking>(&rt))
}
