//! The program `mtapi`. Its stored run judges a journal that is no run, and ends with the status 9.
#![tactic(auto)]

use mtapi_program::program;
use std::process::ExitCode;

fn main(rt: HostRuntime) -> ExitCode {
    program(&rt, &rt)
}
