// The program.
#![tactic(auto)]

use std::process::ExitCode;

fn main(rt: HostRuntime) -> ExitCode {
    equalizer_status::exit_code(equalizer_status::equalizer_main(&rt))
}
