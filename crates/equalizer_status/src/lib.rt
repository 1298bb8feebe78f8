// The program as it is started, with its exit status.
#![tactic(auto)]

ghost use Rattle.std.specs.Prelude.{◌≡◌, pos};
ghost use Rattle.std.specs.Process.{exit_status};
ghost use Rattle.program.specs.Status.{ExitStatus};

use std::process::ExitCode;

pub fn equalizer_main(rt: &HostRuntime) -> i32
    ensures { ExitStatus result }
{
    i32::from(equalizer_body::served(rt))
}

// The status as the system takes it. Both functions are public and keep what they take and give, so that it goes from one to the other as an i32:
// an `impl From<Status> for ExitCode` would stand beside them unused. `as`: the clause says that it is at most 2.
pub fn exit_code(status: i32) -> ExitCode
    requires { ExitStatus status }
    ensures { pos (exit_status result) ≡ status }
{
    ExitCode::from(status as u8)
}
