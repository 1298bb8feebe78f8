// What a program needs beside its own work: arguments and the numbers in them, text on its way out, messages, files, an exit status.
#![tactic(auto)]

ghost use Rattle.std.specs.Prelude.{◌≡◌};
ghost use Rattle.program.specs.Status.{ExitStatus, status_number};

pub mod arguments;
pub mod files;
pub mod messages;

pub use program_text::text;
pub use program_words::numbers;

// The exit status of a program: all was served; something failed; it was asked for what it does not do.
#[derive(Clone, Copy, PartialEq, Eq)]
pub enum Status {
    Served = 0,
    Failed = 1,
    Usage = 2,
}

impl From<Status> for i32 {
    ghost from_gives = { λ status n. (n ≡ status_number status) × ExitStatus n };

    fn from(status: Status) -> i32 {
        status as i32
    }
}
