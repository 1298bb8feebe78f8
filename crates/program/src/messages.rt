// What a program says: lines on standard error that start with its name.
use crate::arguments;
use crate::arguments::{Text, Value};
use crate::text::Page;
use std::io::{Error, ErrorKind, Write};

// A program that runs: its runtime and its name.
#[derive(Clone, Copy)]
pub struct Program<'a> {
    pub rt: &'a HostRuntime,
    pub name: &'a [u8],
}

// A part of a line. No `write!` of all of a line: a value may be no UTF-8, so that a line is made of bytes, and a float and an error have their own words.
#[derive(Clone, Copy)]
pub enum Part<'a> {
    Words(&'a [u8]),
    // A value's text.
    Text(Value),
    Count(u64),
    Float(f32),
    // Why something failed.
    Reason(Error),
}

// A line, which two of the longest names would fill; what finds no room is left out.
type Line = Page<8192>;

// Something is not as it should be, and a line says what.
#[derive(Clone, Copy)]
pub struct Told;

impl Program<'_> {
    // Writes a line.
    pub fn tell(self, parts: &[Part<'_>]) -> Told {
        let mut line = Line::new();
        line.words(self.name);
        line.words(b": ");
        for part in parts {
            match *part {
                Part::Words(t) => line.words(t),
                Part::Text(v) => {
                    let text: Text = arguments::text_of(self.rt, v);
                    line.words(text.bytes());
                }
                Part::Count(n) => line.count(n),
                Part::Float(x) => line.float(x),
                Part::Reason(e) => line.words(reason(e)),
            }
        }
        line.words(b"\n");
        let _ = self.rt.stderr().write_all(line.bytes());
        Told
    }
}

// An error in words, of those that a file meets, by its kind. No `{e}`: it prints the C library's words and a number, as `No such file or directory (os error 2)`,
// or a kind's of the library, and these are the program's own.
fn reason(e: Error) -> &'static [u8] {
    match e.kind() {
        ErrorKind::NotFound => b"there is no such file or folder",
        ErrorKind::Interrupted => b"a signal interrupted it",
        ErrorKind::WouldBlock => b"it would have to wait",
        ErrorKind::AlreadyExists => b"it is there already",
        ErrorKind::CrossesDevices => b"the two names are on different file systems",
        ErrorKind::NotADirectory => b"a part of the name is no folder",
        ErrorKind::IsADirectory => b"it is a folder",
        ErrorKind::InvalidInput => b"the system does not take it",
        ErrorKind::ExecutableFileBusy => b"a program runs from it",
        ErrorKind::FileTooLarge => b"the file would be too large",
        ErrorKind::StorageFull => b"no space is left on the device",
        ErrorKind::ReadOnlyFilesystem => b"the file system is read-only",
        ErrorKind::BrokenPipe => b"nobody reads the pipe",
        ErrorKind::InvalidFilename => b"the name is too long",
        ErrorKind::FilesystemLoop => b"too many links lead on",
        ErrorKind::QuotaExceeded => b"the quota is used up",
        ErrorKind::InvalidData => b"the name is no text in UTF-8",
        _ => numbered_reason(e),
    }
}

// By the system's number: these have no kind, or 1 and 13 have the same. 84 is that of a file system that takes only names in its encoding.
fn numbered_reason(e: Error) -> &'static [u8] {
    match e.raw_os_error() {
        Some(1) => b"it is not permitted",
        Some(5) => b"the device failed",
        Some(6) => b"there is no such device",
        Some(9) => b"it is not open",
        Some(13) => b"permission is denied",
        Some(23 | 24) => b"too many files are open",
        Some(84) => b"the name is no text in UTF-8",
        _ => b"for a reason that has no words here",
    }
}
