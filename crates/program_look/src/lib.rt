// What a path is: what std::fs says of it, as a kind, with the file's device and number.
//
// No contract here says what the file system holds, since none of std::fs does.
#![tactic(auto)]

ghost use Rattle.std.specs.Prelude.{◌≡◌, IfSome, OnSome};
ghost use Rattle.program_look.specs.Path.{Whole};
ghost use Rattle.program_look.specs.Seen.{file_of};

use std::fs::{File, FileType, Files, Metadata};
use std::io::{ErrorKind, Result};
use std::os::unix::fs::{FileTypeExt, MetadataExt};

// A path and the 0 behind it have at most as many bytes.
const PATH_MAX: usize = 4096;

// What a file is. Device: of characters or of blocks. Other: a socket, and what has no kind of its own.
#[derive(Clone, Copy, PartialEq, Eq)]
pub enum Kind {
    File,
    Folder,
    Fifo,
    Device,
    Other,
}

// Two paths lead to one file where these agree.
#[derive(Clone, Copy, PartialEq, Eq)]
pub struct FileId {
    pub device: u64,
    pub inode: u64,
}

// What stands at a path. A link stands for the file that it leads to, so a link to nowhere is
// Missing. Hidden: it cannot be told, as where a folder of the path may not be searched, where a
// file stands for a folder of the path, or where the path is none that the system can be handed.
#[derive(Clone, Copy, PartialEq, Eq)]
pub enum Seen {
    Missing,
    There(Kind, FileId),
    Hidden,
}

impl Seen {
    // Which file is there, where one is.
    pub fn file(self) -> Option<FileId>
        ensures { result ≡ file_of self }
    {
        match self {
            Seen::There(_, file) => Some(file),
            Seen::Missing | Seen::Hidden => None,
        }
    }
}

// What stands at path. A path of 4096 bytes or more, with a 0 in it, or that is not UTF-8, is Hidden.
pub fn look(files: &impl Files, path: &[u8]) -> Seen
    ensures { (Whole path.now → ⊥) → result ≡ Seen.Hidden }
{
    match handed(path) {
        Some(name) => seen_of(files.metadata(name)),
        None => Seen::Hidden,
    }
}

// What an open file is.
pub fn look_open(file: &File) -> Seen {
    seen_of(file.metadata())
}

// What standard input is open on. This and the next are two: one with a parameter would need an enum of the two streams, and its match to the same names.
pub fn look_input(files: &impl Files) -> Seen {
    seen_of(files.metadata("/proc/self/fd/0"))
}

// What standard output is open on.
pub fn look_output(files: &impl Files) -> Seen {
    seen_of(files.metadata("/proc/self/fd/1"))
}

// The path as text, all of it, where the system can be handed it with a 0 behind.
fn handed(path: &[u8]) -> Option<&str>
    ensures text { IfSome result (λ name. name.now ≡ path.now) }
    ensures whole { OnSome result (Whole path.now) }
{
    if path.len() >= PATH_MAX || path.contains(&0) {
        return None;
    }
    str::from_utf8(path).ok()
}

fn seen_of(found: Result<Metadata>) -> Seen {
    match found {
        Ok(of) => {
            let file = FileId {
                device: of.dev(),
                inode: of.ino(),
            };
            Seen::There(kind_of(of.file_type()), file)
        }
        Err(e) if e.kind() == ErrorKind::NotFound => Seen::Missing,
        Err(_) => Seen::Hidden,
    }
}

// A ladder: a FileType has tests, and no kind to match on.
fn kind_of(found: FileType) -> Kind {
    if found.is_file() {
        Kind::File
    } else if found.is_dir() {
        Kind::Folder
    } else if found.is_fifo() {
        Kind::Fifo
    } else if found.is_char_device() || found.is_block_device() {
        Kind::Device
    } else {
        Kind::Other
    }
}
