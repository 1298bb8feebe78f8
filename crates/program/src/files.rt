// Files. An output that is named is made as its name and `.part`, which must not be there, and gets its name once it is whole. An output is a plain
// file, and no two outputs and no `.part` are one file.
ghost use Rattle.std.specs.Prelude.{◌≡◌, Some, slice_get};

use crate::arguments;
use crate::arguments::{Name, Stream, Text, Value};
use crate::messages::Part::{Reason, Words};
use crate::messages::{Part, Program, Told};
use either::{Either, Left, Right};
use program_look::{FileId, Kind, Seen};
use std::fs::{File, OpenOptions};
use std::io::{Error, ErrorKind, Read, Seek, Stdin, Stdout};
use std::{fs, io};

// What stands behind the name of an output that is not whole.
const PART: &[u8] = b".part";

// An input: standard input, or a file that is open.
pub type OpenInput = Stream<File>;

// What an input is read from.
pub type Source<'a> = Either<Stdin, &'a File>;

impl OpenInput {
    pub fn source(&self, rt: &HostRuntime) -> Source<'_> {
        match self {
            OpenInput::Standard => Left(rt.stdin()),
            OpenInput::File(file) => Right(file),
        }
    }

    // What it is.
    pub fn look(&self, rt: &HostRuntime) -> Seen {
        match self {
            OpenInput::Standard => program_look::look_input(rt),
            OpenInput::File(file) => program_look::look_open(file),
        }
    }

    // Whether as much of it can be read at once as one likes, as of a file.
    pub fn is_at_hand(&self, rt: &HostRuntime) -> bool {
        match self {
            OpenInput::Standard => is_plain(program_look::look_input(rt)),
            OpenInput::File(file) => {
                let mut at = file;
                at.stream_position().is_ok()
            }
        }
    }
}

// A file that is an output's name and `.part`, and which file that is.
#[derive(Drop)]
pub struct PartFile {
    pub name: Value,
    file: File,
    id: Option<FileId>,
}

// An output: standard output, or a file that is not whole.
pub type Output = Stream<PartFile>;

// What an output is written to.
pub type Sink<'a> = Either<Stdout, &'a File>;

impl Output {
    pub fn sink(&self, rt: &HostRuntime) -> Sink<'_> {
        match self {
            Output::Standard => Left(rt.stdout()),
            Output::File(part) => Right(&part.file),
        }
    }
}

// A name as the text that std::fs takes.
fn named(bytes: &[u8]) -> io::Result<&str> {
    str::from_utf8(bytes).map_err(|_| Error::from(ErrorKind::InvalidData))
}

fn is_plain(seen: Seen) -> bool {
    matches!(seen, Seen::There(Kind::File, _))
}

// Whether there is a file, and it is the other.
fn is_file(seen: Seen, other: Option<FileId>) -> bool {
    seen.file().is_some() && seen.file() == other
}

// Why an output cannot replace what stands at its name, where it cannot.
fn hindrance(seen: Seen) -> Option<&'static [u8]> {
    match seen {
        Seen::Missing | Seen::There(Kind::File, _) => None,
        Seen::There(Kind::Folder, _) => Some(b": it is a folder"),
        Seen::There(Kind::Fifo, _) => {
            Some(b": it is a named pipe, for which standard output serves")
        }
        Seen::There(Kind::Device, _) => Some(b": it is a device, for which standard output serves"),
        Seen::There(Kind::Other, _) => Some(b": it is no plain file"),
        Seen::Hidden => Some(b": it cannot be looked at"),
    }
}

// The line of a write that failed: of a named output its `.part` was written.
pub fn unwritten(name: Name, e: Error) -> [Part<'static>; 5]
    ensures file { (v : Value) → name ≡ Stream.File v → slice_get result 1 ≡ Some (Part.Text v) }
    ensures reason { slice_get result 4 ≡ Some (Part.Reason e) }
{
    let (file, part) = match name {
        Name::Standard => (Words(b"standard output"), Words(b"")),
        Name::File(v) => (Part::Text(v), Words(PART)),
    };
    [
        Words(b"writing "),
        file,
        part,
        Words(b" failed: "),
        Reason(e),
    ]
}

impl Program<'_> {
    // A value and `.part`, where there is room for it and the 0 behind it.
    fn part_name(self, v: Value) -> io::Result<Text> {
        let mut name: Text = arguments::text_of(self.rt, v);
        if name.room() <= PART.len() {
            return Err(Error::from(ErrorKind::InvalidFilename));
        }
        name.words(PART);
        Ok(name)
    }

    // A file that can be read: a read of nothing fails for a folder, which can be opened.
    fn readable(self, v: Value) -> io::Result<File> {
        let name: Text = arguments::text_of(self.rt, v);
        let mut file = File::open(self.rt, named(name.bytes())?)?;
        let mut none = [0u8; 0];
        file.read(&mut none)?;
        Ok(file)
    }

    // The `.part` of a value, which was not there.
    fn created(self, v: Value) -> io::Result<PartFile> {
        let name = self.part_name(v)?;
        let file = OpenOptions::new()
            .write(true)
            .create_new(true)
            .open(self.rt, named(name.bytes())?)?;
        let id = program_look::look(self.rt, name.bytes()).file();
        Ok(PartFile { name: v, file, id })
    }

    fn removed(self, v: Value) -> io::Result<()> {
        let name = self.part_name(v)?;
        fs::remove_file(self.rt, named(name.bytes())?)
    }

    // Gives the `.part` of a value its name.
    fn renamed(self, v: Value) -> io::Result<()> {
        let part = self.part_name(v)?;
        let name: Text = arguments::text_of(self.rt, v);
        fs::rename(self.rt, named(part.bytes())?, named(name.bytes())?)
    }

    // Which file a value names.
    fn looked(self, v: Value) -> Seen {
        let name: Text = arguments::text_of(self.rt, v);
        program_look::look(self.rt, name.bytes())
    }

    // Which file a value and `.part` name.
    fn looked_part(self, v: Value) -> Seen {
        self.part_name(v).map_or(
            Seen::Missing,
            |name| program_look::look(self.rt, name.bytes()),
        )
    }

    // An input that is open.
    pub fn input(self, name: Name) -> Result<OpenInput, Told> {
        let Name::File(v) = name else {
            return Ok(OpenInput::Standard);
        };
        self.readable(v).map(OpenInput::File).map_err(|e| {
            self.tell(&[
                Words(b"cannot read "),
                Part::Text(v),
                Words(b": "),
                Reason(e),
                Words(b"; nothing was written"),
            ])
        })
    }

    // A named output is a file that it can replace, or none.
    fn can_replace(self, v: Value) -> Result<(), Told> {
        match hindrance(self.looked(v)) {
            None => Ok(()),
            Some(why) => Err(self.tell(&[
                Words(b"cannot write "),
                Part::Text(v),
                Words(why),
                Words(b"; nothing was written"),
            ])),
        }
    }

    // Why a `.part` was not made.
    fn not_made(self, v: Value, input: Seen, e: Error) -> Told {
        if e.kind() != ErrorKind::AlreadyExists {
            return self.tell(&[
                Words(b"cannot make "),
                Part::Text(v),
                Words(b".part: "),
                Reason(e),
                Words(b"; nothing was written"),
            ]);
        }
        if is_file(self.looked_part(v), input.file()) {
            return self.tell(&[
                Words(b"the input is "),
                Part::Text(v),
                Words(
                    b".part, as which this output is written: rename it first; nothing was written",
                ),
            ]);
        }
        self.tell(&[
            Part::Text(v),
            Words(
                b".part is there already: another run writes it, or one that failed left it; look at it, then rename or remove it; nothing was written",
            ),
        ])
    }

    // Makes the `.part` of a named output.
    fn made(self, v: Value, input: Seen) -> Result<Output, Told> {
        self.can_replace(v)?;
        self.created(v)
            .map(Output::File)
            .map_err(|e| self.not_made(v, input, e))
    }

    // Standard output does not write to the input.
    fn standing(self, input: Seen) -> Result<Output, Told> {
        if is_plain(input) && is_file(program_look::look_output(self.rt), input.file()) {
            return Err(self.tell(&[Words(b"standard output is the input; nothing was written")]));
        }
        Ok(Output::Standard)
    }

    // A value does not name the file of an output, or its `.part`, and would not be written as it.
    fn apart(self, v: Value, o: &PartFile) -> Result<(), Told> {
        let seen = self.looked(v);
        if is_file(seen, o.id) {
            return Err(self.tell(&[
                Part::Text(v),
                Words(b" is what "),
                Part::Text(o.name),
                Words(b" is written as until it is whole; nothing was written"),
            ]));
        }
        if is_file(self.looked_part(v), o.id) || is_file(seen, self.looked(o.name).file()) {
            return Err(self.tell(&[
                Part::Text(v),
                Words(b" and "),
                Part::Text(o.name),
                Words(b" are one file; nothing was written"),
            ]));
        }
        Ok(())
    }

    // Makes a named output beside others: no two of them are one file.
    fn made_beside(
        self,
        v: Value,
        input: Seen,
        others: &[Option<&Output>],
    ) -> Result<Output, Told> {
        for other in others {
            if let Some(Output::File(part)) = *other {
                self.apart(v, part)?;
            }
        }
        let made = self.made(v, input)?;
        for other in others {
            if let (Some(Output::File(part)), Output::File(new)) = (*other, &made) {
                if let Err(told) = self.apart(part.name, new) {
                    self.dropped(made);
                    return Err(told);
                }
            }
        }
        Ok(made)
    }

    // Makes an output, where one is wanted, beside others that are made; standard output is as it is.
    pub fn output(
        self,
        name: Option<Name>,
        input: Seen,
        others: &[Option<&Output>],
    ) -> Result<Option<Output>, Told> {
        match name {
            None => Ok(None),
            Some(Name::Standard) => self.standing(input).map(Some),
            Some(Name::File(v)) => self.made_beside(v, input, others).map(Some),
        }
    }

    // What is named is not the input.
    pub fn not_input(self, name: Option<Name>, input: Seen) -> Result<(), Told> {
        let Some(Name::File(v)) = name else {
            return Ok(());
        };
        if is_file(self.looked(v), input.file()) {
            return Err(self.tell(&[
                Part::Text(v),
                Words(b" is the input, which this output would replace; nothing was written"),
            ]));
        }
        Ok(())
    }

    // Takes away what was made.
    pub fn dropped(self, o: Output) {
        if let Output::File(part) = o {
            let v = part.name;
            drop(part);
            let _ = self.removed(v);
        }
    }

    // Has the system bring an output that is whole to its place, closes it and gives it its name.
    pub fn whole(self, o: Output) -> Result<(), Told> {
        let Output::File(part) = o else {
            return Ok(());
        };
        let v = part.name;
        let synced = part.file.sync_all();
        drop(part);
        synced.map_err(|e| self.tell(&unwritten(Name::File(v), e)))?;
        self.renamed(v).map_err(|e| {
            self.tell(&[
                Part::Text(v),
                Words(b".part is whole, and cannot be given its name: "),
                Reason(e),
            ])
        })
    }

    // Closes an output that is not whole, and says what is there.
    pub fn left(self, o: Output) {
        let Output::File(part) = o else {
            return;
        };
        let v = part.name;
        drop(part);
        if self.looked(v).file().is_some() {
            self.tell(&[
                Part::Text(v),
                Words(
                    b" is from before this run and was left as it is; what this run served is in ",
                ),
                Part::Text(v),
                Words(b".part"),
            ]);
        } else {
            self.tell(&[
                Words(b"what was served is in "),
                Part::Text(v),
                Words(b".part"),
            ]);
        }
    }
}
