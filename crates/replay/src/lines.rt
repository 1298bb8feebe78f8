// Reading a file of vectors, of any length, in fixed memory: words of hexadecimal digits with single blanks
// between them, and the end of a line after the last.
use crate::leaves::Leaf;
use crate::words::Words;
use std::fmt;
use std::fs::File;
use std::io::Read;
use std::ops::AddAssign;

// What was found so far.
#[derive(Clone, Copy, Default)]
pub(crate) struct Tally {
    compared: u64,
    differ: u64,
    // Lines that are not in their leaf's form, and files that are empty or cannot be read.
    malformed: u64,
}

impl AddAssign for Tally {
    fn add_assign(&mut self, found: Tally) {
        self.compared = self.compared.saturating_add(found.compared);
        self.differ = self.differ.saturating_add(found.differ);
        self.malformed = self.malformed.saturating_add(found.malformed);
    }
}

impl Tally {
    pub(crate) fn add_malformed(&mut self) {
        self.malformed = self.malformed.saturating_add(1);
    }

    // A line that agrees with the Rust, or differs, or is not in its form.
    fn add_line(&mut self, agrees: Option<bool>) {
        let Some(agrees) = agrees else {
            return self.add_malformed();
        };
        self.compared = self.compared.saturating_add(1);
        if !agrees {
            self.differ = self.differ.saturating_add(1);
        }
    }
}

impl fmt::Display for Tally {
    fn fmt<W: fmt::Write>(&self, f: &mut fmt::Formatter<W>) -> fmt::Result {
        let (compared, differ, malformed) = (self.compared, self.differ, self.malformed);
        write!(f, "{compared} compared, {differ} differ")?;
        if malformed > 0 {
            write!(f, ", {malformed} malformed")?;
        }
        Ok(())
    }
}

// The value of a hexadecimal digit in lower case. No `to_digit`: it takes upper case too.
fn digit(b: u8) -> Option<u64> {
    match b {
        b'0'..=b'9' => Some(u64::from(b - b'0')),
        b'a'..=b'f' => Some(u64::from(b - b'a') + 10),
        _ => None,
    }
}

// A word that is being read.
#[derive(Clone, Copy, Default, PartialEq, Eq)]
struct Word {
    value: u64,
    digits: u32,
}

impl Word {
    fn with(self, b: u8) -> Option<Word> {
        let d = digit(b)?;
        if self.digits >= 16 {
            return None;
        }
        Some(Word {
            value: (self.value << 4) | d,
            digits: self.digits + 1,
        })
    }
}

// A line of a leaf as far as it is read: its whole words, and the word that is being read, or none where the line can
// no longer be in its form.
#[derive(Drop)]
struct Line<'a> {
    leaf: &'a Leaf,
    words: Words,
    word: Option<Word>,
}

impl Line<'_> {
    fn new(leaf: &Leaf) -> Line<'_> {
        Line {
            leaf,
            words: Words::new(),
            word: Some(Word::default()),
        }
    }

    fn is_empty(&self) -> bool {
        self.words.is_empty() && self.word == Some(Word::default())
    }

    fn clear(&mut self) {
        self.words.clear();
        self.word = Some(Word::default());
    }

    // Keeps a word that has ended, and begins the next.
    fn after(&mut self, word: Word) -> Option<Word> {
        if word.digits != self.leaf.digits(self.words.len()) {
            return None;
        }
        self.words.try_push(word.value).ok()?;
        Some(Word::default())
    }

    fn take(&mut self, b: u8) {
        let Some(word) = self.word else {
            return;
        };
        self.word = match b {
            b' ' | b'\n' => self.after(word),
            _ => word.with(b),
        };
    }

    // Whether a line that has ended agrees with the Rust.
    fn agrees(&self) -> Option<bool> {
        self.word?;
        (self.leaf.agrees)(self.words.as_slice())
    }
}

#[derive(Drop)]
struct Reader<'a> {
    line: Line<'a>,
    tally: Tally,
}

impl Reader<'_> {
    fn take(&mut self, b: u8) {
        self.line.take(b);
        if b == b'\n' {
            self.tally.add_line(self.line.agrees());
            self.line.clear();
        }
    }

    // A file that ends within a line, or has no line, is malformed.
    fn is_whole(&self) -> bool {
        let empty = self.tally.compared == 0 && self.tally.malformed == 0;
        self.line.is_empty() && !empty
    }
}

// The bytes that are read at once.
const CHUNK: usize = 4096;

// A proved loop has to end, and nothing says that a file does: no file uses up the turns.
pub(crate) fn read_all(file: &File, leaf: &Leaf) -> Tally {
    let mut from = file;
    let mut reader = Reader {
        line: Line::new(leaf),
        tally: Tally::default(),
    };
    let mut buf = [0u8; CHUNK];
    for _ in 0..u64::MAX {
        match from.read(&mut buf) {
            Ok(0) => {
                if reader.is_whole() {
                    return reader.tally;
                }
                break;
            }
            Ok(n) => {
                for b in &buf[..n] {
                    reader.take(*b);
                }
            }
            Err(_) => break,
        }
    }
    reader.tally.add_malformed();
    reader.tally
}
