// A stream of samples, of any length, by calls of at most 4,096. What the calls give for what was read at once is written at once.
#![tactic(auto)]

ghost use Rattle.std.specs.Prelude.{◌≡◌, ◌*◌, ◌<◌, ◌≤◌, is_ok, length};
ghost use Rattle.equalizer_stream.specs.declared.TheConstants.{MOST};

pub use cf32_block::Path;
use program::files::{Sink, Source};
use program::text::Page;
use std::fmt::Write as _;
use std::io;
use std::io::{Read, Write};
use std::ops::Range;
use types::{EqualizeState, Error, Mark};

// The most samples that are read at once, and that a call takes; their floats, and their bytes.
pub const MOST: usize = 4096;

const FLOATS: usize = 2 * MOST;

const BYTES: usize = 8 * MOST;

// How a stream is served: by which path, how many samples a call, as text or as bytes.
#[derive(Clone, Copy)]
pub struct Ways {
    pub path: Path,
    pub block: usize,
    pub text: bool,
}

impl Ways {
    // How many samples a call takes. Anybody may write the field, 0 and too many too: these are as many as can be.
    fn block(self) -> usize
        ensures { (0 < result) × (result ≤ MOST) }
    {
        match self.block {
            1..=MOST => self.block,
            _ => MOST,
        }
    }

    // The samples that are read at once: a block; of an input at hand as many whole blocks as there is room for, since a block cuts the calls and not the
    // writing. By a bool, whose two cases differ in this number alone.
    fn at_once(self, at_hand: bool) -> Span {
        let block = self.block();
        let to = if at_hand { MOST - MOST % block } else { block };
        Span { at: 0, to }
    }
}

// The files of a stream. Of an input at hand, as a file is, as much can be read at once as one likes; a pipe is served block by block.
#[derive(Clone, Copy)]
pub struct Files<'a> {
    pub input: Source<'a>,
    pub at_hand: bool,
    pub output: Option<Sink<'a>>,
    pub marks: Option<Sink<'a>>,
    pub numbers: Option<Sink<'a>>,
    pub curve: Option<Sink<'a>>,
}

#[derive(Clone, Copy, Default)]
pub struct Tally {
    pub samples: u64,
    pub heard: u64,
    pub blank: u64,
    pub spilled: u64,
    pub silent: u64,
    pub off_scale: u64,
    // Bytes that are no mark's number.
    pub unknown: u64,
}

impl Tally {
    fn add(&mut self, mark: u8) {
        self.samples = self.samples.saturating_add(1);
        let count = match Mark::try_from(mark) {
            Ok(Mark::Heard) => &mut self.heard,
            Ok(Mark::Blank) => &mut self.blank,
            Ok(Mark::Spilled) => &mut self.spilled,
            Ok(Mark::Silent) => &mut self.silent,
            Ok(Mark::OffScale) => &mut self.off_scale,
            Err(_) => &mut self.unknown,
        };
        *count = count.saturating_add(1);
    }
}

#[derive(Clone, Copy)]
pub struct Progress {
    pub state: EqualizeState,
    pub tally: Tally,
}

// An output of a stream.
#[derive(Clone, Copy, Debug, PartialEq, Eq)]
pub enum Target {
    Symbols,
    Marks,
    Numbers,
    Curve,
}

// What ended a stream before all of it was served and written. A failed read or write has the system's error.
#[derive(Clone, Copy)]
pub enum Ending {
    // The bytes that are left over.
    Truncated(usize),
    Unread(io::Error),
    Unwritten(Target, io::Error),
    Refused(Error),
}

#[derive(Clone, Copy)]
pub struct Done {
    pub progress: Progress,
    pub ending: Result<(), Ending>,
}

impl Done {
    pub fn is_whole(self) -> bool
        ensures { result ≡ is_ok self.ending }
    {
        self.ending.is_ok()
    }
}

// Bytes that were read, and whether there may be more.
#[derive(Drop)]
struct Filled {
    bytes: usize,
    more: io::Result<bool>,
}

// Reads until raw is full, the input ends or a read fails. A loop: `io::copy` of a `take` into the slice clears 8,192 bytes before each read, so that
// blocks of one sample from a pipe took 16 % longer by it, blocks of 16 samples 5 %, and a file 2 %.
fn fill(mut input: Source<'_>, raw: &mut [u8]) -> Filled
    ensures { result.bytes ≤ length raw.old }
{
    let mut bytes = 0;
    let more = loop {
        if bytes >= raw.len() {
            break Ok(true);
        }
        match input.read(&mut raw[bytes..]) {
            Ok(0) => break Ok(false),
            Ok(n) => bytes += n,
            Err(e) => break Err(e),
        }
    };
    Filled { bytes, more }
}

// A page of lines.
type Lines = Page<8192>;

// No line is as long.
const LINE: usize = 128;

// A float, and a blank.
fn spaced<const N: usize>(p: &mut Page<N>, x: f32) {
    p.float(x);
    p.byte(b' ');
}

// A symbol, its mark and its number in a line.
fn line(p: &mut Lines, re: f32, im: f32, mark: u8, number: u8) {
    spaced(p, re);
    spaced(p, im);
    p.count(u64::from(mark));
    p.byte(b' ');
    p.count(u64::from(number));
    p.byte(b'\n');
}

// Writes a page that has no room for another line, and begins it anew. No `BufWriter`: it takes an allocator, and there is no heap.
fn turned(to: &mut Sink<'_>, p: &mut Lines) -> io::Result<()> {
    if p.room() > LINE {
        return Ok(());
    }
    to.write_all(p.bytes())?;
    p.clear();
    Ok(())
}

// The symbols as lines of text.
fn lines(mut to: Sink<'_>, y: &[f32], marks: &[u8], numbers: &[u8]) -> io::Result<()> {
    let mut p = Lines::new();
    let (symbols, _) = y.as_chunks::<2>();
    for (([re, im], mark), number) in symbols.iter().zip(marks).zip(numbers) {
        line(&mut p, *re, *im, *mark, *number);
        turned(&mut to, &mut p)?;
    }
    to.write_all(p.bytes())
}

// A point of the learning curve: the samples so far, the mean error and the mode.
fn point(p: &mut Page<LINE>, t: Tally, s: EqualizeState) {
    p.count(t.samples);
    p.byte(b' ');
    spaced(p, s.mse);
    let _ = writeln!(p, "{}", s.mode);
}

// Writes a point, where a curve is wanted.
fn drawn(curve: Option<Sink<'_>>, t: Tally, s: EqualizeState) -> io::Result<()> {
    let Some(mut to) = curve else {
        return Ok(());
    };
    let mut p: Page<LINE> = Page::new();
    point(&mut p, t, s);
    to.write_all(p.bytes())
}

// Samples of a room, from `at` to before `to`.
#[derive(Clone, Copy)]
struct Span {
    at: usize,
    to: usize,
    ghost ordered: { at ≤ to },
    ghost within: { to ≤ MOST },
}

impl Span {
    // Where the marks of the samples stand in a room, and their numbers; their floats, and their bytes.
    fn marks(self) -> Range<usize>
        ensures { (result.start ≡ self.at) × (result.end ≡ self.to) }
    {
        self.at..self.to
    }

    fn floats(self) -> Range<usize>
        ensures { (result.start ≡ 2 * self.at) × (result.end ≡ 2 * self.to) }
    {
        2 * self.at..2 * self.to
    }

    fn bytes(self) -> Range<usize>
        ensures { (result.start ≡ 8 * self.at) × (result.end ≡ 8 * self.to) }
    {
        8 * self.at..8 * self.to
    }
}

// The samples that are read at once, as bytes and as floats, and what the calls gave: symbols, as floats and as bytes, marks and numbers.
#[derive(Drop)]
struct Room {
    raw: [u8; BYTES],
    x: [f32; FLOATS],
    y: [f32; FLOATS],
    out: [u8; BYTES],
    marks: [u8; MOST],
    numbers: [u8; MOST],
}

impl Room {
    // One call on some samples.
    fn equalize(
        &mut self,
        path: Path,
        state: EqualizeState,
        weights: &mut [f32],
        window: &mut [f32],
        span: Span,
    ) -> Result<EqualizeState, Error> {
        let Room {
            raw,
            x,
            y,
            out,
            marks,
            numbers,
        } = self;
        let e = cf32_block::block(
            path,
            state,
            weights,
            window,
            &raw[span.bytes()],
            &mut x[span.floats()],
            &mut y[span.floats()],
            &mut out[span.bytes()],
            &mut marks[span.marks()],
            &mut numbers[span.marks()],
        );
        e.outcome?;
        Ok(e.state)
    }

    // The symbols.
    fn symbols(&self, span: Span) -> &[f32] {
        &self.y[span.floats()]
    }

    // Their bytes.
    fn bytes(&self, span: Span) -> &[u8] {
        &self.out[span.bytes()]
    }

    fn marks(&self, span: Span) -> &[u8] {
        &self.marks[span.marks()]
    }

    fn numbers(&self, span: Span) -> &[u8] {
        &self.numbers[span.marks()]
    }
}

// The samples that were served of those that were read, and what ended the calls.
#[derive(Clone, Copy)]
struct Served {
    span: Span,
    ending: Result<(), Ending>,
}

// Where a stream stands: its weights and window are lent.
#[derive(Drop)]
struct Stream<'a> {
    ways: Ways,
    files: Files<'a>,
    progress: Progress,
    weights: &'a mut [f32],
    window: &'a mut [f32],
}

impl Stream<'_> {
    // One call, its marks counted and its point drawn.
    fn call(&mut self, room: &mut Room, span: Span) -> Result<(), Ending> {
        let path = self.ways.path;
        let Progress { state, mut tally } = self.progress;
        let state = room
            .equalize(path, state, self.weights, self.window, span)
            .map_err(Ending::Refused)?;
        for mark in room.marks(span) {
            tally.add(*mark);
        }
        drawn(self.files.curve, tally, state).map_err(|e| Ending::Unwritten(Target::Curve, e))?;
        self.progress = Progress { state, tally };
        Ok(())
    }

    // Equalizes the samples that were read, by calls of a block. By places: a call takes the same part of six arrays.
    fn calls(&mut self, room: &mut Room, read: Span) -> Served {
        let block = self.ways.block();
        for at in (read.at..read.to).step_by(block) {
            let to = (at + block).min(read.to);
            if let Err(e) = self.call(room, Span { at, to }) {
                return Served {
                    span: Span {
                        at: read.at,
                        to: at,
                    },
                    ending: Err(e),
                };
            }
        }
        Served {
            span: read,
            ending: Ok(()),
        }
    }

    // Writes symbols, as text or as bytes.
    fn write_symbols(&self, room: &Room, span: Span) -> io::Result<()> {
        let Some(mut to) = self.files.output else {
            return Ok(());
        };
        if self.ways.text {
            return lines(to, room.symbols(span), room.marks(span), room.numbers(span));
        }
        to.write_all(room.bytes(span))
    }

    // Writes what the calls gave.
    fn deliver(&self, room: &Room, span: Span) -> Result<(), Ending> {
        self.write_symbols(room, span)
            .map_err(|e| Ending::Unwritten(Target::Symbols, e))?;
        if let Some(mut to) = self.files.marks {
            to.write_all(room.marks(span))
                .map_err(|e| Ending::Unwritten(Target::Marks, e))?;
        }
        if let Some(mut to) = self.files.numbers {
            to.write_all(room.numbers(span))
                .map_err(|e| Ending::Unwritten(Target::Numbers, e))?;
        }
        Ok(())
    }

    // Reads the samples wanted, as far as they come, equalizes and writes; whether there may be more. What could not be written does not count.
    fn turn(&mut self, room: &mut Room, want: Span) -> Result<bool, Ending> {
        let Filled { bytes, more } = fill(self.files.input, &mut room.raw[want.bytes()]);
        let before = self.progress;
        let read = Span {
            at: want.at,
            to: want.at + bytes / 8,
        };
        let served = self.calls(room, read);
        if let Err(e) = self.deliver(room, served.span) {
            self.progress = before;
            return Err(e);
        }
        served.ending?;
        let more = more.map_err(Ending::Unread)?;
        if !more && bytes % 8 != 0 {
            return Err(Ending::Truncated(bytes % 8));
        }
        Ok(more)
    }

    // A proved loop has to end, and nothing says that a stream does: no stream uses up the turns.
    fn run(&mut self) -> Result<(), Ending> {
        let want = self.ways.at_once(self.files.at_hand);
        let mut room = Room {
            raw: [0; BYTES],
            x: [0.0; FLOATS],
            y: [0.0; FLOATS],
            out: [0; BYTES],
            marks: [0; MOST],
            numbers: [0; MOST],
        };
        for _ in 0..u64::MAX {
            if !self.turn(&mut room, want)? {
                return Ok(());
            }
        }
        Err(Ending::Unread(io::Error::from(io::ErrorKind::Other)))
    }
}

pub fn all(
    ways: Ways,
    files: Files<'_>,
    state: EqualizeState,
    weights: &mut [f32],
    window: &mut [f32],
) -> Done {
    let mut stream = Stream {
        ways,
        files,
        progress: Progress {
            state,
            tally: Tally::default(),
        },
        weights,
        window,
    };
    let ending = stream.run();
    Done {
        progress: stream.progress,
        ending,
    }
}
