// What the program says, on standard error; help and version go to standard output.
use crate::Run;
use crate::options::About;
use equalizer_stream::{Done, Ending, Tally, Target};
use program::arguments::{Fault, Name, Value};
use program::messages::Part::{Count, Float, Reason, Text, Words};
use program::messages::{Part, Program, Told};
use program::text::Page;
use program::{Status, arguments, files};
use std::env::Env;
use std::fmt;
use std::fmt::Write as _;
use std::io::{Error, Write};
use types::EqualizeState;

// The first bytes of an argument that is too long.
fn too_long(p: Program<'_>, at: usize) -> Told {
    let mut start = [0u8; 40];
    let _ = p.rt.arg(at, &mut start);
    p.tell(&[
        Words(b"an argument is longer than 4096 bytes: "),
        Words(&start),
        Words(b".."),
    ])
}

// An option, without the value behind its `=`, and a value that it does not take.
fn not_taken(p: Program<'_>, at: usize, v: Value, takes: &'static [u8]) -> Told {
    let argument: arguments::Text = arguments::text_of(p.rt, Value::from(at));
    let option = &argument.bytes()[..arguments::name_end(argument.bytes())];
    let value: arguments::Text = arguments::text_of(p.rt, v);
    let quoted = if value.bytes().is_empty() {
        Words(b"an empty value")
    } else {
        Text(v)
    };
    untaken(p, option, quoted, takes)
}

// Apart, so that the parts stand at one lifetime, as those in an array have to.
fn untaken<'a>(p: Program<'_>, option: &'a [u8], quoted: Part<'a>, takes: &'a [u8]) -> Told {
    p.tell(&[
        Words(option),
        Words(b" does not take "),
        quoted,
        Words(b": it takes "),
        Words(takes),
    ])
}

pub(crate) fn fault(p: Program<'_>, f: Fault) -> Told {
    match f {
        Fault::Unknown(at) => p.tell(&[
            Words(b"there is no option "),
            Text(Value::from(at)),
            Words(b"; --help lists them"),
        ]),
        Fault::NoValue(at) => p.tell(&[
            Text(Value::from(at)),
            Words(b" takes a value; --help says which"),
        ]),
        Fault::NotTaken(at) => p.tell(&[Text(Value::from(at)), Words(b" takes no value")]),
        Fault::Long(at) => too_long(p, at),
        Fault::Unreadable(at, v, takes) => not_taken(p, at, v, takes),
    }
}

// A refusal, a mode, or the counts.
type Phrase = Page<256>;

// What a value is in words.
fn in_words<T: fmt::Display + Copy>(value: T) -> Phrase {
    let mut words = Phrase::new();
    let _ = write!(words, "{value}");
    words
}

pub(crate) fn refused(p: Program<'_>, e: types::Error) -> Told {
    p.tell(&[
        Words(b"refused, number "),
        Count(u64::from(u32::from(e))),
        Words(b": "),
        Words(in_words(e).bytes()),
    ])
}

// Bytes that are no marks are named only where there are some.
fn counts(p: Program<'_>, t: Tally) {
    let mut line = Phrase::new();
    let _ = write!(
        line,
        "{} samples: {} heard, {} blank, {} spilled, {} silent, {} off scale",
        t.samples, t.heard, t.blank, t.spilled, t.silent, t.off_scale
    );
    if t.unknown > 0 {
        let _ = write!(line, ", {} unknown", t.unknown);
    }
    p.tell(&[Words(line.bytes())]);
}

fn record(p: Program<'_>, s: EqualizeState) {
    p.tell(&[
        Words(b"mode "),
        Words(in_words(s.mode).bytes()),
        Words(b", mean error "),
        Float(s.mse),
        Words(b", frequency "),
        Float(s.freq),
        Words(b" turns per sample"),
    ]);
}

// A read that failed, by its file and the reason.
fn unread(p: Program<'_>, name: Name, e: Error) {
    let file = match name {
        Name::Standard => Words(b"standard input"),
        Name::File(v) => Text(v),
    };
    p.tell(&[Words(b"reading "), file, Words(b" failed: "), Reason(e)]);
}

// What went wrong in a run.
fn trouble(run: &Run<'_>, e: Ending) {
    let Run { program, options } = *run;
    match e {
        Ending::Truncated(n) => {
            program.tell(&[
                Words(b"the input is truncated: "),
                Count(n as u64),
                Words(b" bytes are left over, and a sample has 8"),
            ]);
        }
        Ending::Unread(error) => unread(program, options.input, error),
        Ending::Unwritten(target, error) => {
            let name = match target {
                Target::Symbols => Some(options.output),
                Target::Marks => options.marks,
                Target::Numbers => options.numbers,
                Target::Curve => options.curve,
            };
            program.tell(&files::unwritten(name.unwrap_or(Name::Standard), error));
        }
        Ending::Refused(error) => {
            refused(program, error);
        }
    }
}

// The summary, and what went wrong.
pub(crate) fn done(run: &Run<'_>, d: Done) {
    counts(run.program, d.progress.tally);
    record(run.program, d.progress.state);
    if let Err(e) = d.ending {
        trouble(run, e);
    }
}

// Writes help or the version to standard output, all of it.
pub(crate) fn about(p: Program<'_>, about: About) -> Result<(), Status> {
    let text: &[u8] = match about {
        About::Help => HELP,
        About::Version => VERSION,
    };
    p.rt.stdout().write_all(text).map_err(|e| {
        p.tell(&files::unwritten(Name::Standard, e));
        Status::Failed
    })
}

const VERSION: &[u8] = b"equalizer 0.2.0\n";

const HELP: &[u8] = b"usage: equalizer [OPTION [VALUE]].. [--then [OPTION [VALUE]]..]..
Equalizes complex samples. Samples and symbols are cf32: interleaved little-endian f32, real part first.
A sample that is not finite is a blank, and its symbol is (0, 0).

  --in FILE            samples (standard input)
  --out FILE           symbols (standard output)
  --marks FILE         a byte for each sample: 0 heard, 1 blank, 2 spilled, 3 silent, 4 off scale
  --numbers FILE       a byte for each sample: the number of the point decided, 255 where the mark is not 0
  --curve FILE         a line for each call: samples so far, mean error, mode
  --text               symbols as lines `re im mark number`
  --constellation C    bpsk, qpsk, 8psk, 16qam or 64qam (qpsk)
  --taps N             forward taps, odd, 3 to 63 (11)
  --feedback N         feedback taps, 0 to 63 (0)
  --mu-cma X           step size while blind, 0.00001 to 1 (0.05)
  --mu-dd X            step size against decisions, 0.00001 to 1 (0.02)
  --cma-symbols N      blind for N samples, 0 to 4294967294; `never`: always blind (1000)
  --bandwidth X        of the phase tracker, 0 or 0.0001 to 0.2 (0.02)
  --frequency X        at the start, in turns per sample, held to 0.125 (0)
  --block N            samples a call, 1 to 4096 (4096)
  --path P             plain or fast, which give the same bits (fast)
  --then               another run follows, with options of its own
  -h, --help           this text
  --version            the version

An option and its value may be one argument, --option=value, and FILE may be - for standard input or output.
X has at most 15 digits, and may have a sign, a point and an exponent. Messages go to standard error.
A named output is FILE.part, which must not be there, until the whole input is served, and only then FILE;
a file that had the name stays till then. FILE is a plain file: for a pipe or a device use standard output.
Exit status: 0 all was served; 1 something failed, and a message says what; 2 the options are wrong, and nothing was done.
";
