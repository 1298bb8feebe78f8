// The options of a run, as the arguments give them.
ghost use Rattle.std.specs.Prelude.{◌≡◌, codes, bytes_eq, MatchOption, Result};
ghost use Rattle.equalizer_body.specs.Options.{first_named, options, option_with, words_taken, name_with, symbols_with};
ghost use Rattle.program_words.specs.Wholes.{whole_of as whole_in};
ghost use Rattle.std.specs.Result.{result_ok};

use equalizer_stream::{Path, Ways};
use program::arguments::{Fault, Name, Value};
use program::{arguments, numbers};
use std::env::Env;
use std::ops::Range;
use types::{EqConstellation, EqParams};

// What is told in the place of a run.
#[derive(Clone, Copy, PartialEq, Eq)]
pub(crate) enum About {
    Help,
    Version,
}

#[derive(Clone, Copy)]
pub(crate) struct Options {
    pub(crate) params: EqParams,
    pub(crate) taps: usize,
    pub(crate) frequency: f32,
    pub(crate) ways: Ways,
    pub(crate) about: Option<About>,
    pub(crate) input: Name,
    pub(crate) output: Name,
    pub(crate) marks: Option<Name>,
    pub(crate) numbers: Option<Name>,
    pub(crate) curve: Option<Name>,
}

// What an option with a value sets.
#[derive(Clone, Copy)]
enum Setting {
    Input,
    Output,
    Marks,
    Numbers,
    Curve,
    MuCma,
    MuDd,
    Bandwidth,
    Frequency,
    Taps,
    Feedback,
    CmaSymbols,
    Block,
    Constellation,
    Path,
}

#[derive(Clone, Copy)]
enum Flag {
    Text,
    About(About),
}

// An option: one that takes a value, or one that takes none.
#[derive(Clone, Copy)]
enum Kind {
    Valued(Setting),
    Alone(Flag),
}

// The option of a word. Text, since of a match on byte strings as long as these no proof is found.
fn kind_of(word: &str) -> Option<Kind>
    ensures { result ≡ first_named options word.now }
{
    match word {
        "--in" => Some(Kind::Valued(Setting::Input)),
        "--out" => Some(Kind::Valued(Setting::Output)),
        "--marks" => Some(Kind::Valued(Setting::Marks)),
        "--numbers" => Some(Kind::Valued(Setting::Numbers)),
        "--curve" => Some(Kind::Valued(Setting::Curve)),
        "--mu-cma" => Some(Kind::Valued(Setting::MuCma)),
        "--mu-dd" => Some(Kind::Valued(Setting::MuDd)),
        "--bandwidth" => Some(Kind::Valued(Setting::Bandwidth)),
        "--frequency" => Some(Kind::Valued(Setting::Frequency)),
        "--taps" => Some(Kind::Valued(Setting::Taps)),
        "--feedback" => Some(Kind::Valued(Setting::Feedback)),
        "--cma-symbols" => Some(Kind::Valued(Setting::CmaSymbols)),
        "--block" => Some(Kind::Valued(Setting::Block)),
        "--constellation" => Some(Kind::Valued(Setting::Constellation)),
        "--path" => Some(Kind::Valued(Setting::Path)),
        "--text" => Some(Kind::Alone(Flag::Text)),
        "--help" | "-h" => Some(Kind::Alone(Flag::About(About::Help))),
        "--version" => Some(Kind::Alone(Flag::About(About::Version))),
        _ => None,
    }
}

// The option of a name. The words are text: bytes that are none are no option's name.
#[tactic(auto, using(crate::proofs::Places::option_is, crate::proofs::Places::no_option))]
fn named(name: &[u8]) -> Option<Kind>
    ensures { result ≡ option_with name.now }
{
    match std::str::from_utf8(name) {
        Ok(word) => kind_of(word),
        Err(_) => None,
    }
}

impl Setting {
    // What the option takes, in words.
    fn takes(self) -> &'static [u8]
        ensures { result.now ≡ words_taken self }
    {
        match self {
            Setting::Input => b"the name of a file, or - for standard input",
            Setting::Output | Setting::Marks | Setting::Numbers | Setting::Curve => {
                b"the name of a file, or - for standard output"
            }
            Setting::MuCma | Setting::MuDd => b"a number from 0.00001 to 1, of at most 15 digits",
            Setting::Bandwidth => b"0, or a number from 0.0001 to 0.2, of at most 15 digits",
            Setting::Frequency => b"a number, held to -0.125 to 0.125, of at most 15 digits",
            Setting::Taps => b"an odd number from 3 to 63",
            Setting::Feedback => b"a whole number from 0 to 63",
            Setting::CmaSymbols => b"a whole number from 0 to 4294967294, or never",
            Setting::Block => b"a whole number from 1 to 4096",
            Setting::Constellation => b"bpsk, qpsk, 8psk, 16qam or 64qam",
            Setting::Path => b"plain or fast",
        }
    }
}

// What the value v of text t names.
fn name_of(t: &[u8], v: Value) -> Name
    ensures { result ≡ name_with t.now v }
{
    match t {
        b"-" => Name::Standard,
        _ => Name::File(v),
    }
}

fn narrow_of(t: &[u8]) -> Option<f32> {
    numbers::real_of(t).map(numeric::narrow)
}

// Up to so many taps of each kind are handed to `new`, which says which it takes.
pub(crate) const MOST_TAPS: usize = 999;

// A whole number up to `most`, of a type that has it.
fn whole_of<T: TryFrom<u64>>(t: &[u8], most: u64) -> Option<T>
where
    T::Error: Drop,
    ensures { MatchOption (whole_in t.now most) (result ≡ None) (λ n. (r : Result T T.Error) × T.try_from_gives n r × (result ≡ result_ok r)) }
{
    T::try_from(numbers::whole_of(t, most)?).ok()
}

fn taps_of(t: &[u8]) -> Option<usize> {
    whole_of(t, MOST_TAPS as u64)
}

// `never` is the count that is not reached.
fn symbols_of(t: &[u8]) -> Option<u32>
    ensures { result ≡ symbols_with t.now }
{
    match t {
        b"never" => Some(EqParams::NEVER_SWITCH),
        _ => whole_of(t, u64::from(EqParams::NEVER_SWITCH) - 1),
    }
}

fn block_of(t: &[u8]) -> Option<usize> {
    whole_of(t, equalizer_stream::MOST as u64).filter(|n| *n > 0)
}

// The Rust's settings, and 11 taps.
impl Default for Options {
    fn default() -> Options {
        Options {
            params: EqParams::default(),
            taps: 11,
            frequency: 0.0,
            ways: Ways {
                path: Path::Fast,
                block: equalizer_stream::MOST,
                text: false,
            },
            about: None,
            input: Name::Standard,
            output: Name::Standard,
            marks: None,
            numbers: None,
            curve: None,
        }
    }
}

impl Options {
    // Sets what an option does to the value v of text t, where it takes that.
    fn set(&mut self, setting: Setting, t: &[u8], v: Value) -> Option<()> {
        if t.is_empty() {
            return None;
        }
        match setting {
            Setting::Input => self.input = name_of(t, v),
            Setting::Output => self.output = name_of(t, v),
            Setting::Marks => self.marks = Some(name_of(t, v)),
            Setting::Numbers => self.numbers = Some(name_of(t, v)),
            Setting::Curve => self.curve = Some(name_of(t, v)),
            Setting::MuCma => self.params.mu_cma = narrow_of(t)?,
            Setting::MuDd => self.params.mu_dd = narrow_of(t)?,
            Setting::Bandwidth => self.params.phase_bw = numbers::real_of(t)?,
            Setting::Frequency => self.frequency = narrow_of(t)?,
            Setting::Taps => self.taps = taps_of(t)?,
            Setting::Feedback => self.params.feedback_taps = taps_of(t)?,
            Setting::CmaSymbols => self.params.cma_symbols = symbols_of(t)?,
            Setting::Block => self.ways.block = block_of(t)?,
            Setting::Constellation => {
                self.params.constellation = EqConstellation::try_from(t).ok()?;
            }
            Setting::Path => self.ways.path = Path::try_from(t).ok()?,
        }
        Some(())
    }

    // An option that takes nothing. Help is told before the version.
    fn flag(&mut self, flag: Flag) {
        match flag {
            Flag::Text => self.ways.text = true,
            Flag::About(About::Help) => self.about = Some(About::Help),
            Flag::About(About::Version) => self.about = self.about.or(Some(About::Version)),
        }
    }

    // The option at `at`, and its value, which may be the next argument.
    fn take(
        &mut self,
        rt: &HostRuntime,
        at: usize,
        places: &mut Range<usize>,
    ) -> Result<(), Fault> {
        let argument = text_of(rt, Value::from(at))?;
        let text = argument.bytes();
        let name = arguments::name_end(text);
        // Behind a `=`.
        let value = (name < text.len()).then(|| Value { at, from: name + 1 });
        match (named(&text[..name]), value) {
            (None, _) => Err(Fault::Unknown(at)),
            (Some(Kind::Alone(_)), Some(_)) => Err(Fault::NotTaken(at)),
            (Some(Kind::Alone(flag)), None) => {
                self.flag(flag);
                Ok(())
            }
            (Some(Kind::Valued(setting)), value) => {
                let v = value
                    .or_else(|| places.next().map(Value::from))
                    .ok_or(Fault::NoValue(at))?;
                self.take_value(rt, at, setting, v)
            }
        }
    }

    // The value of the option at `at`.
    fn take_value(
        &mut self,
        rt: &HostRuntime,
        at: usize,
        setting: Setting,
        v: Value,
    ) -> Result<(), Fault> {
        let value = text_of(rt, v)?;
        self.set(setting, value.bytes(), v)
            .ok_or_else(|| Fault::Unreadable(at, v, setting.takes()))
    }
}

fn text_of(rt: &HostRuntime, v: Value) -> Result<arguments::Text, Fault> {
    arguments::whole_text_of(rt, v).map_err(|_| Fault::Long(v.at))
}

// The options of the arguments at some places. There are no more options than arguments, which bounds the loop: a `while let` over the places
// would want of `take` a promise that it puts none back.
pub(crate) fn read(rt: &HostRuntime, mut places: Range<usize>) -> Result<Options, Fault> {
    let mut o = Options::default();
    for _ in 0..places.len() {
        let Some(at) = places.next() else {
            break;
        };
        o.take(rt, at, &mut places)?;
    }
    Ok(o)
}

// Whether a word ends a run's arguments.
fn is_then(word: &[u8]) -> bool
    ensures { result ≡ bytes_eq word.now (codes "--then") }
{
    word == b"--then".as_slice()
}

// Where the arguments of a run end: at the next `--then`, or at the last.
pub(crate) fn end_of(rt: &HostRuntime, start: usize, count: usize) -> usize {
    (start..count)
        .find(|at| {
            let word: arguments::Text = arguments::text_of(rt, Value::from(*at));
            is_then(word.bytes())
        })
        .unwrap_or(count)
}
