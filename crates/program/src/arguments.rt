// Arguments: options `--name value`, `--name=value` and `--name`.
ghost use Rattle.std.specs.Prelude.{◌≡◌, ◌≤◌, length, IfOk};

use crate::text::Page;
pub use program_words::words::{name_end, place};
use std::env::{Env, FillError};

// The text of an argument of at most 4,096 bytes.
pub type Text = Page<4096>;

// Where the text of a value stands: behind `from` bytes of argument `at`. No text: an argument is copied into a buffer where it is read, and there is
// no heap to keep them all.
#[derive(Clone, Copy, PartialEq, Eq)]
pub struct Value {
    pub at: usize,
    pub from: usize,
}

// All of an argument.
impl From<usize> for Value {
    ghost from_gives = { λ at v. (v.at ≡ at) × (v.from ≡ 0) };

    fn from(at: usize) -> Value {
        Value { at, from: 0 }
    }
}

// Standard input or output, or a file, of which there is a T. No `Option<T>`: a standard stream is no lack of one, and `Option<Name>` says whether an
// output is wanted.
#[derive(Clone, Copy, PartialEq, Eq, Drop)]
pub enum Stream<T> {
    Standard,
    File(T),
}

// What an option of a file names: standard input or output, which `-` names, or a file.
pub type Name = Stream<Value>;

// What is wrong with an argument.
#[derive(Clone, Copy)]
pub enum Fault {
    // Argument `at` is no option.
    Unknown(usize),
    // The option at `at` wants a value.
    NoValue(usize),
    // The option at `at` takes none.
    NotTaken(usize),
    // Argument `at` is too long.
    Long(usize),
    // The option at `at` does not take the value, but what the words say.
    Unreadable(usize, Value, &'static [u8]),
}

// How many arguments there are, the program's name among them.
pub fn count(env: &impl Env) -> usize {
    (0..usize::MAX)
        .find(|i| matches!(env.arg(*i, &mut [0]), Err(FillError::NotPresent)))
        .unwrap_or(usize::MAX)
}

// A value's text, where its whole argument has room on a page of N bytes.
#[tactic(auto, using(program_text::proofs::Laying::written_fits))]
pub fn whole_text_of<const N: usize>(env: &impl Env, v: Value) -> Result<Page<N>, FillError>
    ensures { IfOk result (λ text. length text ≤ N) }
{
    let mut argument = [0u8; N];
    let n = env.arg(v.at, &mut argument)?;
    let mut text = Page::new();
    text.words(argument.get(v.from..n).unwrap_or(&[]));
    Ok(text)
}

// A value's text; empty where its argument has no room on a page of N bytes.
pub fn text_of<const N: usize>(env: &impl Env, v: Value) -> Page<N>
    ensures { length result ≤ N }
{
    match whole_text_of(env, v) {
        Ok(text) => text,
        Err(_) => Page::new(),
    }
}
