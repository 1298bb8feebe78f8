// Refusals, unknown numbers and modes in words, and the constellation of a word.
ghost use Rattle.std.specs.Prelude.{◌≡◌, Some};
ghost use Rattle.types.specs.Words.{error_word, error_text, unknown_text, mode_word, constellation_with};

use crate::{EqConstellation, EqMode, Error, UnknownNumber};
use std::fmt;

impl Error {
    // The words of a refusal, without its lengths.
    fn words(self) -> &'static str
        ensures { result.now ≡ error_word self }
    {
        match self {
            Error::Odd => "a complex slice has an odd count of f32",
            Error::Feedback => "over 63 feedback taps",
            Error::Taps => "forward taps even or outside 3 to 63",
            Error::Window { .. } => "the window's length is not the weights'",
            Error::MuCma => "mu-cma outside 0.00001 to 1",
            Error::MuDd => "mu-dd outside 0.00001 to 1",
            Error::Bandwidth => "bandwidth neither 0 nor 0.0001 to 0.2",
            Error::Record => "the record breaks a rule",
            Error::Output { .. } => "the output's length is not the input's",
            Error::Marks { .. } => "the marks' length is not the input's",
            Error::Numbers => "the numbers' length is not the input's",
        }
    }
}

impl fmt::Display for Error {
    ghost output = { λ e. Some (error_text e) };

    fn fmt<W: fmt::Write>(&self, f: &mut fmt::Formatter<W>) -> fmt::Result {
        f.write_str(self.words())?;
        match self.lengths() {
            Some(l) => write!(f, ": {} expected, {} given", l.expected, l.got),
            None => Ok(()),
        }
    }
}

impl std::error::Error for Error {}

impl fmt::Display for UnknownNumber {
    ghost output = { λ u. Some (unknown_text u) };

    fn fmt<W: fmt::Write>(&self, f: &mut fmt::Formatter<W>) -> fmt::Result {
        write!(f, "no case has the number {}", self.number)
    }
}

impl std::error::Error for UnknownNumber {}

impl fmt::Display for EqMode {
    ghost output = { λ m. Some (mode_word m) };

    fn fmt<W: fmt::Write>(&self, f: &mut fmt::Formatter<W>) -> fmt::Result {
        f.write_str(match self {
            EqMode::Cma => "cma",
            EqMode::Decision => "decision",
        })
    }
}

// A word that no constellation has.
#[derive(Clone, Copy, Debug, PartialEq, Eq)]
pub struct UnknownWord;

impl TryFrom<&[u8]> for EqConstellation {
    type Error = UnknownWord;

    fn try_from(word: &[u8]) -> Result<EqConstellation, UnknownWord>
        ensures { result ≡ constellation_with word.now }
    {
        match word {
            b"bpsk" => Ok(EqConstellation::Bpsk),
            b"qpsk" => Ok(EqConstellation::Qpsk),
            b"8psk" => Ok(EqConstellation::Psk8),
            b"16qam" => Ok(EqConstellation::Qam16),
            b"64qam" => Ok(EqConstellation::Qam64),
            _ => Err(UnknownWord),
        }
    }
}
