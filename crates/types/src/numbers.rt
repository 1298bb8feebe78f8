// The numbers of refusals, marks, modes and constellations: from a case to its number and back.
ghost use Rattle.std.specs.Prelude.{◌≡◌};
ghost use Rattle.types.specs.Numbers.{error_number, lengths_of, mark_number, mode_number, constellation_number, mark_of, mode_of, constellation_of, read_mark, read_mode, read_constellation};

use crate::{EqConstellation, EqMode, Error, Mark};

// A number that no case has.
#[derive(Clone, Copy, Debug, PartialEq, Eq)]
pub struct UnknownNumber {
    pub number: u32,
}

// The two lengths of a refusal: the one that was wanted, and the one that came.
#[derive(Clone, Copy, Debug, Default, PartialEq, Eq)]
pub struct Lengths {
    pub expected: usize,
    pub got: usize,
}

impl Error {
    // The two lengths that a refusal returns, where it returns some.
    pub fn lengths(self) -> Option<Lengths>
        ensures { result ≡ lengths_of self }
    {
        match self {
            Error::Window { expected, got }
            | Error::Output { expected, got }
            | Error::Marks { expected, got } => Some(Lengths { expected, got }),
            _ => None,
        }
    }
}

// The number of a refusal.
impl From<Error> for u32 {
    fn from(e: Error) -> u32
        ensures { result ≡ error_number e }
    {
        match e {
            Error::Odd => 1,
            Error::Feedback => 2,
            Error::Taps => 3,
            Error::Window { .. } => 4,
            Error::MuCma => 5,
            Error::MuDd => 6,
            Error::Bandwidth => 7,
            Error::Record => 8,
            Error::Output { .. } => 9,
            Error::Marks { .. } => 10,
            Error::Numbers => 13,
        }
    }
}

// The bytes that a caller reads. Here and below a match and no `as`: the constants say the numbers, for both ways, and the cases would say them again.
impl Mark {
    pub const HEARD: u8 = 0;

    pub const BLANK: u8 = 1;

    pub const SPILLED: u8 = 2;

    pub const SILENT: u8 = 3;

    pub const OFF_SCALE: u8 = 4;

    // The mark with the number n; the last for a number of none, as in the two below. For those who read marks: no call here does.
    pub fn of(n: u8) -> Mark
        ensures { result ≡ mark_of n }
    {
        Mark::try_from(n).unwrap_or(Mark::OffScale)
    }
}

impl From<Mark> for u8 {
    fn from(m: Mark) -> u8
        ensures { result ≡ mark_number m }
    {
        match m {
            Mark::Heard => Mark::HEARD,
            Mark::Blank => Mark::BLANK,
            Mark::Spilled => Mark::SPILLED,
            Mark::Silent => Mark::SILENT,
            Mark::OffScale => Mark::OFF_SCALE,
        }
    }
}

impl TryFrom<u8> for Mark {
    type Error = UnknownNumber;

    fn try_from(n: u8) -> Result<Mark, UnknownNumber>
        ensures { result ≡ read_mark n }
    {
        match n {
            Mark::HEARD => Ok(Mark::Heard),
            Mark::BLANK => Ok(Mark::Blank),
            Mark::SPILLED => Ok(Mark::Spilled),
            Mark::SILENT => Ok(Mark::Silent),
            Mark::OFF_SCALE => Ok(Mark::OffScale),
            _ => Err(UnknownNumber {
                number: u32::from(n),
            }),
        }
    }
}

impl EqMode {
    pub const CMA: u32 = 0;

    pub const DECISION: u32 = 1;

    // The mode with the number n; the last for a number of none.
    pub fn of(n: u32) -> EqMode
        ensures { result ≡ mode_of n }
    {
        EqMode::try_from(n).unwrap_or(EqMode::Decision)
    }
}

impl From<EqMode> for u32 {
    fn from(m: EqMode) -> u32
        ensures { result ≡ mode_number m }
    {
        match m {
            EqMode::Cma => EqMode::CMA,
            EqMode::Decision => EqMode::DECISION,
        }
    }
}

impl TryFrom<u32> for EqMode {
    type Error = UnknownNumber;

    fn try_from(n: u32) -> Result<EqMode, UnknownNumber>
        ensures { result ≡ read_mode n }
    {
        match n {
            EqMode::CMA => Ok(EqMode::Cma),
            EqMode::DECISION => Ok(EqMode::Decision),
            _ => Err(UnknownNumber { number: n }),
        }
    }
}

impl EqConstellation {
    pub const BPSK: u32 = 0;

    pub const QPSK: u32 = 1;

    pub const PSK8: u32 = 2;

    pub const QAM16: u32 = 3;

    pub const QAM64: u32 = 4;

    // The constellation with the number n; the last for a number of none.
    pub fn of(n: u32) -> EqConstellation
        ensures { result ≡ constellation_of n }
    {
        EqConstellation::try_from(n).unwrap_or(EqConstellation::Qam64)
    }
}

impl From<EqConstellation> for u32 {
    fn from(k: EqConstellation) -> u32
        ensures { result ≡ constellation_number k }
    {
        match k {
            EqConstellation::Bpsk => EqConstellation::BPSK,
            EqConstellation::Qpsk => EqConstellation::QPSK,
            EqConstellation::Psk8 => EqConstellation::PSK8,
            EqConstellation::Qam16 => EqConstellation::QAM16,
            EqConstellation::Qam64 => EqConstellation::QAM64,
        }
    }
}

impl TryFrom<u32> for EqConstellation {
    type Error = UnknownNumber;

    fn try_from(n: u32) -> Result<EqConstellation, UnknownNumber>
        ensures { result ≡ read_constellation n }
    {
        match n {
            EqConstellation::BPSK => Ok(EqConstellation::Bpsk),
            EqConstellation::QPSK => Ok(EqConstellation::Qpsk),
            EqConstellation::PSK8 => Ok(EqConstellation::Psk8),
            EqConstellation::QAM16 => Ok(EqConstellation::Qam16),
            EqConstellation::QAM64 => Ok(EqConstellation::Qam64),
            _ => Err(UnknownNumber { number: n }),
        }
    }
}
