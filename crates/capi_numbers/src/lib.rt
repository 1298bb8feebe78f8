// The record of the exported calls, as numbers, and their reply. Numbers are checked on the way in.
#![tactic(auto)]

ghost use Rattle.std.specs.Prelude.{◌≡◌, ⊤};
ghost use Rattle.definition.specs.Refusals.{reply_of};
ghost use Rattle.capi_numbers.specs.RawRecord.{known_settings, known_record, settings_in, record_in, read_settings, read_record, settings_out, record_out, no_record, replied, unknown as unknownDef, fresh_out};

use types::{
    EqConstellation, EqMode, EqParams, EqualizeState, Equalized, Error, Lengths, UnknownNumber,
};

// The settings as numbers, for C. Constellations: 0 BPSK, 1 QPSK, 2 8-PSK, 3 16-QAM, 4 64-QAM.
#[repr(C)]
#[derive(Clone, Copy, Default)]
pub struct EqSettings {
    pub phase_bw: f64,
    pub feedback_taps: usize,
    pub constellation: u32,
    pub mu_cma: f32,
    pub mu_dd: f32,
    pub cma_symbols: u32,
}

// The record as numbers, for C. Modes: 0 Cma, 1 Decision.
#[repr(C)]
#[derive(Clone, Copy, Default)]
pub struct EqRecord {
    pub settings: EqSettings,
    pub kp: f32,
    pub ki: f32,
    pub mode: u32,
    pub count: u32,
    pub mse: f32,
    pub phase: u32,
    pub freq: f32,
}

// The record after a call, and the refusal's number with its two lengths; 0 is served. For C: numbers, where `Equalized` has a `Result`.
#[repr(C)]
#[derive(Clone, Copy)]
pub struct EqReply {
    pub record: EqRecord,
    pub number: u32,
    pub expected: usize,
    pub got: usize,
}

impl EqSettings {
    // Whether the number of the constellation is known. Only the record's asks; what it promises stays.
    #[tactic(auto, unfolding(crate::specs::RawRecord::known_settings))]
    pub fn is_known(self) -> bool
        ensures { result ≡ known_settings self }
    {
        EqConstellation::try_from(self.constellation).is_ok()
    }

    // The settings of the numbers; an unknown number is taken for its last case.
    #[tactic(auto, unfolding(crate::specs::RawRecord::settings_in))]
    pub fn params(self) -> EqParams
        ensures { result ≡ settings_in self }
    {
        EqParams {
            constellation: EqConstellation::of(self.constellation),
            feedback_taps: self.feedback_taps,
            mu_cma: self.mu_cma,
            mu_dd: self.mu_dd,
            cma_symbols: self.cma_symbols,
            phase_bw: self.phase_bw,
        }
    }
}

impl TryFrom<EqSettings> for EqParams {
    type Error = UnknownNumber;

    #[tactic(auto, unfolding(crate::specs::RawRecord::known_settings, crate::specs::RawRecord::settings_in))]
    fn try_from(p: EqSettings) -> Result<EqParams, UnknownNumber>
        ensures { result ≡ read_settings p }
    {
        let constellation = EqConstellation::try_from(p.constellation)?;
        Ok(EqParams {
            constellation,
            ..p.params()
        })
    }
}

impl EqRecord {
    // What new replies with where it made none.
    #[tactic(auto, unfolding(crate::specs::RawRecord::no_record))]
    pub fn none() -> EqRecord
        ensures { result ≡ no_record }
    {
        EqRecord::default()
    }

    // Whether the numbers of the constellation and the mode are known. No call here asks; what it promises stays.
    #[tactic(auto, unfolding(crate::specs::RawRecord::known_record))]
    pub fn is_known(self) -> bool
        ensures { result ≡ known_record self }
    {
        self.settings.is_known() & EqMode::try_from(self.mode).is_ok()
    }

    // The record of the numbers; an unknown number is taken for its last case.
    #[tactic(auto, unfolding(crate::specs::RawRecord::record_in))]
    pub fn state(self) -> EqualizeState
        ensures { result ≡ record_in self }
    {
        EqualizeState {
            params: self.settings.params(),
            kp: self.kp,
            ki: self.ki,
            mode: EqMode::of(self.mode),
            count: self.count,
            mse: self.mse,
            phase: self.phase,
            freq: self.freq,
        }
    }
}

impl TryFrom<EqRecord> for EqualizeState {
    type Error = UnknownNumber;

    #[tactic(auto, unfolding(crate::specs::RawRecord::record_in))]
    fn try_from(r: EqRecord) -> Result<EqualizeState, UnknownNumber>
        ensures { result ≡ read_record r }
    {
        let params = EqParams::try_from(r.settings)?;
        let mode = EqMode::try_from(r.mode)?;
        Ok(EqualizeState {
            params,
            mode,
            ..r.state()
        })
    }
}

// The numbers of settings.
impl From<EqParams> for EqSettings {
    #[tactic(auto, unfolding(crate::specs::RawRecord::settings_out))]
    fn from(p: EqParams) -> EqSettings
        ensures { result ≡ settings_out p }
    {
        EqSettings {
            phase_bw: p.phase_bw,
            feedback_taps: p.feedback_taps,
            constellation: u32::from(p.constellation),
            mu_cma: p.mu_cma,
            mu_dd: p.mu_dd,
            cma_symbols: p.cma_symbols,
        }
    }
}

// The numbers of a record.
impl From<EqualizeState> for EqRecord {
    #[tactic(auto, unfolding(crate::specs::RawRecord::record_out))]
    fn from(s: EqualizeState) -> EqRecord
        ensures { result ≡ record_out s }
    {
        EqRecord {
            settings: EqSettings::from(s.params),
            kp: s.kp,
            ki: s.ki,
            mode: u32::from(s.mode),
            count: s.count,
            mse: s.mse,
            phase: s.phase,
            freq: s.freq,
        }
    }
}

impl EqReply {
    // A reply that serves.
    #[tactic(auto, unfolding(crate::specs::RawRecord::replied))]
    pub fn served(record: EqRecord) -> EqReply
        ensures { result ≡ replied «record» (reply_of {A = ⊤} (Ok tt)) }
    {
        EqReply {
            record,
            number: 0,
            expected: 0,
            got: 0,
        }
    }

    // A reply that refuses. Lengths are 0 where the refusal returns none.
    #[tactic(auto, unfolding(crate::specs::RawRecord::replied))]
    fn refused(record: EqRecord, e: Error) -> EqReply
        ensures { result ≡ replied «record» (reply_of {A = ⊤} (Err e)) }
    {
        let Lengths { expected, got } = e.lengths().unwrap_or_default();
        EqReply {
            record,
            number: u32::from(e),
            expected,
            got,
        }
    }

    // The reply to a record or settings with an unknown number: 1 where a slice is odd, else 8.
    #[tactic(auto, using(crate::proofs::Replies::unknown_8, crate::proofs::Replies::unknown_1))]
    pub fn unknown(record: EqRecord, evens: bool) -> EqReply
        ensures { result ≡ replied «record» (unknownDef evens) }
    {
        if evens {
            EqReply::refused(record, Error::Record)
        } else {
            EqReply::refused(record, Error::Odd)
        }
    }
}

// What new answers, as numbers.
impl From<Result<EqualizeState, Error>> for EqReply {
    fn from(f: Result<EqualizeState, Error>) -> EqReply
        ensures { result ≡ replied (fresh_out f) (reply_of f) }
    {
        match f {
            Ok(state) => EqReply::served(EqRecord::from(state)),
            Err(e) => EqReply::refused(EqRecord::none(), e),
        }
    }
}

// What all other calls answer, as numbers. By a match of its own: one function over both outcomes would be four lines longer, and have a type parameter.
impl From<Equalized> for EqReply {
    fn from(e: Equalized) -> EqReply
        ensures { result ≡ replied (record_out e.state) (reply_of e.outcome) }
    {
        let record = EqRecord::from(e.state);
        match e.outcome {
            Ok(()) => EqReply::served(record),
            Err(error) => EqReply::refused(record, error),
        }
    }
}
