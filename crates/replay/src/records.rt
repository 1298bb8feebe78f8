// The record of an equalizer, in 14 words: constellation, feedback taps, mu_cma, mu_dd, cma_symbols, the
// bandwidth's upper and lower half, kp, ki, mode, count, mse, phase, freq.
ghost use Rattle.std.specs.Prelude.{◌*◌, ◌≤◌, length};
ghost use Rattle.replay.specs.declared.words.TheConstants.{MOST_TAPS};

use crate::patterns::{case_of, double, pattern, pattern_double, single, whole};
use crate::words::{Floats, MOST_TAPS, floats, same_floats};
use types::{EqParams, EqualizeState};

pub(crate) const RECORD: usize = 14;

type Record = [u64; RECORD];

// A function, as `words_of` is: an impl of `TryFrom` or `From` has to name a type of this crate.
fn record_of(r: &Record) -> Option<EqualizeState> {
    let [
        k,
        taps,
        mu_cma,
        mu_dd,
        symbols,
        upper,
        lower,
        kp,
        ki,
        mode,
        count,
        mse,
        phase,
        freq,
    ] = *r;
    let params = EqParams {
        constellation: case_of(k)?,
        feedback_taps: taps as usize,
        mu_cma: single(mu_cma),
        mu_dd: single(mu_dd),
        cma_symbols: whole(symbols),
        phase_bw: double((upper << 32) | lower),
    };
    Some(EqualizeState {
        params,
        kp: single(kp),
        ki: single(ki),
        mode: case_of(mode)?,
        count: whole(count),
        mse: single(mse),
        phase: whole(phase),
        freq: single(freq),
    })
}

// The words of a record, which are the same where the records are.
fn words_of(s: EqualizeState) -> Record {
    let p = s.params;
    let bandwidth = pattern_double(p.phase_bw);
    [
        u64::from(u32::from(p.constellation)),
        p.feedback_taps as u64,
        pattern(p.mu_cma),
        pattern(p.mu_dd),
        u64::from(p.cma_symbols),
        bandwidth >> 32,
        bandwidth & u64::from(u32::MAX),
        pattern(s.kp),
        pattern(s.ki),
        u64::from(u32::from(s.mode)),
        u64::from(s.count),
        pattern(s.mse),
        u64::from(s.phase),
        pattern(s.freq),
    ]
}

// What an operation starts from or leaves, in words: the record, the weights, the window.
#[derive(Clone, Copy)]
pub(crate) struct Kept<'a> {
    record: &'a Record,
    weights: &'a [u64],
    window: &'a [u64],
    ghost weights_len: { length weights.now ≤ 2 * MOST_TAPS },
    ghost window_len: { length window.now ≤ 2 * MOST_TAPS },
}

impl<'a> Kept<'a> {
    // The record, and the next words of a line: n weights, m window values.
    pub(crate) fn of(
        record: &'a Record,
        w: &mut &'a [u64],
        n: usize,
        m: usize,
    ) -> Option<Kept<'a>> {
        if n > MOST_TAPS || m > MOST_TAPS {
            return None;
        }
        Some(Kept {
            record,
            weights: w.split_off(..2 * n)?,
            window: w.split_off(..2 * m)?,
        })
    }

    // The last words of a line: the record, n weights, m window values.
    pub(crate) fn last(w: &'a [u64], n: usize, m: usize) -> Option<Kept<'a>> {
        let (record, mut w) = w.split_first_chunk()?;
        let kept = Kept::of(record, &mut w, n, m)?;
        w.is_empty().then_some(kept)
    }

    pub(crate) fn state(self) -> Option<EqualizeState> {
        record_of(self.record)
    }

    pub(crate) fn weights(self) -> Floats {
        floats(self.weights)
    }

    pub(crate) fn window(self) -> Floats {
        floats(self.window)
    }

    pub(crate) fn is(self, s: EqualizeState, weights: &[f32], window: &[f32]) -> bool {
        self.state()
            .is_some_and(|kept| words_of(s) == words_of(kept))
            & same_floats(weights, self.weights)
            & same_floats(window, self.window)
    }
}
