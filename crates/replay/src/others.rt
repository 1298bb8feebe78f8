// The other operations. A line holds what one is handed, then what it gives and leaves:
// record, number of the operation, its step size or frequency, taps n of the weights and m of the window,
// n weights, m window values; number of the refusal and its two lengths (0 where there are none), record,
// n weights, m window values.
use crate::patterns::{case_of, single};
use crate::records::Kept;
use types::{EqualizeState, Equalized, Error, UnknownNumber};

#[derive(Clone, Copy)]
enum Operation {
    New,
    Reset,
    SetMuCma,
    SetMuDd,
    SetFrequency,
}

impl TryFrom<u32> for Operation {
    type Error = UnknownNumber;

    fn try_from(number: u32) -> Result<Operation, UnknownNumber> {
        match number {
            0 => Ok(Operation::New),
            1 => Ok(Operation::Reset),
            2 => Ok(Operation::SetMuCma),
            3 => Ok(Operation::SetMuDd),
            4 => Ok(Operation::SetFrequency),
            _ => Err(UnknownNumber { number }),
        }
    }
}

impl Operation {
    // x is the step size or the frequency.
    fn on(self, s: EqualizeState, x: f32, weights: &mut [f32], window: &mut [f32]) -> Equalized {
        match self {
            Operation::New => new(s, weights, window),
            Operation::Reset => equalize_state::reset(s, weights, window),
            Operation::SetMuCma => equalize_state::set_mu_cma(s, x),
            Operation::SetMuDd => equalize_state::set_mu_dd(s, x),
            Operation::SetFrequency => Equalized::served(equalize_state::set_frequency(s, x)),
        }
    }
}

// A record that is not made is the one that was handed.
fn new(given: EqualizeState, weights: &mut [f32], window: &mut [f32]) -> Equalized {
    match equalize_state::new(weights, window, given.params) {
        Ok(state) => Equalized::served(state),
        Err(e) => Equalized::refused(given, e),
    }
}

// The words of a line.
#[derive(Clone, Copy)]
struct Case<'a> {
    start: Kept<'a>,
    operation: Operation,
    x: u64,
    refusal: [u64; 3],
    left: Kept<'a>,
}

impl Case<'_> {
    fn of(w: &[u64]) -> Option<Case<'_>> {
        let (record, w) = w.split_first_chunk()?;
        let (head, mut w) = w.split_first_chunk()?;
        let [operation, x, n, m]: [u64; 4] = *head;
        let (n, m) = (n as usize, m as usize);
        let operation = case_of(operation)?;
        let start = Kept::of(record, &mut w, n, m)?;
        let (refusal, w) = w.split_first_chunk()?;
        Some(Case {
            start,
            operation,
            x,
            refusal: *refusal,
            left: Kept::last(w, n, m)?,
        })
    }
}

// The number of a refusal and its two lengths.
fn numbers_of(outcome: Result<(), Error>) -> [u64; 3] {
    let Err(e) = outcome else {
        return [0, 0, 0];
    };
    let l = e.lengths().unwrap_or_default();
    [u64::from(u32::from(e)), l.expected as u64, l.got as u64]
}

pub(crate) fn agrees(w: &[u64]) -> Option<bool> {
    let case = Case::of(w)?;
    let Some(s) = case.start.state() else {
        return Some(false);
    };
    let mut weights = case.start.weights();
    let mut window = case.start.window();
    let (w, h) = (weights.as_mut_slice(), window.as_mut_slice());
    let done = case.operation.on(s, single(case.x), w, h);
    let refused = numbers_of(done.outcome) == case.refusal;
    Some(refused & case.left.is(done.state, w, h))
}
