// Equalizes recordings of complex samples. All that matters is in the crate `equalize`: the program reads, calls and writes.
#![tactic(auto)]

mod options;
mod outputs;
mod report;

ghost use Rattle.std.specs.Prelude.{◌≤◌};
ghost use Rattle.equalizer_body.specs.declared.TheConstants.{MOST_PARTS};

use crate::options::{MOST_TAPS, Options};
use crate::outputs::Outputs;
use program::arguments::Name;
use program::messages::Part::Words;
use program::messages::Program;
use program::{Status, arguments};
use std::io::IsTerminal;
use std::ops::Range;
use types::EqualizeState;

// The whole program, and its exit status.
pub fn served(rt: &HostRuntime) -> Status {
    let p = Program {
        rt,
        name: b"equalizer",
    };
    match all(p) {
        Ok(()) => Status::Served,
        Err(status) => status,
    }
}

// Reads the options of every run and tries them, then serves each.
fn all(p: Program<'_>) -> Result<(), Status> {
    let count = arguments::count(p.rt);
    each(p.rt, count, |places| Run::read(p, places)?.tried())?;
    each(p.rt, count, |places| Run::read(p, places)?.served())
}

// Takes a step with the places of the arguments of every run, and stops at the first that is not served. There are no more runs than arguments. By their
// places: the system is asked for one argument at a time, so that there is no slice to split at `--then`.
fn each<F: Fn(Range<usize>) -> Result<(), Status>>(
    rt: &HostRuntime,
    count: usize,
    step: F,
) -> Result<(), Status>
    requires { F.IsAlwaysCallable step }
{
    let mut at = 1;
    for _ in 0..count {
        let end = options::end_of(rt, at, count);
        step(at..end)?;
        if end >= count {
            break;
        }
        at = end + 1;
    }
    Ok(())
}

// A run: its program, and its options.
#[derive(Clone, Copy)]
pub(crate) struct Run<'a> {
    pub(crate) program: Program<'a>,
    pub(crate) options: Options,
}

impl Run<'_> {
    // The run of the arguments at some places.
    fn read(program: Program<'_>, places: Range<usize>) -> Result<Run<'_>, Status> {
        let options = options::read(program.rt, places).map_err(|f| {
            report::fault(program, f);
            Status::Usage
        })?;
        Ok(Run { program, options })
    }

    // A run that can begin. Help and the version always can.
    fn tried(&self) -> Result<(), Status> {
        if self.options.about.is_none() {
            self.equalizer()?;
        }
        Ok(())
    }

    fn served(&self) -> Result<(), Status> {
        match self.options.about {
            Some(about) => report::about(self.program, about),
            None => self.equalizer()?.serve(self),
        }
    }

    // Says in a line why it is not served.
    fn ended(&self, status: Status, words: &[u8]) -> Result<(), Status> {
        self.program.tell(&[Words(words)]);
        Err(status)
    }

    // Samples are neither typed in nor shown on a terminal, and standard output is one output.
    fn is_ready(&self) -> Result<(), Status> {
        let Run { program, options } = *self;
        if options.input == Name::Standard && program.rt.stdin().is_terminal() {
            return self.ended(
                Status::Usage,
                b"samples come from --in FILE or standard input; see --help",
            );
        }
        if options.output == Name::Standard
            && !options.ways.text
            && program.rt.stdout().is_terminal()
        {
            return self.ended(
                Status::Usage,
                b"symbols go to --out FILE or standard output, not to a terminal; see --help and --text",
            );
        }
        let outputs = [
            Some(options.output),
            options.marks,
            options.numbers,
            options.curve,
        ];
        if outputs
            .iter()
            .filter(|name| **name == Some(Name::Standard))
            .count()
            > 1
        {
            return self.ended(
                Status::Usage,
                b"two outputs cannot both be standard output; nothing was written",
            );
        }
        Ok(())
    }

    // Its equalizer, where it can begin.
    fn equalizer(&self) -> Result<Equalizer, Status> {
        self.is_ready()?;
        let mut weights = [0.0f32; MOST_PARTS];
        let mut window = [0.0f32; MOST_PARTS];
        let Run { program, options } = *self;
        let parts = parts_of(&options);
        let state = equalize_state::new(
            &mut weights[..parts],
            &mut window[..parts],
            options.params,
        ).map_err(|e| {
            report::refused(program, e);
            Status::Usage
        })?;
        Ok(Equalizer {
            state: equalize_state::set_frequency(state, options.frequency),
            weights,
            window,
            parts,
        })
    }
}

// The most floats that the taps have, forward and feedback taps.
const MOST_PARTS: usize = 4 * MOST_TAPS;

// The floats of all taps.
fn parts_of(o: &Options) -> usize
    ensures { result ≤ MOST_PARTS }
{
    2 * (o.taps.min(MOST_TAPS) + o.params.feedback_taps.min(MOST_TAPS))
}

// The equalizer of a run: its record, and room for weights and window, of which `parts` floats are used. No `ArrayVec`: two would have a length each,
// to be filled with zeros first, and the two are to be of one length.
#[derive(Drop)]
struct Equalizer {
    state: EqualizeState,
    weights: [f32; MOST_PARTS],
    window: [f32; MOST_PARTS],
    parts: usize,
    ghost within: { parts ≤ MOST_PARTS },
}

impl Equalizer {
    fn serve(self, run: &Run<'_>) -> Result<(), Status> {
        let Equalizer {
            state,
            mut weights,
            mut window,
            parts,
        } = self;
        let Run { program, options } = *run;
        let input = program.input(options.input).map_err(|_| Status::Failed)?;
        let outputs = Outputs::open(run, &input).map_err(|_| Status::Failed)?;
        let done = equalizer_stream::all(
            options.ways,
            outputs.files(program.rt, &input),
            state,
            &mut weights[..parts],
            &mut window[..parts],
        );
        drop(input);
        report::done(run, done);
        if !done.is_whole() {
            outputs.left(program);
            return run.ended(Status::Failed, b"FAILED: the input was not served whole");
        }
        if outputs.whole(program).is_err() {
            return run.ended(Status::Failed, b"FAILED: not every output has its name");
        }
        Ok(())
    }
}
