// The files of a run.
use crate::Run;
use equalizer_stream::Files;
use program::files::{OpenInput, Output};
use program::messages::{Program, Told};
use program_look::Seen;

#[derive(Default, Drop)]
pub(crate) struct Outputs {
    symbols: Option<Output>,
    marks: Option<Output>,
    numbers: Option<Output>,
    curve: Option<Output>,
}

impl Outputs {
    // Makes all outputs, or none.
    pub(crate) fn open(run: &Run<'_>, input: &OpenInput) -> Result<Outputs, Told> {
        let mut outputs = Outputs::default();
        match outputs.make(run, input.look(run.program.rt)) {
            Ok(()) => Ok(outputs),
            Err(told) => {
                for output in outputs.into_array().into_iter().flatten() {
                    run.program.dropped(output);
                }
                Err(told)
            }
        }
    }

    // Makes one after the other. Marks, numbers and curve do not replace the input.
    fn make(&mut self, run: &Run<'_>, input: Seen) -> Result<(), Told> {
        let Run { program, options } = *run;
        self.symbols = program.output(Some(options.output), input, &[])?;
        program.not_input(options.marks, input)?;
        self.marks = program.output(options.marks, input, &[self.symbols.as_ref()])?;
        program.not_input(options.numbers, input)?;
        self.numbers = program.output(
            options.numbers,
            input,
            &[self.symbols.as_ref(), self.marks.as_ref()],
        )?;
        program.not_input(options.curve, input)?;
        self.curve = program.output(
            options.curve,
            input,
            &[
                self.symbols.as_ref(),
                self.marks.as_ref(),
                self.numbers.as_ref(),
            ],
        )?;
        Ok(())
    }

    pub(crate) fn files<'a>(&'a self, rt: &HostRuntime, input: &'a OpenInput) -> Files<'a> {
        Files {
            input: input.source(rt),
            at_hand: input.is_at_hand(rt),
            output: self.symbols.as_ref().map(|o| o.sink(rt)),
            marks: self.marks.as_ref().map(|o| o.sink(rt)),
            numbers: self.numbers.as_ref().map(|o| o.sink(rt)),
            curve: self.curve.as_ref().map(|o| o.sink(rt)),
        }
    }

    fn into_array(self) -> [Option<Output>; 4] {
        let Outputs {
            symbols,
            marks,
            numbers,
            curve,
        } = self;
        [symbols, marks, numbers, curve]
    }

    // Ends the outputs of a run that served its whole input, each of them, whatever becomes of the others.
    pub(crate) fn whole(self, p: Program<'_>) -> Result<(), Told> {
        let [symbols, marks, numbers, curve] = self
            .into_array()
            .map(|output| output.map_or(Ok(()), |o| p.whole(o)));
        symbols.and(marks).and(numbers).and(curve)
    }

    // Ends those of a run that did not.
    pub(crate) fn left(self, p: Program<'_>) {
        for output in self.into_array().into_iter().flatten() {
            p.left(output);
        }
    }
}
