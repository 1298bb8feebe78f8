// One call of the equalizer from the bytes of a cf32 file to bytes.
#![tactic(auto)]

ghost use Rattle.std.specs.Prelude.{◌≡◌};
ghost use Rattle.definition.specs.Calls.{equalize_def};
ghost use Rattle.definition.specs.Packed.{equalizer, answered};
ghost use Rattle.cf32_block.specs.Block.{bytes_answer, block_def};
ghost use Rattle.cf32_block.specs.Paths.{path_with};

use types::{EqualizeState, Equalized, UnknownWord};

// By which path a call goes; the answer is the same.
#[derive(Clone, Copy, Debug, PartialEq, Eq)]
pub enum Path {
    Plain,
    // Whichever is quickest.
    Fast,
}

impl TryFrom<&[u8]> for Path {
    type Error = UnknownWord;

    fn try_from(word: &[u8]) -> Result<Path, UnknownWord>
        ensures { result ≡ path_with word.now }
    {
        match word {
            b"plain" => Ok(Path::Plain),
            b"fast" => Ok(Path::Fast),
            _ => Err(UnknownWord),
        }
    }
}

impl Path {
    fn equalize(
        self,
        state: EqualizeState,
        weights: &mut [f32],
        window: &mut [f32],
        input: &[f32],
        output: &mut [f32],
        marks: &mut [u8],
        numbers: &mut [u8],
    ) -> Equalized
        ensures { answered result weights.new window.new output.new marks.new numbers.new
            ≡ equalize_def (equalizer state weights.old window.old) input.now output.old marks.old numbers.old }
    {
        match self {
            Path::Plain => {
                equalize::reference::equalize(state, weights, window, input, output, marks, numbers)
            }
            Path::Fast => equalize::equalize(state, weights, window, input, output, marks, numbers),
        }
    }
}

// One call from bytes to bytes. x and y are room for the floats of the input and of the output. A refusal leaves all but x as it was.
// Record and slices one by one, as the specification has those of the equalizing calls.
#[tactic(auto, unfolding(crate::specs::Block::block_def))]
pub fn block(
    path: Path,
    state: EqualizeState,
    weights: &mut [f32],
    window: &mut [f32],
    input: &[u8],
    x: &mut [f32],
    y: &mut [f32],
    output: &mut [u8],
    marks: &mut [u8],
    numbers: &mut [u8],
) -> Equalized
    ensures { bytes_answer (answered result weights.new window.new y.new marks.new numbers.new) x.new output.new
        ≡ block_def (equalizer state weights.old window.old) input.now x.old y.old output.old marks.old numbers.old }
{
    cf32::floats(input, x);
    let e = path.equalize(state, weights, window, x, y, marks, numbers);
    if e.outcome.is_ok() {
        cf32::bytes(y, output);
    }
    e
}
