// A line laid into a buffer, whole or not at all.
ghost use Rattle.std.specs.Prelude.{ℕ, List, [], ◌∷◌};
ghost use Rattle.writing.specs.Laying.{Laid, LongestFront, fitting};

use crate::draft::Draft;

// A buffer is full: its bytes up to here hold whole lines, and the next line does not fit behind them.
#[derive(Clone, Copy)]
pub struct Full {
    pub written: usize,
}

// Lays a line into a buffer from a place on; answers where the next line goes.
pub fn lay(line: &Draft, out: &mut [u8], at: usize) -> Result<usize, Full>
    ensures laid { Laid (line.now ∷ []) out.old at result out.new }
    ensures longest { (room : ℕ) (lines : List (List ℕ)) → LongestFront room lines (fitting room lines) }
{
    let text = line.bytes();
    // Behind a place past the end there is no room, and a line of no bytes needs none.
    let start = at.min(out.len());
    if text.len() > out.len() - start {
        return Err(Full { written: at });
    }
    out[start..start + text.len()].copy_from_slice(text);
    Ok(at + text.len())
}
