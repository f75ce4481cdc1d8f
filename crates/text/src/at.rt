// A value that was read, and where it stood.
ghost use Rattle.std.specs.Prelude.{◌≡◌};

use crate::place::Place;

// Lines and columns are counted from 1.
#[derive(Clone, Copy, PartialEq, Eq, Debug)]
pub struct At<T> {
    pub value: T,
    pub line: u32,
    pub column: u32,
}

impl<T> At<T> {
    pub(crate) fn place(&self) -> Place
        ensures { result ≡ record { line = self.now.line; column = self.now.column } }
    {
        Place {
            line: self.line,
            column: self.column,
        }
    }
}
