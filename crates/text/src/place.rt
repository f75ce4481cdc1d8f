// Where a line or a word begins.
ghost use Rattle.std.specs.Prelude.{◌≡◌, ◌+◌, ◌^◌, ◌<◌};
ghost use Rattle.text.specs.Fields.{fault, placed};

use crate::at::At;
use crate::fault::Fault;
use days::Refusal;

// Lines and columns are counted from 1.
#[derive(Clone, Copy)]
pub(crate) struct Place {
    pub(crate) line: u32,
    pub(crate) column: u32,
}

impl Place {
    // What is said of a whole line stands where the line begins.
    pub(crate) fn of_line(line: u32) -> Place
        ensures { result ≡ record { line = line; column = 1 } }
    {
        Place { line, column: 1 }
    }

    // So many bytes behind it on its line.
    pub(crate) fn further(self, bytes: usize) -> Place
        requires { self.column + bytes < 2 ^ 32 }
        ensures { result ≡ record { line = self.line; column = self.column + bytes } }
    {
        Place {
            line: self.line,
            column: self.column + bytes as u32,
        }
    }

    pub(crate) fn holds<T>(self, value: T) -> At<T>
        ensures { result ≡ placed value self.line self.column }
    {
        At {
            value,
            line: self.line,
            column: self.column,
        }
    }

    pub(crate) fn refuses(self, refusal: Refusal) -> Fault
        ensures { result ≡ fault refusal self.line self.column }
    {
        Fault {
            refusal,
            line: self.line,
            column: self.column,
        }
    }
}
