// The words of a line, and how far they are read.
ghost use Rattle.std.specs.Prelude.{◌≤◌};
ghost use Rattle.text.specs.Cuts.{end_from};

use crate::place::Place;

// Words are taken from the front. So the place is that of the next word, or where the line ends.
#[derive(Drop)]
pub(crate) struct Fields<'a> {
    pub(crate) place: Place,
    // absent where no word is left; an empty word may be
    pub(crate) rest: Option<&'a [u8]>,
    ghost short: { end_from place.column rest ≤ 65537 },
}
