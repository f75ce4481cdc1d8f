// Why a text is not read.
ghost use Rattle.std.specs.Prelude.{◌≡◌};
ghost use Rattle.text.specs.declared.unread.Unread.TheVariants.{Faulty};

use crate::fault::Fault;

#[derive(Clone, Copy, PartialEq, Eq, Debug)]
pub enum Unread {
    // the table has fewer places than the text has lines
    NoRoom,
    // the first fault of the text
    Faulty(Fault),
}

impl From<Fault> for Unread {
    ghost from_gives = { λ why unread. unread ≡ Faulty why };

    fn from(why: Fault) -> Unread {
        Unread::Faulty(why)
    }
}
