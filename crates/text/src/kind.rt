// The kinds of fields. Each says what words may stand in its place, and what they say.
ghost use Rattle.std.specs.Prelude.{◌≡◌, ℕ, List, Option, Result};
ghost use Rattle.days.specs.declared.refusal.Refusal.{Refusal};

use days::Refusal;

// Four kinds have names of their own and no values. The others are named by the types of what they say.

// A date. What it says is its day's number, or that it is no day of the range.
pub(crate) struct Date;

// A number of at most eleven digits.
pub(crate) struct Number;

// Seven bits, Monday first.
pub(crate) struct Pattern;

// A number behind its sign.
pub(crate) struct Offset;

pub(crate) trait Kind {
    type Said: Drop;

    ghost says: { List ℕ → Option Self.Said };

    // What a word says in the place of such a field. A word that is badly written says nothing.
    fn said(word: &[u8]) -> Option<Self::Said>
        ensures { result ≡ says word.now };
}

// A kind whose words can say what a text may not have.
pub(crate) trait Judged: Kind {
    type Value: Drop;

    ghost settles: { Self.Said → Result Self.Value Refusal };

    fn settled(said: Self::Said) -> Result<Self::Value, Refusal>
        ensures { result ≡ settles said };
}
