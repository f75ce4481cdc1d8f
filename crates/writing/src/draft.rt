// A line that is being written. In contracts it is the list of its bytes.
use shortlist::ShortList;
use std::marker::Model;

#[derive(Clone, Copy)]
pub struct Draft {
    pub(crate) bytes: ShortList<u8, 128>,
}

impl Model for Draft {
    ghost use Rattle.std.specs.Prelude.{ℕ, List, ◌≤◌, length};

    ghost Value = { List ℕ };

    ghost view = { λ draft. draft.bytes };

    ghost invariant = { λ draft. length draft.bytes ≤ 128 };

    ghost inverse = { λ bytes. record { bytes = bytes } };
}
