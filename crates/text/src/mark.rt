// The marks that lines begin with.
ghost use Rattle.std.specs.Prelude.{◌≡◌};
ghost use Rattle.text.specs.Marks.{mark_of};

#[derive(Clone, Copy)]
pub(crate) enum Mark {
    // CW, CD, CE
    Pattern,
    ClosedDay,
    Offset,
    // DL, HO
    Deal,
    Holding,
    // AD, TR, RD, PO, PY
    Advance,
    Transfer,
    Redemption,
    Posting,
    Payment,
}

impl Mark {
    // The mark that a whole word is. No `TryFrom`: there is nothing to tell of a word that is none.
    pub(crate) fn of_word(word: &[u8]) -> Option<Mark>
        ensures { result ≡ mark_of word.now }
    {
        match word {
            b"CW" => Some(Mark::Pattern),
            b"CD" => Some(Mark::ClosedDay),
            b"CE" => Some(Mark::Offset),
            b"DL" => Some(Mark::Deal),
            b"HO" => Some(Mark::Holding),
            b"AD" => Some(Mark::Advance),
            b"TR" => Some(Mark::Transfer),
            b"RD" => Some(Mark::Redemption),
            b"PO" => Some(Mark::Posting),
            b"PY" => Some(Mark::Payment),
            _ => None,
        }
    }
}
