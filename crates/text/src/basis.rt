// The day counts that a deal may name.

#[derive(Clone, Copy, PartialEq, Eq, Debug)]
pub enum Basis {
    // A360
    Actual360,
    // A365
    Actual365,
    // B360
    BondBasis,
    // E360
    European,
}
