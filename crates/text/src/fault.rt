// Why a text or a report is refused, and where. What has no place of its own stands at line 0 and column 0.
use days::Refusal;

#[derive(Clone, Copy, PartialEq, Eq, Debug)]
pub struct Fault {
    pub refusal: Refusal,
    pub line: u32,
    pub column: u32,
}
