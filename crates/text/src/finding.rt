// Cutting where a byte stands first.
ghost use Rattle.std.specs.Prelude.{◌≡◌, ℕ, ◌<◌, ◌≤◌, ◌≢◌, length, MatchOption, ◌==◌, slice_index};
ghost use Rattle.text.specs.Cuts.{Splits, Without};

// Where the first such byte stands, or where the bytes end. A loop: most words are short, and by `position` each step costs
// more.
fn first_place(bytes: &[u8], byte: u8) -> usize
    ensures inside { result ≤ length bytes.now }
    ensures before { (k : ℕ) → k < result → slice_index bytes.now k ≢ byte }
    ensures found { result < length bytes.now → slice_index bytes.now result ≡ byte }
{
    for (index, it) in bytes.iter().enumerate() {
        if *it == byte {
            return index;
        }
    }
    bytes.len()
}

// What stands before the first such byte, and what behind it.
pub(crate) fn split_once(bytes: &[u8], byte: u8) -> Option<(&[u8], &[u8])>
    ensures { MatchOption result (Without byte bytes.now) (λ parts. Splits byte bytes.now parts.0.now parts.1.now) }
{
    let end = first_place(bytes, byte);
    if end == bytes.len() {
        return None;
    }
    Some((&bytes[..end], &bytes[end + 1..]))
}
