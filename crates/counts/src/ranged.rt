// Where a day count counts, and where it answers 0.
ghost use Rattle.std.specs.Prelude.{◌≡◌, ◌<◌, ◌≤◌, ◌⊎◌};

use days::LAST_DAY;

// The count of days in order within the range, and 0 for any other pair. The two days come as two numbers, here and below,
// as the method of the trait takes them.
pub(crate) fn ranged<F: FnOnce(u32, u32) -> u32>(count: F, a: u32, b: u32) -> u32
    requires { a ≤ b → b ≤ 109572 → F.pre count a b }
    ensures within { a ≤ b → b ≤ 109572 → F.post count a b result }
    ensures outside { (b < a) ⊎ (109572 < b) → result ≡ 0 }
{
    if a <= b && b <= LAST_DAY {
        count(a, b)
    } else {
        0
    }
}
