// The worked figures that the rules of the ledger are proved to yield.
#![tactic(auto)]

ghost use Rattle.std.specs.Prelude.{◌≡◌, true, length};
ghost use Rattle.figures.specs.Table.{table, all_right};

// How many worked figures there are. That each is right is what this function promises.
pub fn worked_figures() -> u32
    ensures count { result ≡ length table }
    ensures right { all_right table ≡ true }
{
    14
}
