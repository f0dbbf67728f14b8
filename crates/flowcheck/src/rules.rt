// The rules of a flow row, at one event or for the sum of the shares.
ghost use Rattle.std.specs.Prelude.{◌+◌, ◌≤◌, ◌≡◌, leb};
ghost use Rattle.flow_sums.specs.Sums.{most_sum};
ghost use Rattle.flowcheck.specs.Kept.{kept};

// Rule 3: whether the shares come to at most the opening count.
pub fn covers(opening: u32, total: u64) -> bool
    ensures { result ≡ leb total opening }
{
    total <= u64::from(opening)
}

// Rules 1 and 2 at one event: it gets what it takes, and passes on no more than it has then. What arrives is a share and what the
// pairs carry.
pub fn keeps(taken: u32, given: u32, arrived: u64, left: u64) -> bool
    requires { (arrived ≤ most_sum) × (left ≤ most_sum) }
    ensures { result ≡ kept taken given arrived left }
{
    if arrived < u64::from(taken) {
        return false;
    }
    left + u64::from(taken) <= arrived + u64::from(given)
}
