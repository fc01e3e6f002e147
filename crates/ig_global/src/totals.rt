ghost use Rattle.std.specs.Prelude.{◌≡◌, ◌≤◌, ◌<◌, ◌^◌, ◌↔◌, IfOk, IfErr, IsErr, length, sum};

use thiserror::Error;

/// At most so many parts have numbers.
const MOST_PARTS: u64 = 1 << 24;

/// There are so many parts, which are more than can have numbers.
#[derive(Clone, Copy, Debug, PartialEq, Eq, Error)]
#[error("{count} parts, more than 16777216")]
pub struct TooManyParts {
    pub count: u64,
}

/// How many parts the boxes have together, where `counts` has the number for each box. At most 2^24 can have numbers.
pub fn total(counts: &[u32]) -> Result<u32, TooManyParts>
    requires few { length counts.now ≤ 1000000 }
    ensures sum { IfOk result (λ total. total ≡ sum counts.now) }
    ensures many { IsErr result ↔ (2 ^ 24 < sum counts.now) }
    ensures count { IfErr result (λ error. error.count ≡ sum counts.now) }
{
    let count: u64 = counts.iter().map(|parts| u64::from(*parts)).sum();
    if count > MOST_PARTS {
        return Err(TooManyParts { count });
    }
    Ok(count as u32)
}
