ghost use Rattle.std.specs.Prelude.{◌≡◌, ◌≤◌};
ghost use Rattle.ig_mode.specs.Mode.{edge, mode_of};

/// The mode of a block: `a` at (0, 0), `b` at (1, 0), `c` at (0, 1), `d` at (1, 1). It is `a` where that is there twice, else `b`
/// where that is, else `d`.
pub fn mode4(a: u64, b: u64, c: u64, d: u64) -> u64
    ensures { result ≡ mode_of a b c d }
{
    if a == b || a == c {
        a
    } else if b == c {
        b
    } else {
        d
    }
}

/// The place in a side of this length, or its last one.
#[inline(always)]
pub(crate) fn edge_of(side: usize, place: usize) -> usize
    requires { 1 ≤ side }
    ensures { result ≡ edge side place }
{
    if place < side { place } else { side - 1 }
}
