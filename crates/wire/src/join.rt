// Tests that are joined without a branch.
ghost use Rattle.std.specs.Prelude.{◌≡◌, ◌&&◌, ◌||◌, not};

// Whether both hold.
pub fn and(a: bool, b: bool) -> bool
    ensures { result ≡ (a && b) }
{
    a & b
}

// Whether one of them holds.
pub fn or(a: bool, b: bool) -> bool
    ensures { result ≡ (a || b) }
{
    a | b
}

// Whether it does not hold.
pub fn negated(a: bool) -> bool
    ensures { result ≡ not a }
{
    !a
}
