// A choice of two numbers.
#![tactic(auto)]

ghost use Rattle.std.specs.Prelude.{◌≡◌, cond};

// The first of two numbers or the second.
pub fn choose(first: bool, x: usize, y: usize) -> usize
    ensures { result ≡ cond first x y }
{
    if first { x } else { y }
}
