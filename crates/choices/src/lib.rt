// Choices by a test, with no branch left in the caller.
#![tactic(auto)]

ghost use Rattle.std.specs.Prelude.{◌≡◌, ◌&&◌, ◌||◌, cond, ◌-◌, ◌≤◌, max};

pub fn both(a: bool, b: bool) -> bool
    ensures { result ≡ (a && b) }
{
    a && b
}

pub fn either(a: bool, b: bool) -> bool
    ensures { result ≡ (a || b) }
{
    a || b
}

// Three and four by name: over an array of tests the same is a loop.
pub fn all_three(a: bool, b: bool, c: bool) -> bool
    ensures { result ≡ (a && (b && c)) }
{
    a && (b && c)
}

pub fn all_four(a: bool, b: bool, c: bool, d: bool) -> bool
    ensures { result ≡ (a && (b && (c && d))) }
{
    a && (b && (c && d))
}

pub fn choose(test: bool, a: u32, b: u32) -> u32
    ensures { (result ≡ cond test a b) × (result ≤ max a b) }
{
    if test { a } else { b }
}

// 1 where a test passes, else 0.
pub fn one_if(test: bool) -> u32
    ensures { (result ≡ cond test 1 0) × (1 - result ≡ cond test 0 1) × (result ≤ 1) }
{
    u32::from(test)
}
