// Sets of numbers below 64, one bit for each: the tests and the walk over the elements that everything above uses.
#![tactic(auto)]

ghost use Rattle.std.specs.Prelude.{◌≡◌, ◌≢◌, ◌||◌, ◌<◌, ◌≤◌, ◌^◌, eqb, leb, length};
ghost use Rattle.sets.specs.Lists.{below};
ghost use Rattle.sets.specs.Bits.{member, members, with, set_of};
ghost use Rattle.sets.specs.Walk.{Takes};
ghost use Rattle.sets.specs.Elements.{left_in, NextTaken};
ghost use Rattle.std.specs.Iterator.{YieldsFirst, item_count};

// Whether i is an element of the set x.
pub fn has(x: u64, i: u32) -> bool
    requires { i < 64 }
    ensures { result ≡ member x i }
{
    (x >> i) % 2 == 1
}

// The set x with the element i.
pub fn with(x: u64, i: u32) -> u64
    requires { i < 64 }
    ensures { result ≡ with i x }
{
    (1u64 << i) | x
}

// The set of all numbers below k.
pub fn below(k: u32) -> u64
    requires { k ≤ 64 }
    ensures { result ≡ set_of (below k) }
{
    if k == 64 {
        return u64::MAX;
    }
    (1u64 << k) - 1
}

// T1: takes the lowest element out of a set that is not empty, and leaves the others. Whoever goes over a set takes by this, again and
// again.
pub fn take_lowest(left: &mut u64) -> u32
    requires { left.old ≢ 0 }
    ensures { Takes left.old result left.new }
{
    let lowest = u64::trailing_zeros(*left);
    *left = *left & (*left - 1);
    lowest
}

// T2: the elements of a set that are still to come, the lowest first.
#[derive(Clone, Copy)]
pub struct Elements {
    left: u64,
}

impl Elements {
    // The elements of the set x.
    pub fn of(x: u64) -> Elements
        ensures { result.left ≡ x }
    {
        Elements { left: x }
    }
}

impl Iterator for Elements {
    type Item = u32;

    ghost next_gives = { NextTaken };

    ghost remaining = { item_count left_in };

    fn next(&mut self) -> Option<u32> {
        if self.left == 0 {
            return None;
        }
        Some(take_lowest(&mut self.left))
    }
}

// How many elements the set has.
pub fn count(x: u64) -> u32
    ensures { (result ≡ length (members x)) × (result ≤ 64) }
{
    u64::count_ones(x)
}

// Whether the set x is empty or has an element at or above k.
pub fn misses(x: u64, k: u64) -> bool
    requires { k ≤ 64 }
    ensures { result ≡ (eqb x 0 || leb (2 ^ k) x) }
{
    if x == 0 {
        return true;
    }
    if k == 64 {
        return false;
    }
    (x >> k) != 0
}
