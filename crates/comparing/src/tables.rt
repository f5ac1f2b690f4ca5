// The tables of two sheets compared: refusal 14.
ghost use Rattle.std.specs.Prelude.{◌≡◌};
ghost use Rattle.answers.specs.TwoSheets.{tables_differ};

use desk::accepted::Accepted;

// R14: whether two accepted sheets have other bytes before S, or another S, n or m.
pub fn differ(one: &Accepted, two: &Accepted) -> bool
    ensures { result ≡ tables_differ one.now.sheet.now two.now.sheet.now }
{
    if one.sizes.n != two.sizes.n {
        return true;
    }
    if one.sizes.m != two.sizes.m {
        return true;
    }
    if one.sizes.s != two.sizes.s {
        return true;
    }
    one.front() != two.front()
}
