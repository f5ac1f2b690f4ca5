// The numbers of a sheet, read from its bytes.
#![tactic(auto)]

mod transitions;

ghost use Rattle.std.specs.Prelude.{◌≡◌, ◌+◌, ◌*◌, ◌^◌, ◌<◌, ◌≤◌, length};
ghost use Rattle.std.specs.Iterator.{YieldsFirst, item_count};
ghost use Rattle.sheet.specs.Numbers.{field};
ghost use Rattle.numbers.specs.Steps.{steps_left};

pub use transitions::{INTERNAL, Transition, Transitions};

// The number in the N bytes at `at`, the low byte in front.
pub fn number<const N: usize>(s: &[u8], at: usize) -> u64
    requires { (N ≤ 8) × (at + N ≤ length s.now) }
    ensures { (result ≡ field at N s.now) × (result < 256 ^ N) }
{
    let mut bytes = [0; 8];
    bytes[..N].copy_from_slice(&s[at..at + N]);
    u64::from_le_bytes(bytes)
}

// The step with index k of a step section.
pub fn step_at(section: &[u8], k: usize) -> u64
    requires { 8 * k + 8 ≤ length section.now }
    ensures { result ≡ field (8 * k) 8 section.now }
{
    number::<8>(section, 8 * k)
}

// The steps of a step section that are still to come, the first in front.
#[derive(Clone, Copy)]
pub struct Steps<'a> {
    section: &'a [u8],
}

impl<'a> Steps<'a> {
    // The steps of a step section.
    pub fn of(section: &'a [u8]) -> Steps<'a>
        ensures { result.section.now ≡ section.now }
    {
        Steps { section }
    }
}

impl Iterator for Steps<'_> {
    type Item = u64;

    ghost next_gives = { YieldsFirst steps_left };

    ghost remaining = { item_count steps_left };

    fn next(&mut self) -> Option<u64> {
        if self.section.len() < 8 {
            return None;
        }
        let step = step_at(self.section, 0);
        self.section = &self.section[8..];
        Some(step)
    }
}
