// Refusals 5 and 6: the component records of a sheet, handed over as a part of it, and one of them decoded. That there are at most 64 actions is a
// clause, and no type: their number comes alone, out of the sizes.
ghost use Rattle.std.specs.Prelude.{◌≡◌, ◌+◌, ◌*◌, ◌/◌, ◌≤◌, length};
ghost use Rattle.sets.specs.Lists.{any_of, below};
ghost use Rattle.sheet.specs.Bounds.{record_size, most_actions};
ghost use Rattle.sheet.specs.Numbers.{field};
ghost use Rattle.sheet.specs.Refusals.{record_wrong};
ghost use Rattle.reading.specs.records.Alphabets.{UnionOfAlphabets, unused_in};
ghost use Rattle.reading.specs.records.Decoding.{RecordDecoded};

use crate::trailer;
use sheet::Component;

// 5, of the record with index j.
fn record_wrong(records: &[u8], m: u64, j: usize) -> bool
    requires { (m ≤ most_actions) × (record_size * j + record_size ≤ length records.now) }
    ensures { result ≡ record_wrong records.now m j }
{
    let at = 16 * j;
    let states = u64::from(records[at]);
    if trailer::out_of_range(1, 32, states) {
        return true;
    }
    (numbers::number::<3>(records, at + 1) != 0)
        | sets::misses(numbers::number::<4>(records, at + 4), states)
        | sets::misses(numbers::number::<8>(records, at + 8), m)
}

// 5: whether some record is wrong.
pub fn records_wrong(records: &[u8], m: u64) -> bool
    requires { m ≤ most_actions }
    ensures { result ≡ any_of (record_wrong records.now m) (below (length records.now / record_size)) }
{
    (0..records.len() / 16).any(|j| record_wrong(records, m, j))
}

// The record with index j, decoded; the states of its component begin at `base`.
pub fn decoded(records: &[u8], j: usize, base: usize) -> Component
    requires { record_size * j + record_size ≤ length records.now }
    ensures { RecordDecoded records.now j base result }
{
    let at = 16 * j;
    Component {
        states: usize::from(records[at]),
        initial: numbers::number::<4>(records, at + 4),
        alphabet: numbers::number::<8>(records, at + 8),
        base,
    }
}

// The actions of the alphabets of all components together.
fn actions_used(components: &[Component]) -> u64
    ensures { UnionOfAlphabets components.now result }
{
    let mut all = 0;
    for component in components {
        all |= component.alphabet;
    }
    all
}

// 6: whether the alphabets of the components leave out one of the m actions.
pub fn action_unused(components: &[Component], m: u32) -> bool
    requires { m ≤ most_actions }
    ensures { result ≡ unused_in components.now m }
{
    let all = sets::below(m);
    (actions_used(components) & all) != all
}
