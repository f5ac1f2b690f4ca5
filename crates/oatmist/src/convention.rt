// How a call for C tells its answer: 0 and the values in front of a lent array, or the refusal as one number and the array as it came.
ghost use Rattle.std.specs.Prelude.{◌≡◌, ◌<◌, ◌^◌, set};
ghost use Rattle.answers.specs.declared.Answer.TheVariants.{Accepted};
ghost use Rattle.answers.specs.Outcomes.{outcome_of, number_of};
ghost use Rattle.oatmist.specs.Convention.{with_values, refusal_word, PartsFit, CAnswer};

use answers::{Answer, Refusal, Sizes};

// Copies as many of the values as there is room for.
pub fn fill(values: &[u64], out: &mut [u64])
    ensures { out.new ≡ with_values values.now out.old }
{
    let count = values.len().min(out.len());
    out[..count].copy_from_slice(&values[..count]);
}

// A refusal as one number: its number, its sheet from bit 8 on, its step index from bit 16 on.
fn refusal_word(refusal: Refusal, index: u64, sheet: u64) -> u64
    requires { (sheet < 256) × (index < 2 ^ 40) }
    ensures { result ≡ refusal_word (number_of refusal) index sheet }
{
    refusal.number() + 256 * sheet + 65536 * index
}

// Writes a value where there is room for it. By its index: of `get_mut` nothing is known where it gives no place, not even that the array
// stays as it was.
fn put(out: &mut [u64], k: usize, value: u64)
    ensures { out.new ≡ set out.old k value }
{
    if k < out.len() {
        out[k] = value;
    }
}

// Hands back the sizes of an accepted sheet, one by one: copied as a whole, they would be read before all of them are written.
fn hand_sizes(sizes: Sizes, out: &mut [u64]) -> u64
    ensures { CAnswer (outcome_of (Accepted sizes)) result out.old out.new }
{
    put(out, 0, sizes.n as u64);
    put(out, 1, sizes.m as u64);
    put(out, 2, sizes.t as u64);
    put(out, 3, sizes.s as u64);
    0
}

// Hands an answer back.
pub fn hand(told: Answer, out: &mut [u64]) -> u64
    requires { PartsFit (outcome_of told) }
    ensures { CAnswer (outcome_of told) result out.old out.new }
{
    match told {
        Answer::Accepted(sizes) => hand_sizes(sizes, out),
        Answer::Given(x) => {
            put(out, 0, x);
            0
        }
        Answer::Refused {
            refusal,
            index,
            sheet,
        } => refusal_word(refusal, index as u64, sheet),
    }
}
