// 15, of the components of a product: each in its bytes, one behind another.
ghost use Rattle.std.specs.Prelude.{◌≡◌, true, ◌↔◌, ◌+◌, ◌*◌, ◌≤◌, length, get_or, MatchOption};
ghost use Rattle.rows.specs.components.Reading.{AllBelow, Stands, ComponentsRead};

use crate::product::Part;

// Whether every byte is below the limit. All are looked at, many at once: that is faster than a walk that ends at the first one that is not.
fn all_below(bytes: &[u8], limit: u8) -> bool
    ensures { (result ≡ true) ↔ AllBelow limit bytes.now }
{
    let mut fits = true;
    for byte in bytes {
        fits = fits & (*byte < limit);
    }
    fits
}

// Where the component that begins at `at` ends. None where no component stands there: the bytes end before it does, or a count or state is
// out of range.
fn component_end(product: &[u8], at: usize) -> Option<usize>
    requires { at ≤ length product.now }
    ensures { MatchOption result (¬ Stands product.now at)
        (λ end. Stands product.now at × (end ≡ at + (3 + 2 * get_or product.now (at + 2) 0))) }
{
    let [states, initial, count, transitions @ ..] = &product[at..] else {
        return None;
    };
    let size = 2 * usize::from(*count);
    if transitions.len() < size {
        return None;
    }
    if (*states == 0) | (32 < *states) | (*states <= *initial) {
        return None;
    }
    if !all_below(&transitions[..size], *states) {
        return None;
    }
    Some(at + 3 + size)
}

// Reads a component into each part, and gives where the last one ends; none where one does not stand there.
pub fn read_components(product: &[u8], parts: &mut [Part]) -> Option<usize>
    requires { (length parts.old ≤ 16) × (2 ≤ length product.now) }
    ensures { ComponentsRead product.now parts.new result }
{
    let mut at = 2;
    for part in parts {
        part.begin = at;
        at = component_end(product, at)?;
    }
    Some(at)
}
