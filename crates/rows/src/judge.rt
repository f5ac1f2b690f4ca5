// 15, 16 and 17 of a product, in this order; or the sizes of the sheet that it becomes.
ghost use Rattle.std.specs.Prelude.{◌≡◌, true, false, ◌*◌, ◌≤◌, length, take, MatchOption};
ghost use Rattle.sheet.specs.Bounds.{most_components, most_actions};
ghost use Rattle.products.specs.ProductBytes.{components_in, rows_in};
ghost use Rattle.products.specs.ProductVerdict.{malformed};
ghost use Rattle.rows.specs.Reading.{BeginsLeft};
ghost use Rattle.rows.specs.judge.Judging.{CountsFit, UnionOf, row_unused, some_empty, elements_of, sizes_by, Judged};

use crate::product::{Part, Rows};
use crate::{components, entries, repeats};
use answers::{Answer, Refusal, Sizes};

// The counts of components and rows, unless one is missing or out of range.
fn counts(product: &[u8]) -> Option<(usize, usize)>
    ensures { MatchOption result (¬ CountsFit product.now)
        (λ r. CountsFit product.now × (r.0 ≡ components_in product.now) × (r.1 ≡ rows_in product.now)) }
{
    let [n, m, ..] = product else {
        return None;
    };
    let n = usize::from(*n);
    let m = usize::from(*m);
    if (n == 0) | (16 < n) | (m == 0) | (64 < m) {
        return None;
    }
    Some((n, m))
}

// 15, once the counts fit: the rows of a product that is not malformed. Then each part has where its component begins.
fn read_rows<'a>(product: &'a [u8], m: usize, parts: &mut [Part]) -> Option<Rows<'a>>
    requires { CountsFit product.now × (length parts.old ≡ components_in product.now) × (m ≡ rows_in product.now) }
    ensures { MatchOption result (malformed product.now ≡ true)
        (λ rows. (malformed product.now ≡ false) × (rows.bytes.now ≡ product.now) × BeginsLeft product.now parts.new) }
{
    let n = parts.len();
    let end = components::read_components(product, parts)?;
    if product.len() - end != n * m {
        return None;
    }
    let rows = Rows {
        bytes: product,
        n,
        m,
    };
    if entries::numbers_out(rows, parts) {
        return None;
    }
    Some(rows)
}

// The rows of all alphabets together.
fn rows_used(parts: &[Part]) -> u64
    ensures { UnionOf parts.now result }
{
    let mut all = 0;
    for part in parts {
        all = all | part.alphabet;
    }
    all
}

// 16: whether one of m rows is idle throughout, in none of the alphabets.
fn row_unused(parts: &[Part], m: usize) -> bool
    requires { m ≤ most_actions }
    ensures { result ≡ row_unused parts.now m }
{
    let rows = sets::below(m as u32);
    (rows_used(parts) & rows) != rows
}

// 17: whether one of the alphabets is empty.
fn some_empty(parts: &[Part]) -> bool
    ensures { result ≡ some_empty parts.now }
{
    parts.iter().any(|part| part.alphabet == 0)
}

// How many elements the alphabets have together.
fn elements_of(parts: &[Part]) -> usize
    requires { length parts.now ≤ most_components }
    ensures { (result ≡ length (elements_of parts.now)) × (result ≤ most_actions * length parts.now) }
{
    let mut sum = 0;
    for part in parts {
        sum += sets::count(part.alphabet) as usize;
    }
    sum
}

// The sizes of the sheet with these components and m actions, by the alphabets.
fn sizes_by(parts: &[Part], m: usize) -> Sizes
    requires { length parts.now ≤ most_components }
    ensures { result ≡ sizes_by parts.now m }
{
    let n = parts.len();
    Sizes {
        n,
        m,
        t: writing::front_length(n, 0),
        s: writing::front_length(n, elements_of(parts)),
    }
}

// 16 and 17 of a product that is not malformed, or the sizes. The alphabet of each component is left in its part.
fn judge_rows(rows: Rows, parts: &mut [Part]) -> Answer
    requires { (malformed rows.bytes.now ≡ false) × BeginsLeft rows.bytes.now parts.old }
    ensures { Judged rows.entry.bytes.now parts.new result }
{
    entries::fill_alphabets(rows, parts);
    if row_unused(parts, rows.m) | repeats::row_repeated(rows) {
        return answers::refuse(Refusal::BadRow);
    }
    if some_empty(parts) {
        return answers::refuse(Refusal::IdleComponent);
    }
    Answer::Accepted(sizes_by(parts, rows.m))
}

// 15, 16 and 17 in this order, or the sizes of the sheet that the product becomes. Of a product that is not refused, the first parts are its
// components.
pub fn read_product(product: &[u8], parts: &mut [Part]) -> Answer
    requires { length parts.old ≡ most_components }
    ensures { Judged product.now (take (components_in product.now) parts.new) result }
{
    let Some((n, m)) = counts(product) else {
        return answers::refuse(Refusal::NotProduct);
    };
    let parts = &mut parts[..n];
    let Some(rows) = read_rows(product, m, parts) else {
        return answers::refuse(Refusal::NotProduct);
    };
    judge_rows(rows, parts)
}
