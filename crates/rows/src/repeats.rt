// 16: whether a row repeats an earlier one. Each row keeps the set of those rows before it that have the same numbers so far: one component
// after another is compared, and each number is looked at once.
ghost use Rattle.std.specs.Prelude.{◌≡◌, List, ℕ, ◌+◌, ◌<◌, ◌≤◌, length};
ghost use Rattle.sheet.specs.Bounds.{most_actions};
ghost use Rattle.products.specs.ProductBytes.{product_of};
ghost use Rattle.rows.specs.repeats.Earlier.{EarlierAgree, some_left, repeats_below};

use crate::product::Rows;

// Puts all rows before it into the set of each row.
fn start(same: &mut [u64])
    requires { length same.old ≤ most_actions }
    ensures { (b : List ℕ) → EarlierAgree b 0 same.new }
{
    for (g, earlier) in same.iter_mut().enumerate() {
        *earlier = sets::below(g as u32);
    }
}

// Keeps in each set the rows that have the same number for component j too. The rows passed stand in a table by their numbers.
fn compare(rows: Rows, j: usize, same: &mut [u64])
    requires { (j < rows.n) × (length same.old ≡ rows.m) × EarlierAgree rows.bytes.now j same.old }
    ensures { EarlierAgree rows.entry.bytes.now (j + 1) same.new }
{
    let mut seen = [0u64; 256];
    for (g, earlier) in same.iter_mut().enumerate() {
        let number = usize::from(rows.number(g, j));
        *earlier = *earlier & seen[number];
        seen[number] = sets::with(seen[number], g as u32);
    }
}

// Whether one of the sets is not empty.
fn some_left(same: &[u64]) -> bool
    ensures { result ≡ some_left same.now }
{
    same.iter().any(|earlier| *earlier != 0)
}

// Whether some earlier row is left in a set once all components are compared. Once none is left, none will be.
fn compare_all(rows: Rows, same: &mut [u64]) -> bool
    requires { length same.old ≡ rows.m }
    ensures { result ≡ repeats_below (product_of rows.entry.bytes.now) rows.entry.m }
{
    start(same);
    for j in 0..rows.n {
        if !some_left(same) {
            return false;
        }
        compare(rows, j, same);
    }
    some_left(same)
}

// 16: whether a row repeats an earlier one.
pub fn row_repeated(rows: Rows) -> bool
    ensures { result ≡ repeats_below (product_of rows.entry.bytes.now) rows.entry.m }
{
    let mut same = [0u64; 64];
    compare_all(rows, &mut same[..rows.m])
}
