// 15, of the rows of a product, and the alphabets that they give the components. Counts, components and length have passed.
ghost use Rattle.std.specs.Prelude.{◌≡◌, not, cond, ◌&&◌, ◌<◌, leb, eqb, length};
ghost use Rattle.sets.specs.Lists.{any_of, below};
ghost use Rattle.sets.specs.Bits.{with};
ghost use Rattle.sheet.specs.Bounds.{most_actions};
ghost use Rattle.products.specs.ProductBytes.{idle, product_of};
ghost use Rattle.products.specs.ProductSheet.{alphabet};
ghost use Rattle.products.specs.ProductVerdict.{column_wrong};
ghost use Rattle.rows.specs.Reading.{BeginsLeft, AlphabetsLeft};

use crate::product::{Part, Rows};

// Whether a component with `count` transitions has none with this number; 255 is idle.
fn number_out(number: u8, count: u8) -> bool
    ensures { result ≡ (not (eqb number idle) && leb count number) }
{
    (number != 255) & (count <= number)
}

// 15, of the column of component j, which has `count` transitions.
fn column_out(rows: Rows, j: usize, count: u8) -> bool
    requires { (j < rows.n) × (count ≡ ((product_of rows.bytes.now).component j).transitions) }
    ensures { result ≡ column_wrong (product_of rows.entry.bytes.now) j }
{
    for g in 0..rows.m {
        if number_out(rows.number(g, j), count) {
            return true;
        }
    }
    false
}

// 15, of all columns: whether some row has a number that its component has no transition for.
pub fn numbers_out(rows: Rows, parts: &[Part]) -> bool
    requires { BeginsLeft rows.bytes.now parts.now }
    ensures { result ≡ any_of (column_wrong (product_of rows.entry.bytes.now)) (below rows.entry.n) }
{
    for (j, part) in parts.iter().enumerate() {
        if column_out(rows, j, rows.bytes[part.begin + 2]) {
            return true;
        }
    }
    false
}

// The set with row g, unless its number is idle.
fn with_row(set: u64, g: u32, number: u8) -> u64
    requires { g < most_actions }
    ensures { result ≡ cond (eqb number idle) set (with g set) }
{
    if number == 255 {
        return set;
    }
    sets::with(set, g)
}

// The alphabet of component j: the rows in which it is not idle.
fn alphabet_of(rows: Rows, j: usize) -> u64
    requires { j < rows.n }
    ensures { result ≡ alphabet (product_of rows.entry.bytes.now) j }
{
    let mut set = 0;
    for g in 0..rows.m {
        set = with_row(set, g as u32, rows.number(g, j));
    }
    set
}

// Puts its alphabet into each part.
pub fn fill_alphabets(rows: Rows, parts: &mut [Part])
    requires { BeginsLeft rows.bytes.now parts.old }
    ensures { BeginsLeft rows.entry.bytes.now parts.new × AlphabetsLeft rows.entry.bytes.now parts.new }
{
    for (j, part) in parts.iter_mut().enumerate() {
        part.alphabet = alphabet_of(rows, j);
    }
}
