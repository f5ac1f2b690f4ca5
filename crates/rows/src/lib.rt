// Products given by rows, turned into sheets without steps (document 02, request 1).
#![tactic(auto)]

mod components;
mod entries;
mod judge;
mod product;
mod repeats;
mod table;

ghost use Rattle.rows.specs.Calls.{RowsAnswer};

use answers::{Answer, Refusal};
use product::{Part, Product, Rows};

// B6, O8: writes the sheet that a product becomes into the output, and gives how many bytes it has. The refusals are 15, 16 and 17 of the
// product, and last 13, where the sheet does not fit. A refused call leaves the output as it came, and bytes behind the sheet stay.
pub fn rows(product: &[u8], out: &mut [u8]) -> Answer
    ensures { RowsAnswer product.now out.old result out.new }
{
    let mut parts = [Part {
        begin: 0,
        alphabet: 0,
    }; 16];
    let read = judge::read_product(product, &mut parts);
    let Answer::Accepted(sizes) = read else {
        return read;
    };
    let size = sizes.s + 10;
    if out.len() < size {
        return answers::refuse(Refusal::NoRoom);
    }
    let rows = Rows {
        bytes: product,
        n: sizes.n,
        m: sizes.m,
    };
    let product = Product::of(rows, &parts[..sizes.n]);
    table::write_product(&product, out);
    Answer::Given(size as u64)
}
