// The sheet that a product becomes, written part by part: each writer gives back how many bytes it wrote, and the rest of the output is
// lent to the next.
ghost use Rattle.std.specs.Prelude.{◌≡◌, replicate};
ghost use Rattle.sets.specs.Lists.{over};
ghost use Rattle.sheet.specs.Bounds.{most_states};
ghost use Rattle.products.specs.ProductBytes.{product_of};
ghost use Rattle.products.specs.ProductSheet.{product_sheet};
ghost use Rattle.rows.specs.table.Columns.{LeavingSet, LeavingRows};
ghost use Rattle.rows.specs.table.Parts.{record_part, state_part, component_part, transition_part, RoomFor, Wrote};

use crate::product::{Column, Product};
use sets::Elements;

// Finds for each state of the component the set of the rows whose transition leaves it.
fn find_leaving(column: Column, leaving: &mut [u64])
    requires { leaving.old ≡ replicate most_states 0 }
    ensures { LeavingRows column.entry.rows.bytes.now column.entry.j leaving.new }
{
    for g in Elements::of(column.part.alphabet) {
        let at = column.transition_at(g);
        let q = usize::from(column.rows.bytes[at]);
        leaving[q] = sets::with(leaving[q], g);
    }
}

// B9: writes the transitions of the component that leave the state q, by the set of their rows.
fn write_leaving(column: Column, q: u8, rows: u64, out: &mut [u8]) -> usize
    requires { LeavingSet column.rows.bytes.now column.j q rows × RoomFor (state_part column.rows.bytes.now column.j q) out.old }
    ensures { Wrote (state_part column.entry.rows.bytes.now column.entry.j q) out.old out.new result }
{
    let mut used = 0;
    for g in Elements::of(rows) {
        let at = column.transition_at(g);
        used += writing::write_transition(
            column.j as u8,
            q,
            g as u8,
            column.rows.bytes[at + 1],
            &mut out[used..],
        );
    }
    used
}

// B9: writes the transitions of the component, state by state.
fn write_states(column: Column, leaving: &[u64], out: &mut [u8]) -> usize
    requires { LeavingRows column.rows.bytes.now column.j leaving.now × RoomFor (component_part column.rows.bytes.now column.j) out.old }
    ensures { Wrote (component_part column.entry.rows.bytes.now column.entry.j) out.old out.new result }
{
    let states = column.rows.bytes[column.part.begin];
    let mut used = 0;
    for q in 0..states {
        used += write_leaving(column, q, leaving[usize::from(q)], &mut out[used..]);
    }
    used
}

// B9: writes the transitions of the component.
fn write_component(column: Column, out: &mut [u8]) -> usize
    requires { RoomFor (component_part column.rows.bytes.now column.j) out.old }
    ensures { Wrote (component_part column.entry.rows.bytes.now column.entry.j) out.old out.new result }
{
    let mut leaving = [0u64; 32];
    find_leaving(column, &mut leaving);
    write_states(column, &leaving, out)
}

// B9: writes the transitions of all components, one component behind another.
fn write_transitions(product: &Product, out: &mut [u8]) -> usize
    requires { RoomFor (transition_part product.now.rows.bytes.now) out.old }
    ensures { Wrote (transition_part product.now.rows.bytes.now) out.old out.new result }
{
    let mut used = 0;
    for j in 0..product.parts.len() {
        used += write_component(product.column(j), &mut out[used..]);
    }
    used
}

// B8: writes the records of the components.
fn write_records(product: &Product, out: &mut [u8]) -> usize
    requires { RoomFor (record_part product.now.rows.bytes.now) out.old }
    ensures { Wrote (record_part product.now.rows.bytes.now) out.old out.new result }
{
    let mut used = 0;
    for part in product.parts {
        let states = product.rows.bytes[part.begin];
        let initial = sets::with(0, u32::from(product.rows.bytes[part.begin + 1]));
        used += writing::write_record(states, initial, part.alphabet, &mut out[used..]);
    }
    used
}

// B7 to B9, F4: writes the sheet that a product becomes: records, transitions, and a trailer behind them.
pub fn write_product(product: &Product, out: &mut [u8])
    requires { RoomFor (product_sheet (product_of product.now.rows.bytes.now)) out.old }
    ensures { out.new ≡ over (product_sheet (product_of product.now.rows.bytes.now)) out.old }
{
    let t = write_records(product, out);
    let s = t + write_transitions(product, &mut out[t..]);
    writing::close_sheet(s, product.rows.n as u8, product.rows.m as u8, out);
}
