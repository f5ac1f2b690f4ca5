// 18: whether some bytes are columns for the components of a sheet, and the labels of each column.
ghost use Rattle.std.specs.Prelude.{◌≡◌, true, ◌↔◌, ◌≤◌, length};
ghost use Rattle.sets.specs.Bits.{member};
ghost use Rattle.sheet.specs.Bounds.{most_components};
ghost use Rattle.merging.specs.legible.Reading.{labels_of, LabelsOwn, ColumnFound, ColumnsRead};

use answers::{Answer, Refusal, Sizes};
use sheet::Component;

// Whether the alphabet has the action with this label.
fn in_alphabet(alphabet: u64, label: u8) -> bool
    ensures { result ≡ member alphabet label }
{
    if label < 64 {
        return sets::has(alphabet, u32::from(label));
    }
    false
}

// Whether the alphabet has all of the labels.
fn labels_own(labels: &[u8], alphabet: u64) -> bool
    ensures { (result ≡ true) ↔ LabelsOwn alphabet labels.now }
{
    labels.iter().all(|label| in_alphabet(alphabet, *label))
}

// The labels of the column that the bytes begin with, all of the alphabet, and the bytes behind it: a column has its count, and as many labels.
fn first_column<'a>(bytes: &'a [u8], alphabet: u64) -> Option<(&'a [u8], &'a [u8])>
    ensures { ColumnFound bytes.now alphabet result }
{
    let (front, behind) = bytes.split_at_checked(2)?;
    let count = numbers::number::<2>(front, 0) as usize;
    let (labels, others) = behind.split_at_checked(count)?;
    if !labels_own(labels, alphabet) {
        return None;
    }
    Some((labels, others))
}

// 18, or the sizes of the sheet that the bytes are columns for: one for each of its components, by their alphabets, with few enough labels
// together. Then `left` has the labels of each column.
pub fn read_columns<'a>(
    columns: &'a [u8],
    sizes: Sizes,
    components: &[Component],
    left: &mut [&'a [u8]],
) -> Answer
    requires { (length components.now ≤ most_components) × (length left.old ≡ length components.now) }
    ensures { ColumnsRead columns.now sizes components.now (labels_of left.new) result }
{
    let mut behind = columns;
    for (j, component) in components.iter().enumerate() {
        let Some((labels, others)) = first_column(behind, component.alphabet) else {
            return answers::refuse(Refusal::NotColumns);
        };
        left[j] = labels;
        behind = others;
    }
    // Each column has two bytes for its count, and a byte for each label.
    if !behind.is_empty() || 2 * components.len() + 1024 < columns.len() {
        return answers::refuse(Refusal::NotColumns);
    }
    Answer::Accepted(sizes)
}
