// Refusals 1 to 4: the length of a sheet, its closing mark, its counts and its offsets. Each test may take those before it as passed. That there is
// a trailer is a clause, and no type: a sheet that is not judged yet comes as the bytes that it is.
ghost use Rattle.std.specs.Prelude.{◌≡◌, not, ◌||◌, ◌-◌, ◌*◌, ◌%◌, ◌<◌, ◌≤◌, ltb, eqb, length};
ghost use Rattle.sheet.specs.Bounds.{trailer_size};
ghost use Rattle.sheet.specs.Refusals.{outside, length_wrong, mark_wrong, counts_wrong, offsets_wrong};

// Whether x is below `low` or above `high`.
pub fn out_of_range(low: u64, high: u64, x: u64) -> bool
    ensures { result ≡ outside low high x }
{
    !(low..=high).contains(&x)
}

// 1: whether the sheet is too short or too long.
pub fn length_wrong(sheet: &[u8]) -> bool
    ensures { result ≡ length_wrong sheet.now }
{
    out_of_range(26, 16650, sheet.len() as u64)
}

// 2: whether the sheet is not closed by the mark.
pub fn mark_wrong(sheet: &[u8]) -> bool
    ensures { result ≡ mark_wrong sheet.now }
{
    !sheet.ends_with(&sheet::MARK)
}

// 3: whether there are too few or too many components or actions.
pub fn counts_wrong(sheet: &[u8]) -> bool
    requires { trailer_size ≤ length sheet.now }
    ensures { result ≡ counts_wrong sheet.now }
{
    let l = sheet.len();
    out_of_range(1, 16, u64::from(sheet[l - 4])) | out_of_range(1, 64, u64::from(sheet[l - 3]))
}

// Whether a section of this length has a part that is not whole, or too many.
fn section_length_wrong(length: u64, size: u64) -> bool
    requires { 0 < size }
    ensures { result ≡ (not (eqb (length % size) 0) || ltb 8192 length) }
{
    (length % size != 0) | (8192 < length)
}

// 4: whether a section does not stand in its place. The steps come first, so that no length falls below 0.
pub fn offsets_wrong(sheet: &[u8]) -> bool
    requires { trailer_size ≤ length sheet.now }
    ensures { result ≡ offsets_wrong sheet.now }
{
    let l = sheet.len();
    let end = (l - 10) as u64;
    let c = numbers::number::<2>(sheet, l - 10);
    let t = numbers::number::<2>(sheet, l - 8);
    let s = numbers::number::<2>(sheet, l - 6);
    if out_of_range(t, end, s) {
        return true;
    }
    (c != 0)
        | (t != 16 * u64::from(sheet[l - 4]))
        | section_length_wrong(s - t, 4)
        | section_length_wrong(end - s, 8)
}
