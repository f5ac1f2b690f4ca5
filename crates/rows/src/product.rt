// A product as it is read: first its components, then its rows, and both together once nothing is refused.
ghost use Rattle.std.specs.Prelude.{◌≡◌, true, ◌<◌, length};
ghost use Rattle.sets.specs.Bits.{member};
ghost use Rattle.products.specs.ProductBytes.{entry, product_of};
ghost use Rattle.products.specs.ProductSheet.{alphabet};
ghost use Rattle.rows.specs.entries.Rows.{RowsStand};
ghost use Rattle.rows.specs.Reading.{ReadProduct, ColumnOf};
ghost use Rattle.rows.specs.table.Columns.{TransitionAt};

// A component: where its bytes begin, and its alphabet, the rows in which it takes part.
#[derive(Clone, Copy)]
pub struct Part {
    pub begin: usize,
    pub alphabet: u64,
}

// The rows of a product whose counts and length passed 15: its last bytes, n for each of m rows.
// Who asks for j < n beside them takes j from a loop over the components: a type for the two would say no more than that comparison.
#[derive(Clone, Copy)]
pub struct Rows<'a> {
    pub bytes: &'a [u8],
    pub n: usize,
    pub m: usize,
    pub ghost stand: { RowsStand bytes.now n m },
}

// A product that is not refused: its rows, and its components.
#[derive(Clone, Copy)]
pub struct Product<'a> {
    pub rows: Rows<'a>,
    pub parts: &'a [Part],
    pub ghost read: { ReadProduct rows.bytes.now parts.now },
}

// A component of such a product, and its number.
#[derive(Clone, Copy)]
pub struct Column<'a> {
    pub rows: Rows<'a>,
    pub part: Part,
    pub j: usize,
    pub ghost told: { ColumnOf rows.bytes.now j part },
}

impl Rows<'_> {
    // The number of row g for component j. The rows are the last bytes.
    pub fn number(self, g: usize, j: usize) -> u8
        requires { (g < self.m) × (j < self.n) }
        ensures { result ≡ entry self.entry.bytes.now g j }
    {
        self.bytes[self.bytes.len() - self.n * self.m + self.n * g + j]
    }
}

impl Column<'_> {
    // Where the transition stands that a row names in which the component takes part.
    pub fn transition_at(self, g: u32) -> usize
        requires { member (alphabet (product_of self.rows.bytes.now) self.j) g ≡ true }
        ensures { TransitionAt self.entry.rows.bytes.now self.entry.j g result }
    {
        let number = self.rows.number(g as usize, self.j);
        self.part.begin + 3 + 2 * usize::from(number)
    }
}

impl<'a> Product<'a> {
    // The product with these rows and components.
    pub fn of(rows: Rows<'a>, parts: &'a [Part]) -> Product<'a>
        requires { ReadProduct rows.bytes.now parts.now }
        ensures { (result.rows.bytes.now ≡ rows.entry.bytes.now) × ReadProduct rows.entry.bytes.now result.parts.now }
    {
        Product { rows, parts }
    }

    // Its component j.
    pub fn column(&self, j: usize) -> Column<'a>
        requires { j < length self.now.parts.now }
        ensures { (result.rows.bytes.now ≡ self.now.rows.bytes.now) × (result.j ≡ j) × ColumnOf self.now.rows.bytes.now j result.part }
    {
        Column {
            rows: self.rows,
            part: self.parts[j],
            j,
        }
    }
}
