// The yearly heat split (02, CR 5): from the table at the start of the year and the one at its end, what each heat meter
// used and its share of the house, as lines of text.
//
// The two tables are their texts, end to end, and are read where they lie, an entry at a time: no table is copied. What each
// meter used comes first (uses), then the shares (shares), then the lines (text, numerals). Nothing public has a `requires`:
// what is not two tables is refused.
#![tactic(auto)]

ghost use Rattle.std.specs.Prelude.{◌≡◌, [], ◌≤◌, length, replicate};
ghost use Rattle.octets.specs.Lists.{at, put_over};
ghost use Rattle.heat.specs.Text.{text_max};
ghost use Rattle.heat.specs.Answer.{number_of, values_of, said_by, split_of, heat_split, shown_by, printed};
ghost use Rattle.heat.specs.Plain.{plain_by, plain_table};

use numerals::Line;
use shares::Shares;
use table::{TABLE_LEN, Table};
use uses::Year;

mod numerals;
mod shares;
mod text;
mod uses;

pub use text::TEXT_MAX;

// The longest line.
const LINE_MAX: usize = 24;
// The bytes of the two tables.
pub const TABLES_LEN: usize = TABLE_LEN + TABLE_LEN;

// Why there is no split.
#[derive(Clone, Copy, Debug, PartialEq, Eq)]
pub enum SplitError {
    // The output needs so many bytes.
    Short(usize),
    // The input is not two tables.
    NoTables,
    // A meter in both is heat in one and another code in the other.
    CodeChanged,
    // The total is zero.
    NothingUsed,
}

// The number and the value on the display (02, CR 5, and for the length 01, Numbers on the display when a call is turned down).
impl SplitError {
    // The number.
    #[tactic(auto, unfolding(crate::specs::Answer::number_of))]
    pub fn number(self) -> u8
        ensures { result ≡ number_of self }
    {
        match self {
            SplitError::Short(_) => 3,
            SplitError::NoTables => 4,
            SplitError::CodeChanged => 18,
            SplitError::NothingUsed => 19,
        }
    }

    // The value returned with it, or 0 where there is none.
    #[tactic(auto, unfolding(crate::specs::Answer::values_of))]
    pub fn value(self) -> u64
        ensures { result ≡ at (values_of self) 0 }
    {
        match self {
            SplitError::Short(needed) => needed as u64,
            _ => 0,
        }
    }
}

// The output has no room for the table's text.
#[derive(Clone, Copy, Debug, PartialEq, Eq)]
pub struct NoRoom;

// The split of a year's two tables.
fn split_of(year: &Year, out: &mut [u8]) -> Result<usize, SplitError>
    ensures answer { said_by result ≡ (split_of year.now.0 year.now.1 (length out.old)).said }
    ensures bytes { out.new ≡ put_over (split_of year.now.0 year.now.1 (length out.old)).put out.old }
{
    let uses = year.uses()?;
    let Some(shares) = Shares::of(&uses) else {
        return Err(SplitError::NothingUsed);
    };
    // The library has no heap, hence the array.
    let mut text = [0; TEXT_MAX];
    let n = text::put_split(&uses, &shares, &mut text);
    if out.len() < n {
        return Err(SplitError::Short(n));
    }
    octets::copy(&text[..n], out);
    Ok(n)
}

// Puts the lines of the split of two tables, the start's first, at the start of out, and answers how long they are. It
// refuses bytes that are not two tables, a meter in both that is heat in one and another code in the other, a total of zero,
// and an output with no room for the text; out is then as it came.
pub fn heat_split(tables: &[u8], out: &mut [u8]) -> Result<usize, SplitError>
    ensures answer { said_by result ≡ (heat_split tables.now (length out.old)).said }
    ensures bytes { out.new ≡ put_over (heat_split tables.now (length out.old)).put out.old }
{
    let Some(year) = Year::of(tables) else {
        return Err(SplitError::NoTables);
    };
    split_of(&year, out)
}

// What the program prints: the first `len` of `bytes`; behind them are zeros. The library has no heap, hence the array.
#[derive(Clone, Copy)]
pub struct Printed {
    pub bytes: [u8; TEXT_MAX],
    pub len: usize,
}

// A line that is printed.
fn printed_line(s: &[u8]) -> Printed
    requires { length s.now ≤ text_max }
    ensures bytes { result.bytes ≡ put_over s.now (replicate text_max 0) }
    ensures len { result.len ≡ length s.now }
{
    let mut bytes = [0u8; TEXT_MAX];
    octets::copy(s, &mut bytes);
    Printed {
        bytes,
        len: s.len(),
    }
}

impl SplitError {
    // The line that says with which number it is refused.
    fn line(self) -> Line
        ensures { result ≡ shown_by (said_by (Err self)) [] }
    {
        let mut l = Line::new();
        l.byte_before(text::NEWLINE);
        l.digits_before(u64::from(self.number()));
        l.bytes_before(b"refused ");
        l
    }
}

// What the program prints of its input: the lines, or one that says with which number it is refused.
pub fn print(input: &[u8]) -> Printed
    ensures bytes { result.bytes ≡ put_over (printed input.now) (replicate text_max 0) }
    ensures len { result.len ≡ length (printed input.now) }
{
    let mut bytes = [0u8; TEXT_MAX];
    match heat_split(input, &mut bytes) {
        Ok(len) => Printed { bytes, len },
        Err(e) => printed_line(e.line().as_slice()),
    }
}

// Puts the text of a table at the start of out. It refuses an output with no room for it; out is then as it came.
pub fn plain_table(t: Table, out: &mut [u8]) -> Result<(), NoRoom>
    ensures answer { plain_by result ≡ (plain_table t (length out.old)).said }
    ensures bytes { out.new ≡ put_over (plain_table t (length out.old)).put out.old }
{
    if out.len() < TABLE_LEN {
        return Err(NoRoom);
    }
    table::put_text(t, out);
    Ok(())
}
