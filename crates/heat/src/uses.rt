// What each meter used, by the table at the start of the year and the one at its end.
ghost use Rattle.std.specs.Prelude.{◌≡◌, true, false, ◌-ℤ◌, IfOk, MatchResult};
ghost use Rattle.table.specs.declared.Table.{Table};
ghost use Rattle.table.specs.TableText.{is_table, table_from};
ghost use Rattle.heat.specs.Uses.{use_by, difference, AreUses, AreSmall, SmallUse};
ghost use Rattle.heat.specs.Answer.{year_of, any_changed};

use super::{SplitError, TABLES_LEN};
use std::marker::Model;
use table::{Entry, TABLE_LEN};
use transaction::METERS;

// The code of a heat meter.
const HEAT: u8 = 3;

// Whether the bytes are a table's text.
fn is_table(s: &[u8]) -> bool
    ensures { result ≡ is_table s.now }
{
    table::table_in(s).is_some()
}

// The difference of two readings: they are widened first, since it may need 33 bits.
fn difference(start: i32, end: i32) -> i64
    ensures { result ≡ end -ℤ start }
{
    i64::from(end) - i64::from(start)
}

// What a meter used by its two entries, the start's first: none where it has no line.
fn use_by(a: Entry, b: Entry) -> Result<Option<i64>, SplitError>
    ensures value { result ≡ use_by a b }
    ensures small { IfOk result SmallUse }
{
    if !(a.present & b.present) {
        return Ok(None);
    }
    match (a.code == HEAT, b.code == HEAT) {
        (true, true) => Ok(Some(difference(a.reading, b.reading))),
        (false, false) => Ok(None),
        _ => Err(SplitError::CodeChanged),
    }
}

// What each meter used: none of one without a line. A use is the difference of two readings of 32 bits.
#[derive(Clone, Copy)]
pub(crate) struct Uses {
    pub(crate) each: [Option<i64>; METERS],
    ghost small: { AreSmall each },
}

// The texts of two tables, the start's and the end's. Contracts see the tables.
#[derive(Drop)]
pub(crate) struct Year<'a> {
    start: &'a [u8],
    end: &'a [u8],
}

impl<'a> Model for Year<'a> {
    ghost Value = { Table × Table };

    ghost view = { λ y. (table_from y.start.now, table_from y.end.now) };

    ghost invariant = { λ y. (is_table y.start.now ≡ true) × (is_table y.end.now ≡ true) };
}

impl<'a> Year<'a> {
    // The year of two tables' texts, end to end: none of bytes that are not two tables.
    pub(crate) fn of(tables: &'a [u8]) -> Option<Year<'a>>
        ensures { result ≡ year_of tables.now }
    {
        if tables.len() != TABLES_LEN {
            return None;
        }
        let (start, end) = tables.split_at(TABLE_LEN);
        if !is_table(start) {
            return None;
        }
        if !is_table(end) {
            return None;
        }
        Some(Year { start, end })
    }

    // What each meter used; or that a meter in both is heat in one and another code in the other.
    pub(crate) fn uses(&self) -> Result<Uses, SplitError>
        ensures { MatchResult result (λ u. (any_changed self.now.0 self.now.1 ≡ false) × AreUses self.now.0 self.now.1 u.each) (λ e. (any_changed self.now.0 self.now.1 ≡ true) × (e ≡ SplitError.CodeChanged)) }
    {
        let mut each = [None; METERS];
        for m in 0..METERS {
            each[m] = use_by(table::entry_at(self.start, m), table::entry_at(self.end, m))?;
        }
        Ok(Uses { each })
    }
}
