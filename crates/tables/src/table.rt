// Rows that are known to be a table.
ghost use Rattle.std.specs.Prelude.{◌≡◌};
ghost use Rattle.tables.specs.Checks.{table_checked, rows_of};
ghost use Rattle.tables.specs.Tables.{Accepts, OneTree};

use crate::check::is_table;
use crate::row::Row;
use faults::{BankCause, Fault, Layer, TableCause};

const MOST_POINTS: usize = 64;

// They stay the caller's own.
#[derive(Clone, Copy)]
pub struct Table<'a> {
    rows: &'a [Row],
}

impl<'a> Table<'a> {
    pub fn check(rows: &'a [Row], points: usize) -> Result<Table<'a>, Fault>
        ensures value { rows_of result ≡ table_checked points rows.now }
        ensures accepts { Accepts points rows.now (rows_of result) }
        ensures one_tree { OneTree rows.now }
    {
        if !is_table(rows, points) {
            return Err(Fault::new(Layer::Table(TableCause::NoTable), 0));
        }
        if points > MOST_POINTS {
            return Err(Fault::new(Layer::Bank(BankCause::NoPoint), points));
        }
        Ok(Table { rows })
    }

    pub fn rows(&self) -> &'a [Row]
        ensures { result.now ≡ self.now.rows.now }
    {
        self.rows
    }
}
