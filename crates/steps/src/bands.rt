//! A band table that is always valid.
ghost use Rattle.std.specs.Prelude.{◌≡◌, ◌≤◌, ◌<◌, ◌+◌, ◌≢◌, Err, IfErr, IfOk, IfSome};
ghost use Rattle.steps.specs.Table.{IsBandTable, over, step_at};
ghost use Rattle.steps.specs.Records.{IsJudged};
ghost use Rattle.steps.specs.Reading.{records_of};
ghost use Rattle.steps.specs.Rows.{AreJudged};
ghost use Rattle.steps.specs.Example.{example_table};
ghost use Rattle.steps.specs.Valid.{is_band_table};

use crate::fault::BandsFault;
use crate::{judged, reading};
use cents::Cents;
use std::alloc::Global;
use std::io::Read;
use std::marker::Model;

/// The example table, as (at, step) in cents.
const EXAMPLE: [(u64, u64); 10] = [
    (0, 5),
    (100, 25),
    (500, 50),
    (2_500, 100),
    (10_000, 250),
    (25_000, 500),
    (50_000, 1_000),
    (100_000, 2_500),
    (250_000, 5_000),
    (500_000, 10_000),
];

/// A valid band table. Clauses see its bands in order, each as (at, step) in cents.
#[derive(Drop)]
pub struct Bands {
    rows: Vec<(u64, u64)>,
}

impl Model for Bands {
    ghost use Rattle.std.specs.Prelude.{List};
    ghost use Rattle.steps.specs.Table.{Band, IsBandTable};

    ghost Value = { List Band };

    ghost view = { λ b. b.rows.items };

    ghost invariant = { λ b. IsBandTable b.rows.items };
}

// The step of the last band that begins at or below the amount.
#[tactic(auto, unfolding(crate::specs::Table::step_at))]
fn step_in(rows: &[(u64, u64)], amount: u64) -> u64
    ensures { result ≡ step_at rows.now amount }
{
    let mut found = 0;
    for band in rows {
        if band.0 <= amount {
            found = band.1;
        }
    }
    found
}

impl Bands {
    /// The table of the house's own examples, in ten bands.
    ///
    /// The only error is `BandsFault::Memory`.
    pub fn example(alloc: Global) -> Result<Bands, BandsFault>
        ensures table { IfOk result (λ bands. bands ≡ example_table) }
        ensures memory { IfErr result (λ fault. fault ≡ BandsFault.Memory) }
    {
        match Vec::from_slice(alloc, &EXAMPLE) {
            Ok(rows) => Ok(Bands { rows }),
            Err(_) => Err(BandsFault::Memory),
        }
    }

    /// The table that a text of CSV spells, memory and the device aside: the first record is
    /// `at,step`, and then comes a band a record, both in cents, as 1 to 10 digits each.
    ///
    /// The fault is the first that the records have. Lines end in LF, CR LF or CR, and empty lines
    /// are no records.
    pub fn read<R: Read + Drop>(alloc: Global, source: R) -> Result<Bands, BandsFault>
        ensures { result ≢ Err BandsFault.Memory → result ≢ Err BandsFault.Device →
            IfSome (R.remaining source) (λ text. IsJudged (records_of text) result) }
    {
        let rows = reading::table(alloc, source)?;
        Ok(Bands { rows })
    }

    /// The table of rows, each as (at, step) in cents, memory aside.
    ///
    /// The fault is the first that the rows have: `TooMany` for a row after fifty, `Row`, `First`,
    /// `Order`, `Falls`; `First` also where there is no row.
    pub fn of_rows(alloc: Global, rows: &[(u64, u64)]) -> Result<Bands, BandsFault>
        ensures { result ≢ Err BandsFault.Memory → AreJudged rows.now result }
    {
        judged::table(rows)?;
        match Vec::from_slice(alloc, rows) {
            Ok(rows) => Ok(Bands { rows }),
            Err(_) => Err(BandsFault::Memory),
        }
    }

    /// Whether rows, each as (at, step), are a table: whether `of_rows` takes them, memory aside.
    #[tactic(auto, using(crate::proofs::Tested::table_tested, crate::proofs::Tested::fault_tested))]
    pub fn are_rows(rows: &[(u64, u64)]) -> bool
        ensures { result ≡ is_band_table rows.now }
    {
        judged::table(rows).is_ok()
    }

    /// The bands in order, each as (at, step) in cents.
    pub fn rows(&self) -> &[(u64, u64)]
        ensures rows { result.now ≡ self.now }
        ensures valid { IsBandTable result.now }
    {
        self.rows.as_slice()
    }

    /// The step at an amount, in cents: that of the last band that begins at or below it.
    #[tactic(auto, using(crate::proofs::Rising::step_positive, crate::proofs::Rising::step_small))]
    pub fn step(&self, amount: Cents) -> u64
        ensures step { result ≡ step_at self.now amount }
        ensures positive { 1 ≤ result }
        ensures small { result ≤ 1000000000 }
    {
        step_in(&self.rows, amount.value())
    }

    /// The least amount above this one that may be bid, in cents: one step more.
    pub fn over(&self, amount: Cents) -> u64
        ensures over { result ≡ over self.now amount }
        ensures above { amount < result }
    {
        amount.value() + self.step(amount)
    }
}
