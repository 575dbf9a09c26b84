//! Why there is no band table.
ghost use Rattle.std.specs.Prelude.{◌≡◌};
ghost use Rattle.steps.specs.Fault.{name_of, number_of, row_of};

use thiserror::Error;

/// Why a band table was not made. Rows are counted from 1 for the first band; nothing half made is
/// left after.
#[derive(Clone, Copy, Debug, PartialEq, Eq, Error)]
pub enum BandsFault {
    /// A record has another number of fields than the first.
    #[error("a record has another number of fields than the first")]
    Csv,
    /// The first record is not `at,step`, or there is none.
    #[error("the first record is not at,step")]
    Head,
    /// A field is not 1 to 10 digits, or its number is out of range: an `at` is from 0 and a step
    /// from 1 to 1000000000.
    #[error("row {row} is not two numbers within their ranges")]
    Row { row: u32 },
    /// The first `at` is not 0, or there is no band.
    #[error("no band begins at 0")]
    First,
    /// An `at` is not greater than the one before.
    #[error("row {row} begins no higher than the one before")]
    Order { row: u32 },
    /// A step is smaller than the one before.
    #[error("the step of row {row} is smaller than the one before")]
    Falls { row: u32 },
    /// There are more than 50 bands.
    #[error("more than 50 bands")]
    TooMany,
    /// The reader failed.
    #[error("the reader failed")]
    Device,
    /// There was no memory for the bands, or for a record.
    #[error("out of memory")]
    Memory,
}

impl BandsFault {
    /// The number of the fault, from 1 to 9.
    pub fn number(self) -> u32
        ensures { result ≡ number_of self }
    {
        match self {
            BandsFault::Csv => 1,
            BandsFault::Head => 2,
            BandsFault::Row { .. } => 3,
            BandsFault::First => 4,
            BandsFault::Order { .. } => 5,
            BandsFault::Falls { .. } => 6,
            BandsFault::TooMany => 7,
            BandsFault::Device => 8,
            BandsFault::Memory => 9,
        }
    }

    /// The name of the fault, that of its variant.
    pub fn name(&self) -> &'static str
        ensures { result.now ≡ name_of self.now }
    {
        match self {
            BandsFault::Csv => "Csv",
            BandsFault::Head => "Head",
            BandsFault::Row { .. } => "Row",
            BandsFault::First => "First",
            BandsFault::Order { .. } => "Order",
            BandsFault::Falls { .. } => "Falls",
            BandsFault::TooMany => "TooMany",
            BandsFault::Device => "Device",
            BandsFault::Memory => "Memory",
        }
    }

    /// The row that has the fault, from 1 on, where the fault is one of a row's numbers.
    pub fn row(self) -> Option<u32>
        ensures { result ≡ row_of self }
    {
        match self {
            BandsFault::Row { row } | BandsFault::Order { row } | BandsFault::Falls { row } => {
                Some(row)
            }
            _ => None,
        }
    }
}
