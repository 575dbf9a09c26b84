//! The totals of a statement.
ghost use Rattle.std.specs.Prelude.{◌≡◌, ◌+◌, ◌*◌, ◌≤◌, All, length};
ghost use Rattle.settle.specs.Statement.{totals_of};

use crate::line::Line;

/// The four totals of a statement, in cents.
#[derive(Clone, Copy)]
pub struct Totals {
    /// The prices of what the member sold.
    pub sold: u64,
    /// The fees of what it sold.
    pub fees: u64,
    /// What is left of the prices without the fees.
    pub net: u64,
    /// The prices of what it bought.
    pub bought: u64,
}

impl Totals {
    ghost use Rattle.settle.specs.Lines.{IsSplit, MOST};

    /// The totals of lines.
    pub fn of(rows: &[Line]) -> Totals
        requires few { length rows.now ≤ MOST }
        requires split { All IsSplit rows.now }
        ensures { result ≡ totals_of rows.now }
    {
        let mut totals = Totals {
            sold: 0,
            fees: 0,
            net: 0,
            bought: 0,
        };
        for line in rows {
            let price = line.price.value();
            if line.sell {
                totals.sold += price;
                totals.fees += line.fee;
                totals.net += line.net;
            } else {
                totals.bought += price;
            }
        }
        totals
    }
}
