//! What a member has bid on an item.
ghost use Rattle.list_bids.specs.Tallies.{tally_key};

use house_rows::OwnBest;
use list_rows::{Changes, Keyed, RowKey};

/// What a member has bid on an item: a row of the tallies.
#[derive(Clone, Copy)]
pub struct Tally {
    /// The number of the member.
    pub member: u32,
    /// The number of the item.
    pub item: u32,
    /// The greatest of its maxima there, and how many there are. There may be none.
    pub best: OwnBest,
}

impl Keyed for Tally {
    ghost key = { tally_key };

    fn row_key(&self) -> RowKey {
        RowKey::new(u64::from(self.member), u64::from(self.item), 0)
    }
}

/// What a member now has bid on an item.
#[derive(Drop)]
pub(crate) struct Better {
    pub(crate) best: OwnBest,
}

impl Changes<Tally> for Better {
    ghost changed = { λ better tally. record tally { best = better.best } };

    fn change(self, row: &mut Tally) {
        row.best = self.best;
    }
}
