//! The states of an item.
ghost use Rattle.std.specs.Prelude.{◌≡◌};
ghost use Rattle.house_rows.specs.Names.{state_name};

/// The state of an item. It moves from open to sold or unsold, and from sold to settled.
#[derive(Clone, Copy, PartialEq, Eq)]
pub enum State {
    /// It takes bids, or a purchase, until its end.
    Open,
    /// It was bought, or closed with a leader and no reserve that isn't met.
    Sold,
    /// It was closed with no leader, or with a reserve that isn't met.
    Unsold,
    /// It was sold, and the house has settled the sale.
    Settled,
}

impl State {
    /// The word that pages give.
    pub fn name(self) -> &'static str
        ensures { result.now ≡ state_name self }
    {
        match self {
            State::Open => "open",
            State::Sold => "sold",
            State::Unsold => "unsold",
            State::Settled => "settled",
        }
    }
}
