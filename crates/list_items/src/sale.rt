//! The sale of an item.
ghost use Rattle.std.specs.Prelude.{◌≡◌};
ghost use Rattle.list_items.specs.Sales.{sale_if_sold};

use house_rows::{State, Terms};
use settle::Sold;

/// The sale of an item of these terms, if it was sold.
pub(crate) fn sale(terms: &Terms) -> Option<Sold>
    ensures { result ≡ sale_if_sold terms.now }
{
    match terms.state {
        State::Sold | State::Settled => Some(Sold {
            item: terms.item,
            seller: terms.seller,
            buyer: terms.leader.unwrap_or(0),
            closed: terms.closed.unwrap_or(0),
            price: terms.price,
        }),
        State::Open | State::Unsold => None,
    }
}
