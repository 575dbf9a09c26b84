//! A sale, and the fee that its seller pays.
ghost use Rattle.std.specs.Prelude.{◌≡◌, ◌≤◌};
ghost use Rattle.settle.specs.Fee.{fee_of};

use cents::Cents;

/// An item that was sold.
#[derive(Clone, Copy)]
pub struct Sold {
    /// The number of the item.
    pub item: u32,
    /// The number of the member that sold it.
    pub seller: u32,
    /// The number of the member that bought it.
    pub buyer: u32,
    /// When the sale closed, in whole seconds since 1970-01-01T00:00:00Z.
    pub closed: u64,
    /// The price that the buyer pays.
    pub price: Cents,
}

/// The fee of a sale in cents: so many ten-thousandths of the price, rounded down.
pub const fn fee(price: Cents, rate: u64) -> u64
    requires { rate ≤ 2000 }
    ensures value { result ≡ fee_of price rate }
    ensures within { result ≤ price }
{
    price.value() * rate / 10_000
}
