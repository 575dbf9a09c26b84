//! The result of a settlement: the price, the house's fee and what is left to the seller.
ghost use Rattle.std.specs.Prelude.{◌≡◌, ◌≤◌, ◌-◌};
ghost use Rattle.settle.specs.Fee.{fee_of};
ghost use Rattle.house_rows.specs.Answers.{Answers};
ghost use Rattle.house_rows.specs.Found.{terms_at};
ghost use Rattle.house_rows.specs.Taken.{ItemFitsAt};
ghost use Rattle.site_results.specs.ByTables.{settled_by};

use cents::Cents;
use house_rows::{CommandResult, Keep, KeepFault};

/// The result of the settlement of an item's sale. Of an item that isn't there it is nothing.
pub(crate) fn tell_settlement<K: Keep>(keep: &mut K, item: u32) -> Result<CommandResult, KeepFault>
    ensures { Answers K.Keep keep.old keep.new result
        (λ t r. r ≡ settled_by t.settings.rate item (terms_at t item)) (ItemFitsAt item) }
{
    let rate = keep.settings()?.rate.value();
    match keep.terms(u64::from(item))? {
        Some(terms) => Ok(share_price(item, terms.price, rate)),
        None => Ok(CommandResult::Nothing),
    }
}

// The price of a sale in its two parts, by a rate in ten-thousandths.
fn share_price(item: u32, price: Cents, rate: u64) -> CommandResult
    requires { rate ≤ 2000 }
    ensures { result ≡ CommandResult.Settlement (fee_of price rate) item (price - fee_of price rate) price }
{
    let fee = settle::fee(price, rate);
    CommandResult::Settlement {
        fee,
        item,
        net: price.value() - fee,
        price,
    }
}
