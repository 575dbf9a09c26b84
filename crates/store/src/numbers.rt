//! The numbers that are handed out.
ghost use Rattle.std.specs.Prelude.{IfSome, IsTrue};
ghost use Rattle.house_rows.specs.Fits.{IsItem};

use house_rows::MOST_ITEMS;

/// Whether what was found, if anything, is the number of an item.
pub(crate) fn is_item_number(found: Option<u32>) -> bool
    ensures sound { IsTrue result → IfSome found IsItem }
    ensures whole { IfSome found IsItem → IsTrue result }
{
    match found {
        None => true,
        Some(number) => 1 <= number && number <= MOST_ITEMS,
    }
}
