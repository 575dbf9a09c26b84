//! Whether a close sells an item.
ghost use Rattle.std.specs.Prelude.{◌≡◌};
ghost use Rattle.house_rows.specs.Items.{close_sells};

use house_rows::Terms;

/// Whether a close sells an item: somebody leads, and its reserve isn't unmet.
pub(crate) fn close_sells(terms: &Terms) -> bool
    ensures { result ≡ close_sells terms.now.leader terms.now.met }
{
    terms.leader.is_some() && terms.met.unwrap_or(true)
}
