//! What the message of a lot asks for, and what its answer tells. No code runs here.
ghost use Rattle.std.specs.Prelude.{◌≡◌, ◌<◌, ◌^◌, ℕ, Bool, List, None, Some, decimal};
ghost use Rattle.house_rows.specs.Names.{refusal_name};
ghost use Rattle.house_rows.specs.declared.command_result.CommandResult.TheVariants.{Listing};
ghost use Rattle.house_rows.specs.declared.refusal.Refusal.{Refusal as TheRefusal};
ghost use Rattle.house_rows.specs.declared.reply.Reply.TheVariants.{Denied, Done};
ghost use Rattle.pages_text.specs.Trees.{floor_reported};
ghost use Rattle.settle.specs.declared.zone.Zone.{Zone as TheZone};
ghost use Rattle.site_replies.specs.Texts.{reply_text};
ghost use Rattle.site_request.specs.Asked.{IsAsked};
ghost use Rattle.office.specs.Listings.{CanList, IsListable, listing_by};
ghost use Rattle.office.specs.Lines.{item_in, name_in};
ghost use Rattle.office.specs.Lots.{Spells};
ghost use Rattle.office.specs.Orders.{message_of};
ghost use Rattle.office.specs.declared.lot.Lot.{Lot as TheLot};
ghost use Rattle.office.specs.declared.lister.Lister.{Lister as TheLister};

/// The order of a lot asks that the member lists this very lot at the moment, and a lot that a row
/// spells has such an order, where it isn't too long.
pub fn orders_ask_for_their_listing()
    ensures order { (by : TheLister) (lot : TheLot) (text : List ℕ) → CanList by → IsListable lot
        → message_of by lot ≡ Some text → IsAsked text (listing_by by lot) }
    ensures row { (fields : List (List ℕ)) (lot : TheLot) → Spells fields lot → IsListable lot }
{}

/// What an import takes out of an answer, by its first brace, is what the answer says: the number of the
/// item that was made, and the name of a refusal, of each but `Low`, which tells a floor.
pub fn lines_tell_their_answers()
    ensures item { (zone : TheZone) (closes : Bool) (item : ℕ) → item < 2 ^ 64
        → item_in (reply_text zone closes (Done (Listing item))) ≡ decimal item }
    ensures name { (zone : TheZone) (closes : Bool) (refusal : TheRefusal)
        → floor_reported refusal ≡ None
        → name_in (reply_text zone closes (Denied refusal)) ≡ refusal_name refusal }
{}
