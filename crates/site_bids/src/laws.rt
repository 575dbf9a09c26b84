//! What the text of a bid asks. No code runs here.
ghost use Rattle.std.specs.Prelude.{◌≡◌, List, ℕ};
ghost use Rattle.house_laws.specs.Covered.{Sealed, bid_message};
ghost use Rattle.site_request.specs.Asked.{IsAsked};
ghost use Rattle.site_request.specs.declared.asked.Asked.{Asked};
ghost use Rattle.site_bids.specs.Spelt.{IsSent, bid_text};

/// The text of a bid whose numbers can be sent asks for that bid, and for nothing else.
pub fn bid_texts_ask_their_bids()
    ensures { (b : Sealed) (asked : Asked) → IsSent b → IsAsked (bid_text b) asked
        → asked.message ≡ bid_message b }
{}
