//! Bids as messages: the one text by which a bid is sent.
//!
//! Promised: the text of a bid asks for that bid. Read
//! `specs/Spelt.antt` first, which says that text.
#![tactic(auto)]

mod laws;

pub use laws::bid_texts_ask_their_bids;
