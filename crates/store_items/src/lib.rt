//! Items in SQLite: their look-ups and lists, the sales of a member, and the writes of their rows.
//!
//! Promised: each look-up and list answers what the house's definitions find in the tables that the
//! database holds, an item that is handed out is consistent, and each write makes of the rows what
//! `specs/Items.antt` says, which is to be read first.
//!
//! A write is made within a transaction of its caller, who has looked up what it asks of the stored
//! row.
#![tactic(auto)]

mod item;
mod item_reads;
mod own_reserves;
mod pages;
mod reads;
mod sales;
mod seen;
mod terms;

pub use item::{put_item, set_bought, set_closed, set_settled, set_standing};
pub use item_reads::{all_items, auction_at, item_at, item_with_lot, terms_at};
pub use own_reserves::reserves_of;
pub use pages::items_in;
pub use sales::sales_to;
pub use seen::{auction_seen, seen_at};
pub use terms::{due_terms, terms_of_seller};
