//! The house: the messages that it takes and the replies that it gives, the rows that it keeps, why
//! a command is refused, and what every keep of the tables promises.
//!
//! Promised here is little, and said much: `specs/` holds the definitions that everything above
//! meets. Read `specs/History.antt` first, then `Items`, `Verdict`, `Views`, `Tables`, `CommandResult` and
//! `Pages`; of the code read `keep`, whose clauses say what a look-up answers and what a change does.
#![tactic(auto)]

mod auction;
mod change;
mod command;
mod command_result;
mod edition;
mod editions;
mod ends;
mod fault;
mod item;
mod keep;
mod limits;
mod message;
mod page;
mod people;
mod query;
mod rating;
mod refusal;
mod reply;
mod rows;
mod settings;
mod state;
mod talk;
mod text;

pub use auction::Auction;
pub use change::{Change, NewItem};
pub use command::Command;
pub use command_result::CommandResult;
pub use edition::Edition;
pub use editions::Editions;
pub use ends::Ends;
pub use fault::KeepFault;
pub use item::{Due, Item, ItemShown, OwnBest, OwnBid, OwnReserve, Terms};
pub use keep::Keep;
pub use limits::{
    MOST_CATEGORIES, MOST_EDITIONS, MOST_ITEMS, MOST_MEMBERS, MOST_QUESTIONS, MOST_SHOWN,
    MOST_WATCHES, limits_are_these_numbers,
};
pub use message::Message;
pub use page::Page;
pub use people::{Category, Counts, Member, Ratings};
pub use query::Query;
pub use rating::Rating;
pub use refusal::Refusal;
pub use reply::Reply;
pub use rows::Rows;
pub use settings::{MOST_RATE, Rate, Settings};
pub use state::State;
pub use talk::{Feedback, Question};
pub use text::Text;
