//! What every table of a house in SQLite needs: the schema, typed rows, statements and their frames.
//!
//! Promised: twenty statements leave an empty house, and the last four of them one of version 1
//! with its rows; a statement that is run here leaves what its text says, or nothing, and its rows
//! are read as the rows of the house that they are, wherever the disk was honest.
//! `specs/Tables.antt` says which tables a database holds. Reserves, which are sealed, are rows here
//! too, and readers of items go by the `Rules`, which hold them with the band tables.
//! Read `specs/Schema.antt` first, then `specs/Rows.antt`, `specs/House.antt` and `specs/Tables.antt`.
#![tactic(auto)]

mod band;
mod begun;
mod bid;
mod bound;
mod category;
mod columns;
mod counts;
mod edition;
mod feedback;
mod first;
mod fits;
mod house;
mod item;
mod member;
mod question;
mod reserve;
mod reserve_rows;
mod reserves;
mod rules;
mod sql;
mod stored;
mod tables;

pub use band::{BandRow, all_bands};
pub use begun::{begin, end};
pub use bound::bound_of;
pub use columns::{cents_at, maybe_cents_at, maybe_number_at, number_at};
pub use counts::read_count;
pub use edition::{EditionRow, LaterBandRow};
pub use first::{first_rows, page_rows};
pub use house::{HouseRow, house_row, set_clock, set_version, stored_version};
pub use reserve::ReserveRow;
pub use reserve_rows::{all_reserves, put_reserve};
pub use reserves::Reserves;
pub use rules::Rules;
pub use sql::{commit, fault_of, is_still_open, rows_shown, run, stored_moment};
pub use stored::{Stored, all_of, first_of};
pub use tables::{FIRST_STEPS, OLDER_STEPS, STEPS, add_tables, make_steps, step_text};
