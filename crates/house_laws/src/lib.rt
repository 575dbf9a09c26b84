//! The laws of the house, over its definitions alone. No code runs here: each public function says a
//! theorem.
//!
//! Promised: two runs in which a member's messages are the same, and the public record and the
//! questions that wait for it agree after every step, give that member the same replies, whatever
//! the others sealed. Read `isolation` first.
#![tactic(auto)]

mod bands;
mod course;
mod edges;
mod prices;
mod privacy;
mod reserves;
mod secrecy;
mod statements;
mod surplus;
mod twins;
mod worked;

pub use bands::{
    editions_are_public, editions_of_tables, items_keep_their_tables, new_tables_leave_items,
};
pub use course::{
    accepted_bids_count, changes_keep_tables_sound, refused_commands_change_nothing,
    rows_of_a_history_fit, sales_balance, states_only_move_forward, unmet_reserves_are_not_sold,
};
pub use edges::{edges_of_rules, members_watch_200};
pub use prices::{
    best_offer_leads, prices_depend_on_deals, prices_never_fall, purchases_cost_the_buy_now_price,
};
pub use privacy::{questions_are_private_until_answered, sellers_learn_what_is_shown};
pub use reserves::{reserves_worked, sealed_reserves_may_differ};
pub use secrecy::{
    commands_step_equally, isolation, isolation_from_any_point, isolation_over_crashes,
    replies_depend_on_views, views_are_local,
};
pub use statements::statements_have_each_sale_once;
pub use surplus::{covers_show_in_the_end, surplus_is_invisible, surplus_needs_its_premises};
pub use twins::{twin_lives_may_differ, twin_runs_may_differ};
pub use worked::{worked_rows, wrong_readings_differ};
