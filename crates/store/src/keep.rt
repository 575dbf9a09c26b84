//! The keep in SQLite, and its calls.
//!
//! Every call looks first whether the keep has failed, and what failed below it is reported by
//! `reported_fault`, which looks whether the connection still serves. A number of more than 32 bits
//! finds nothing, so the connection isn't asked for it: no stored row has such a number.
ghost use Rattle.std.specs.Prelude.{◌≡◌, false, true, IfErr, OnOk};
ghost use Rattle.house_rows.specs.declared.fault.KeepFault.TheVariants.{Store};
ghost use Rattle.store.specs.Kept.{IsHonest, MayLeave, content, is_failed};

use crate::numbers::is_item_number;
use crate::settled::reported_fault;
use cents::Cents;
use house_rows::{
    Auction, Category, Change, Counts, Due, Editions, Feedback, Item, Keep, KeepFault, Member,
    OwnBest, OwnBid, OwnReserve, Question, Ratings, Settings, Terms,
};
use proxy::Standing;
use settle::Sold;
use sqlite::{Alter, Connection};
use std::alloc::Global;
use std::marker::Model;
use store_bids::{own_best, own_bids};
use store_house::{
    all_categories, all_members, category_at, category_named, has_category, has_member, member_at,
    member_named,
};
use store_items::{
    all_items, auction_at, item_at, item_with_lot, items_in, reserves_of, sales_to, seen_at,
};
use store_rows::Rules;
use store_selling::due;
use store_talk::{
    all_feedback, all_published, ask_count, feedback_to, first_waiting, is_given, published_on,
    question_at, questions_of, ratings, waiting_for,
};
use store_watches::{is_watched, items_watched, watch_count};

// What a look-up answered, or which fault the keep reports where it failed.
macro_rules! report {
    ($keep:ident, $found:expr) => {
        match $found {
            Ok(found) => Ok(found),
            Err(fault) => Err(reported_fault(&mut $keep.conn, &mut $keep.failed, fault)),
        }
    };
}

/// The keep of a house in SQLite. Clauses see the connection, what is known of its tables, and
/// whether a call has answered Store.
#[derive(Drop)]
pub struct SqlKeep<S: Alter> {
    pub(crate) alloc: Global,
    pub(crate) conn: Connection<S>,
    // Kept, so that no call asks for them.
    pub(crate) rules: Rules,
    pub(crate) counts: Counts,
    pub(crate) clock: u64,
    pub(crate) failed: bool,
    // The item that was looked up last, so that a change of it doesn't look it up again. A change
    // forgets it.
    pub(crate) seen: Option<Auction>,
}

impl<S: Alter> Model for SqlKeep<S> {
    ghost use Rattle.store.specs.Kept.{House, IsKeptSeen, house_code};

    ghost Value = { House S };

    ghost coded = { house_code S.code };

    ghost view = { λ k. record {
      conn = k.conn;
      editions = k.rules.editions;
      reserves = k.rules.reserves;
      counts = k.counts;
      clock = k.clock;
      failed = k.failed;
    } };

    ghost invariant = { λ k. IsKeptSeen S.Store k.seen (record {
      conn = k.conn;
      editions = k.rules.editions;
      reserves = k.rules.reserves;
      counts = k.counts;
      clock = k.clock;
      failed = k.failed;
    }) };
}

impl<S: Alter> SqlKeep<S> {
    // Whether the keep has not failed.
    fn serves(&self) -> Result<(), KeepFault>
        ensures ok { OnOk result (is_failed self.now ≡ false) }
        ensures err { IfErr result (λ fault. (fault ≡ Store) × (is_failed self.now ≡ true)) }
    {
        if self.failed {
            Err(KeepFault::Store)
        } else {
            Ok(())
        }
    }
}

impl<S: Alter> Keep for SqlKeep<S> {
    ghost content = { content S.Store };

    ghost is_failed = { is_failed };

    ghost is_honest = { IsHonest S.Store };

    ghost may_leave = { MayLeave S.Store };

    fn settings(&self) -> Result<&Settings, KeepFault> {
        self.serves()?;
        Ok(self.rules.editions.settings())
    }

    fn editions(&self) -> Result<&Editions, KeepFault> {
        self.serves()?;
        Ok(&self.rules.editions)
    }

    fn clock(&mut self) -> Result<u64, KeepFault> {
        self.serves()?;
        Ok(self.clock)
    }

    fn counts(&mut self) -> Result<Counts, KeepFault> {
        self.serves()?;
        Ok(self.counts)
    }

    #[tactic(auto, using(store_house::proofs::PeopleSound::member_fits, store_rows::proofs::Small::no_member), unfolding(store_rows::specs::Tables::tables_in))]
    fn member(&mut self, member: u64) -> Result<Option<Member>, KeepFault> {
        self.serves()?;
        let Ok(member) = u32::try_from(member) else {
            return Ok(None);
        };
        report!(self, member_at(&mut self.conn, member))
    }

    #[tactic(auto, using(store_house::proofs::PeopleSound::member_fits, store_rows::proofs::Small::no_member), unfolding(store_rows::specs::Tables::tables_in))]
    fn has_member(&mut self, member: u64) -> Result<bool, KeepFault> {
        self.serves()?;
        let Ok(member) = u32::try_from(member) else {
            return Ok(false);
        };
        report!(self, has_member(&mut self.conn, member))
    }

    #[tactic(auto, using(store_house::proofs::PeopleSound::member_fits), unfolding(store_rows::specs::Tables::tables_in))]
    fn member_named(&mut self, name: &str) -> Result<Option<Member>, KeepFault> {
        self.serves()?;
        report!(self, member_named(&mut self.conn, name))
    }

    #[tactic(auto, using(store_house::proofs::PeopleSound::category_fits, store_rows::proofs::Small::no_category), unfolding(store_rows::specs::Tables::tables_in))]
    fn category(&mut self, category: u64) -> Result<Option<Category>, KeepFault> {
        self.serves()?;
        let Ok(category) = u32::try_from(category) else {
            return Ok(None);
        };
        report!(self, category_at(&mut self.conn, category))
    }

    #[tactic(auto, using(store_house::proofs::PeopleSound::category_fits, store_rows::proofs::Small::no_category), unfolding(store_rows::specs::Tables::tables_in))]
    fn has_category(&mut self, category: u64) -> Result<bool, KeepFault> {
        self.serves()?;
        let Ok(category) = u32::try_from(category) else {
            return Ok(false);
        };
        report!(self, has_category(&mut self.conn, category))
    }

    #[tactic(auto, using(store_house::proofs::PeopleSound::category_fits), unfolding(store_rows::specs::Tables::tables_in))]
    fn category_named(&mut self, name: &str) -> Result<Option<Category>, KeepFault> {
        self.serves()?;
        report!(self, category_named(&mut self.conn, name))
    }

    #[tactic(auto, using(store_items::proofs::Small::no_item), unfolding(store_rows::specs::Tables::tables_in))]
    fn item(&mut self, item: u64) -> Result<Option<Item>, KeepFault> {
        self.serves()?;
        let Ok(item) = u32::try_from(item) else {
            return Ok(None);
        };
        report!(self, item_at(&mut self.conn, &self.rules, item))
    }

    #[tactic(auto, using(crate::proofs::Known::terms_some, crate::proofs::Known::terms_none))]
    fn terms(&mut self, item: u64) -> Result<Option<Terms>, KeepFault> {
        let found = self.auction(item)?;
        match found {
            Some(auction) => Ok(Some(auction.terms)),
            None => Ok(None),
        }
    }

    #[tactic(auto, using(crate::proofs::Sound::sound_number, store_rows::proofs::Sound::items_fit, crate::proofs::Absent::no_lot), unfolding(store_rows::specs::Tables::tables_in))]
    fn item_of(&mut self, seller: u64, lot: &str) -> Result<Option<u32>, KeepFault> {
        self.serves()?;
        let Ok(seller) = u32::try_from(seller) else {
            return Ok(None);
        };
        match item_with_lot(&mut self.conn, seller, lot) {
            Ok(found) => {
                if !is_item_number(found) {
                    return Err(KeepFault::Damaged);
                }
                Ok(found)
            }
            Err(fault) => Err(reported_fault(&mut self.conn, &mut self.failed, fault)),
        }
    }

    #[tactic(auto, using(crate::proofs::Known::standing_some, crate::proofs::Known::standing_none))]
    fn standing(&mut self, item: u64) -> Result<Option<Standing>, KeepFault> {
        match self.auction(item)? {
            Some(auction) => Ok(Some(auction.standing)),
            None => Ok(None),
        }
    }

    #[tactic(auto, using(store_items::proofs::Small::no_item), unfolding(store_rows::specs::Tables::tables_in))]
    fn auction(&mut self, item: u64) -> Result<Option<Auction>, KeepFault> {
        self.serves()?;
        let Ok(item) = u32::try_from(item) else {
            return Ok(None);
        };
        if let Some(auction) = seen_at(&self.seen, item) {
            return Ok(Some(auction));
        }
        match auction_at(&mut self.conn, &self.rules, item) {
            Ok(found) => {
                self.seen = found;
                Ok(self.seen)
            }
            Err(fault) => Err(reported_fault(&mut self.conn, &mut self.failed, fault)),
        }
    }

    #[tactic(auto, using(crate::proofs::Absent::no_best_of, crate::proofs::Absent::no_best_at))]
    fn own_best(&mut self, item: u64, member: u64) -> Result<OwnBest, KeepFault> {
        self.serves()?;
        let (Ok(item), Ok(member)) = (u32::try_from(item), u32::try_from(member)) else {
            return Ok(OwnBest {
                maximum: Cents::new(0).unwrap(),
                mine: 0,
            });
        };
        report!(self, own_best(self.alloc, &mut self.conn, item, member))
    }

    #[tactic(auto, using(crate::proofs::Absent::no_watcher, crate::proofs::Absent::no_watched), unfolding(store_rows::specs::Tables::tables_in))]
    fn watched(&mut self, member: u64, item: u64) -> Result<bool, KeepFault> {
        self.serves()?;
        let Ok(member) = u32::try_from(member) else {
            return Ok(false);
        };
        let Ok(item) = u32::try_from(item) else {
            return Ok(false);
        };
        report!(self, is_watched(&mut self.conn, member, item))
    }

    #[tactic(auto, using(crate::proofs::Absent::no_watches))]
    fn watch_count(&mut self, member: u64) -> Result<u64, KeepFault> {
        self.serves()?;
        let Ok(member) = u32::try_from(member) else {
            return Ok(0);
        };
        report!(self, watch_count(self.alloc, &mut self.conn, member))
    }

    #[tactic(auto, using(crate::proofs::Absent::no_asked_on, crate::proofs::Absent::no_asked_by), unfolding(store_rows::specs::Tables::tables_in))]
    fn ask_count(&mut self, item: u64, asker: u64) -> Result<u64, KeepFault> {
        self.serves()?;
        let Ok(item) = u32::try_from(item) else {
            return Ok(0);
        };
        let Ok(asker) = u32::try_from(asker) else {
            return Ok(0);
        };
        report!(self, ask_count(&mut self.conn, item, asker))
    }

    #[tactic(auto, using(store_talk::proofs::Sound::question_sound, crate::proofs::Absent::no_question_on, crate::proofs::Absent::no_question_by, crate::proofs::Absent::no_question_numbered), unfolding(store_rows::specs::Tables::tables_in))]
    fn question(
        &mut self,
        item: u64,
        asker: u64,
        number: u64,
    ) -> Result<Option<Question>, KeepFault> {
        self.serves()?;
        let Ok(item) = u32::try_from(item) else {
            return Ok(None);
        };
        let Ok(asker) = u32::try_from(asker) else {
            return Ok(None);
        };
        let Ok(number) = u32::try_from(number) else {
            return Ok(None);
        };
        report!(self, question_at(&mut self.conn, item, asker, number))
    }

    #[tactic(auto, using(crate::proofs::Absent::no_giver, crate::proofs::Absent::no_given), unfolding(store_rows::specs::Tables::tables_in))]
    fn given(&mut self, item: u64, giver: u64) -> Result<bool, KeepFault> {
        self.serves()?;
        let Ok(item) = u32::try_from(item) else {
            return Ok(false);
        };
        let Ok(giver) = u32::try_from(giver) else {
            return Ok(false);
        };
        report!(self, is_given(&mut self.conn, item, giver))
    }

    #[tactic(auto, using(crate::proofs::Absent::no_ratings, crate::proofs::Absent::no_feedback_unfit))]
    fn ratings(&mut self, member: u64) -> Result<Ratings, KeepFault> {
        self.serves()?;
        let Ok(member) = u32::try_from(member) else {
            return Ok(Ratings {
                plus: 0,
                zero: 0,
                minus: 0,
            });
        };
        report!(self, ratings(self.alloc, &mut self.conn, member))
    }

    fn due(&mut self, moment: u64) -> Result<Due, KeepFault> {
        self.serves()?;
        report!(self, due(self.alloc, &mut self.conn, &self.rules, moment))
    }

    #[tactic(auto, using(crate::proofs::AbsentLists::no_items, crate::proofs::AbsentLists::no_rows_kept))]
    fn items_in(&mut self, category: u64, from: u64) -> Result<Vec<Item>, KeepFault> {
        self.serves()?;
        let Ok(category) = u32::try_from(category) else {
            return Ok(Vec::new(self.alloc));
        };
        let rules = &self.rules;
        report!(
            self,
            items_in(self.alloc, &mut self.conn, rules, category, from)
        )
    }

    #[tactic(auto, using(crate::proofs::AbsentLists::no_own_bids))]
    fn bids_of(&mut self, member: u64, from: u64) -> Result<Vec<OwnBid>, KeepFault> {
        self.serves()?;
        let Ok(member) = u32::try_from(member) else {
            return Ok(Vec::new(self.alloc));
        };
        let rules = &self.rules;
        report!(
            self,
            own_bids(self.alloc, &mut self.conn, rules, member, from)
        )
    }

    #[tactic(auto, using(crate::proofs::Known::reserve_some, crate::proofs::Known::reserve_none))]
    fn reserve(&mut self, item: u64) -> Result<Option<Cents>, KeepFault> {
        match self.standing(item)? {
            Some(standing) => Ok(standing.reserve()),
            None => Ok(None),
        }
    }

    #[tactic(auto, using(crate::proofs::AbsentLists::no_reserves, crate::proofs::AbsentLists::no_reserves_kept))]
    fn reserves_of(&mut self, member: u64, from: u64) -> Result<Vec<OwnReserve>, KeepFault> {
        self.serves()?;
        let Ok(member) = u32::try_from(member) else {
            return Ok(Vec::new(self.alloc));
        };
        let rules = &self.rules;
        report!(
            self,
            reserves_of(self.alloc, &mut self.conn, rules, member, from)
        )
    }

    #[tactic(auto, using(crate::proofs::AbsentLists::no_published))]
    fn published(&mut self, item: u64, from: u64) -> Result<Vec<Question>, KeepFault> {
        self.serves()?;
        let Ok(item) = u32::try_from(item) else {
            return Ok(Vec::new(self.alloc));
        };
        report!(self, published_on(self.alloc, &mut self.conn, item, from))
    }

    #[tactic(auto, using(crate::proofs::AbsentLists::no_own_questions))]
    fn questions_of(&mut self, member: u64, from: u64) -> Result<Vec<Question>, KeepFault> {
        self.serves()?;
        let Ok(member) = u32::try_from(member) else {
            return Ok(Vec::new(self.alloc));
        };
        report!(self, questions_of(self.alloc, &mut self.conn, member, from))
    }

    #[tactic(auto, using(crate::proofs::AbsentLists::no_feedback))]
    fn feedback_for(&mut self, member: u64, from: u64) -> Result<Vec<Feedback>, KeepFault> {
        self.serves()?;
        let Ok(member) = u32::try_from(member) else {
            return Ok(Vec::new(self.alloc));
        };
        report!(self, feedback_to(self.alloc, &mut self.conn, member, from))
    }

    #[tactic(auto, unfolding(store_rows::specs::Tables::tables_in))]
    fn categories(&mut self) -> Result<Vec<Category>, KeepFault> {
        self.serves()?;
        report!(self, all_categories(self.alloc, &mut self.conn))
    }

    #[tactic(auto, unfolding(store_rows::specs::Tables::tables_in))]
    fn members(&mut self) -> Result<Vec<Member>, KeepFault> {
        self.serves()?;
        report!(self, all_members(self.alloc, &mut self.conn))
    }

    #[tactic(auto, unfolding(store_rows::specs::Tables::tables_in))]
    fn items(&mut self) -> Result<Vec<Item>, KeepFault> {
        self.serves()?;
        report!(self, all_items(self.alloc, &mut self.conn, &self.rules))
    }

    #[tactic(auto, unfolding(store_rows::specs::Tables::tables_in))]
    fn all_published(&mut self) -> Result<Vec<Question>, KeepFault> {
        self.serves()?;
        report!(self, all_published(self.alloc, &mut self.conn))
    }

    #[tactic(auto, using(store_rows::proofs::Sound::feedback_fits), unfolding(store_rows::specs::Tables::tables_in))]
    fn all_feedback(&mut self) -> Result<Vec<Feedback>, KeepFault> {
        self.serves()?;
        report!(self, all_feedback(self.alloc, &mut self.conn))
    }

    #[tactic(auto, using(crate::proofs::AbsentLists::no_items_watched, crate::proofs::AbsentLists::no_watched_kept))]
    fn watches_of(&mut self, member: u64) -> Result<Vec<Item>, KeepFault> {
        self.serves()?;
        let Ok(member) = u32::try_from(member) else {
            return Ok(Vec::new(self.alloc));
        };
        let rules = &self.rules;
        report!(
            self,
            items_watched(self.alloc, &mut self.conn, rules, member)
        )
    }

    #[tactic(auto, using(crate::proofs::AbsentLists::no_waiting, crate::proofs::AbsentLists::no_seller_kept))]
    fn waiting_for(&mut self, member: u64) -> Result<Vec<Question>, KeepFault> {
        self.serves()?;
        let Ok(member) = u32::try_from(member) else {
            return Ok(Vec::new(self.alloc));
        };
        let rules = &self.rules;
        report!(self, waiting_for(self.alloc, &mut self.conn, rules, member))
    }

    #[tactic(auto, using(crate::proofs::AbsentLists::no_first_waiting, crate::proofs::AbsentLists::no_seller_kept))]
    fn first_waiting(&mut self, member: u64) -> Result<Vec<Question>, KeepFault> {
        self.serves()?;
        let Ok(member) = u32::try_from(member) else {
            return Ok(Vec::new(self.alloc));
        };
        let rules = &self.rules;
        report!(
            self,
            first_waiting(self.alloc, &mut self.conn, rules, member)
        )
    }

    #[tactic(auto, using(crate::proofs::AbsentLists::no_sales, crate::proofs::AbsentLists::no_rows_sold, crate::proofs::AbsentLists::no_sold_kept))]
    fn sold_of(&mut self, member: u64) -> Result<Vec<Sold>, KeepFault> {
        self.serves()?;
        let Ok(member) = u32::try_from(member) else {
            return Ok(Vec::new(self.alloc));
        };
        let rules = &self.rules;
        report!(self, sales_to(self.alloc, &mut self.conn, rules, member))
    }

    fn apply(&mut self, change: &Change<'_>) -> Result<(), KeepFault> {
        self.change(change)
    }
}
