//! The keep in memory.
ghost use Rattle.std.specs.Prelude.{◌≡◌, [], false, IfOk, IfErr};
ghost use Rattle.house_rows.specs.Tables.{tables_of};
ghost use Rattle.house_rows.specs.declared.fault.KeepFault.TheVariants as fault;

use crate::{bids, watches};
use cents::Cents;
use house_rows::{
    Auction, Category, Change, Counts, Due, Editions, Feedback, Item, Keep, KeepFault, Member,
    OwnBest, OwnBid, OwnReserve, Question, Ratings, Settings, Terms,
};
use list_bids::Bids;
use list_items::Items;
use list_people::{Categories, Members};
use list_rows::{clone_found, copies_of};
use list_talk::{FeedbackTable, Questions};
use list_watches::Watches;
use proxy::Standing;
use settle::Sold;
use std::alloc::Global;
use std::hash::RandomState;
use std::marker::Model;
use std::random::RandomSource;

/// The tables of a house, each in the order of its keys. Clauses see the `Tables`, which are sound.
#[derive(Drop)]
pub struct ListKeep {
    pub(crate) alloc: Global,
    // With the settings, and the band tables that were set.
    pub(crate) editions: Editions,
    pub(crate) clock: u64,
    pub(crate) members: Members,
    pub(crate) categories: Categories,
    pub(crate) items: Items,
    pub(crate) bids: Bids,
    pub(crate) watches: Watches,
    pub(crate) questions: Questions,
    pub(crate) feedback: FeedbackTable,
}

impl Model for ListKeep {
    ghost use Rattle.house_rows.specs.Tables.{Tables};

    ghost Value = { Tables };

    ghost use Rattle.store_list.specs.Kept.{IsKept};

    ghost view = { λ k. record {
      settings = k.editions.settings;
      clock = k.clock;
      members = k.members;
      categories = k.categories;
      items = k.items;
      bids = k.bids;
      watches = k.watches;
      questions = k.questions;
      feedback = k.feedback;
      editions = k.editions.later;
    } };

    ghost invariant = { λ k. IsKept (record {
      settings = k.editions.settings;
      clock = k.clock;
      members = k.members;
      categories = k.categories;
      items = k.items;
      bids = k.bids;
      watches = k.watches;
      questions = k.questions;
      feedback = k.feedback;
      editions = k.editions.later;
    }) };
}

impl ListKeep {
    /// The keep of a house to which nothing has happened yet.
    ///
    /// The random bytes are keys of the hashes by which names and lots are found. No result depends
    /// on them. The only error is `KeepFault::Memory`, also where there are no random bytes.
    #[tactic(auto, unfolding(house_rows::specs::Tables::tables_of, house_rows::specs::Questions::questions))]
    pub fn create(
        alloc: Global,
        random: &impl RandomSource,
        settings: Settings,
    ) -> Result<ListKeep, KeepFault>
        ensures empty { IfOk result (λ keep. keep ≡ tables_of settings []) }
        ensures memory { IfErr result (λ e. e ≡ fault.Memory) }
    {
        let Ok(keys) = RandomState::new(random) else {
            return Err(KeepFault::Memory);
        };
        Ok(ListKeep {
            alloc,
            editions: Editions::new(alloc, settings),
            clock: 0,
            members: Members::new(alloc, keys),
            categories: Categories::new(alloc, keys),
            items: Items::new(alloc, keys),
            bids: Bids::new(alloc),
            watches: Watches::new(alloc),
            questions: Questions::new(alloc),
            feedback: FeedbackTable::new(alloc),
        })
    }
}

impl Keep for ListKeep {
    ghost content = { λ k. k };

    ghost is_failed = { λ k. false };

    ghost is_honest = { λ k. Unit {0} };

    ghost may_leave = { λ k t. t ≡ k };

    fn settings(&self) -> Result<&Settings, KeepFault> {
        Ok(self.editions.settings())
    }

    fn editions(&self) -> Result<&Editions, KeepFault> {
        Ok(&self.editions)
    }

    fn clock(&mut self) -> Result<u64, KeepFault> {
        Ok(self.clock)
    }

    fn counts(&mut self) -> Result<Counts, KeepFault> {
        Ok(Counts {
            members: self.members.rows().len() as u32,
            categories: self.categories.rows().len() as u32,
            items: self.items.rows().len() as u32,
        })
    }

    fn member(&mut self, member: u64) -> Result<Option<Member>, KeepFault> {
        clone_found(self.members.member(member))
    }

    fn has_member(&mut self, member: u64) -> Result<bool, KeepFault> {
        Ok(self.members.member(member).is_some())
    }

    fn member_named(&mut self, name: &str) -> Result<Option<Member>, KeepFault> {
        clone_found(self.members.by_name(name))
    }

    fn category(&mut self, category: u64) -> Result<Option<Category>, KeepFault> {
        clone_found(self.categories.category(category))
    }

    fn has_category(&mut self, category: u64) -> Result<bool, KeepFault> {
        Ok(self.categories.category(category).is_some())
    }

    fn category_named(&mut self, name: &str) -> Result<Option<Category>, KeepFault> {
        clone_found(self.categories.by_name(name))
    }

    fn item(&mut self, item: u64) -> Result<Option<Item>, KeepFault> {
        clone_found(self.items.item(item))
    }

    fn terms(&mut self, item: u64) -> Result<Option<Terms>, KeepFault> {
        Ok(self.items.terms(item))
    }

    fn item_of(&mut self, seller: u64, lot: &str) -> Result<Option<u32>, KeepFault> {
        Ok(self.items.number_with_lot(seller, lot))
    }

    fn standing(&mut self, item: u64) -> Result<Option<Standing>, KeepFault> {
        Ok(self.items.standing(item))
    }

    fn auction(&mut self, item: u64) -> Result<Option<Auction>, KeepFault> {
        Ok(self.items.auction(item))
    }

    fn own_best(&mut self, item: u64, member: u64) -> Result<OwnBest, KeepFault> {
        Ok(self.bids.best(member, item))
    }

    fn watched(&mut self, member: u64, item: u64) -> Result<bool, KeepFault> {
        Ok(self.watches.is_watched(member, item))
    }

    fn watch_count(&mut self, member: u64) -> Result<u64, KeepFault> {
        Ok(self.watches.count(member))
    }

    fn ask_count(&mut self, item: u64, asker: u64) -> Result<u64, KeepFault> {
        Ok(self.questions.count(asker, item))
    }

    fn question(
        &mut self,
        item: u64,
        asker: u64,
        number: u64,
    ) -> Result<Option<Question>, KeepFault> {
        clone_found(self.questions.question(item, asker, number))
    }

    fn given(&mut self, item: u64, giver: u64) -> Result<bool, KeepFault> {
        Ok(self.feedback.is_given(item, giver))
    }

    fn ratings(&mut self, member: u64) -> Result<Ratings, KeepFault> {
        Ok(self.feedback.ratings(member))
    }

    fn due(&mut self, moment: u64) -> Result<Due, KeepFault> {
        self.items.due(self.alloc, moment)
    }

    fn items_in(&mut self, category: u64, from: u64) -> Result<Vec<Item>, KeepFault> {
        self.items.in_category(self.alloc, category, from)
    }

    fn bids_of(&mut self, member: u64, from: u64) -> Result<Vec<OwnBid>, KeepFault> {
        bids::own_bids(self.alloc, &self.items, &self.bids, member, from)
    }

    fn reserve(&mut self, item: u64) -> Result<Option<Cents>, KeepFault> {
        Ok(self.items.reserve(item))
    }

    fn reserves_of(&mut self, member: u64, from: u64) -> Result<Vec<OwnReserve>, KeepFault> {
        self.items.reserves_of(self.alloc, member, from)
    }

    fn published(&mut self, item: u64, from: u64) -> Result<Vec<Question>, KeepFault> {
        self.questions.published(self.alloc, item, from)
    }

    fn questions_of(&mut self, member: u64, from: u64) -> Result<Vec<Question>, KeepFault> {
        self.questions.asked_by(self.alloc, member, from)
    }

    fn feedback_for(&mut self, member: u64, from: u64) -> Result<Vec<Feedback>, KeepFault> {
        self.feedback.given_to(self.alloc, member, from)
    }

    fn categories(&mut self) -> Result<Vec<Category>, KeepFault> {
        copies_of(self.alloc, self.categories.rows())
    }

    fn members(&mut self) -> Result<Vec<Member>, KeepFault> {
        copies_of(self.alloc, self.members.rows())
    }

    fn items(&mut self) -> Result<Vec<Item>, KeepFault> {
        self.items.all(self.alloc)
    }

    fn all_published(&mut self) -> Result<Vec<Question>, KeepFault> {
        self.questions.all_published(self.alloc)
    }

    fn all_feedback(&mut self) -> Result<Vec<Feedback>, KeepFault> {
        self.feedback.all(self.alloc)
    }

    fn watches_of(&mut self, member: u64) -> Result<Vec<Item>, KeepFault> {
        watches::items_watched(self.alloc, &self.items, &self.watches, member)
    }

    fn waiting_for(&mut self, member: u64) -> Result<Vec<Question>, KeepFault> {
        let items = &self.items;
        let own = items.sold_by(member);
        self.questions
            .waiting_on(self.alloc, own, |item| items.is_sold_by(item, member))
    }

    fn first_waiting(&mut self, member: u64) -> Result<Vec<Question>, KeepFault> {
        let items = &self.items;
        let own = items.sold_by(member);
        self.questions
            .first_waiting_on(self.alloc, own, |item| items.is_sold_by(item, member))
    }

    fn sold_of(&mut self, member: u64) -> Result<Vec<Sold>, KeepFault> {
        let bid_on = bids::bid_on(self.alloc, &self.bids, member)?;
        self.items.sales_of(self.alloc, member, &bid_on)
    }

    fn apply(&mut self, change: &Change<'_>) -> Result<(), KeepFault> {
        self.change(change)
    }
}
