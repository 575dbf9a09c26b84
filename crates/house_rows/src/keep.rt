//! Whatever keeps the tables of the house.
ghost use Rattle.std.specs.Prelude.{◌≡◌, ◌≤◌, ◌≢◌, ◌==◌, ◌&&◌, ⊤, All, AllPairs, true, Bool, IfOk, IfSome, OnOk, filter, is_some, length, nat_le, take};
ghost use Rattle.std.specs.List.{AllByRecursion};
ghost use Rattle.settle.specs.Statement.{IsSale};
ghost use Rattle.house_rows.specs.Answered.{IsAnswered};
ghost use Rattle.house_rows.specs.Asks.{ChangeFits};
ghost use Rattle.house_rows.specs.Consistent.{AskedConsistent, AuctionConsistent, DueConsistent, DueKept, ItemConsistent, ItemsConsistent, OwnBidsConsistent, OwnBidsKept, SalesConsistent, SalesKept, SellerKept, TermsConsistent};
ghost use Rattle.house_rows.specs.Fits.{CategoryFits, FeedbackFits, IsItem, IsMember, IsMoment, IsWithin, ItemFits, MemberFits, OwnBidFits, OwnReserveFits, QuestionFits, StandingFits, TermsFit};
ghost use Rattle.house_rows.specs.Found.{all_items, all_published, ask_count, auction_at, best_of, category_at, category_named, counts_of, due_at, feedback_to, first_waiting, is_given, is_watched, item_at, item_with_lot, items_in, items_watched, member_named, own_bids, own_reserves, published_on, question_at, questions_of, reserve_at, row_at, sales_to, standing_at, terms_at, waiting_for, watch_count};
ghost use Rattle.house_rows.specs.Keeping.{AreKeptWatched, AreSound, IsKeptRow, RowFits};
ghost use Rattle.house_rows.specs.Limits.{most_categories, most_items, most_shown};
ghost use Rattle.house_rows.specs.Making.{IsApplied};
ghost use Rattle.house_rows.specs.Pages.{member_at, ratings_of};
ghost use Rattle.house_rows.specs.Tables.{Tables, band_tables};
ghost use Rattle.house_rows.specs.Taken.{AllPublishedFit, AllWaitingFit, CategoryFitsAt, CategoryFitsNamed, CategoryItemsFit, DueItemsFit, FeedbackFitsFrom, FeedbackFitsTo, FirstAskedFit, FirstGivenFit, FirstPublishedFit, FirstWaitingFit, ItemFitsAt, ItemIsOurs, MemberFitsAt, MemberFitsNamed, OwnBidsFit, OwnBidsFitOn, OwnReservesFit, QuestionFitsAt, SalesFit, WatchedFit, WatchesFit, has_own_reserve, start_of};

use crate::auction::Auction;
use crate::change::Change;
use crate::editions::Editions;
use crate::fault::KeepFault;
use crate::item::{Due, Item, OwnBest, OwnBid, OwnReserve, Terms};
use crate::people::{Category, Counts, Member, Ratings};
use crate::settings::Settings;
use crate::talk::{Feedback, Question};
use cents::Cents;
use proxy::Standing;
use settle::Sold;

/// A keep of the tables. Look-ups and lists are exact, and leave the tables; `apply` makes a whole
/// change or none.
///
/// The number of a row that isn't there finds nothing. Lists of at most fifty are those that begin
/// at a number. A look-up or a list is `Damaged` only where a row that it takes doesn't fit, whatever
/// else is wrong with the tables. What stands last in its `IsAnswered` says which rows these are.
/// Of each item whose terms, standing or reserve it takes, what is sealed goes with what is shown, or
/// it is `Damaged`: `kept`.
pub trait Keep {
    /// The tables.
    ghost content: { Self → Tables };

    /// Whether a call has answered `Store`. From then on every call does.
    ghost is_failed: { Self → Bool };

    /// So far the disk has returned what was written.
    ghost is_honest: { Self → Type 0 };

    /// Which tables a crash may leave.
    ghost may_leave: { Self → Tables → Type 0 };

    /// What the house was set up with.
    fn settings(&self) -> Result<&Settings, KeepFault>
        ensures { IsAnswered content is_failed is_honest may_leave self.now self.now result
            (λ t v. v.now ≡ t.settings) (λ _. ⊤) };

    /// The settings, and all band tables.
    fn editions(&self) -> Result<&Editions, KeepFault>
        ensures { IsAnswered content is_failed is_honest may_leave self.now self.now result
            (λ t v. v.now ≡ band_tables t) (λ _. ⊤) };

    /// The moment of the last command that moves the clock.
    fn clock(&mut self) -> Result<u64, KeepFault>
        ensures answers { IsAnswered content is_failed is_honest may_leave self.old self.new result
            (λ t v. v ≡ t.clock) (λ _. ⊤) }
        ensures fits { IfOk result IsMoment };

    /// How many members, categories and items there are.
    fn counts(&mut self) -> Result<Counts, KeepFault>
        ensures { IsAnswered content is_failed is_honest may_leave self.old self.new result
            (λ t v. v ≡ counts_of t) (λ _. ⊤) };

    /// The member of a number.
    fn member(&mut self, member: u64) -> Result<Option<Member>, KeepFault>
        ensures answers { IsAnswered content is_failed is_honest may_leave self.old self.new result
            (λ t v. v ≡ member_at t.members member) (MemberFitsAt member) }
        ensures fits { IfOk result (λ v. IfSome v MemberFits) };

    /// Whether there is a member of a number.
    fn has_member(&mut self, member: u64) -> Result<bool, KeepFault>
        ensures answers { IsAnswered content is_failed is_honest may_leave self.old self.new result
            (λ t v. v ≡ is_some (member_at t.members member)) (MemberFitsAt member) }
        ensures fits { IfOk result (λ v. v ≡ true → IsMember member) };

    /// The member of a name.
    fn member_named(&mut self, name: &str) -> Result<Option<Member>, KeepFault>
        ensures answers { IsAnswered content is_failed is_honest may_leave self.old self.new result
            (λ t v. v ≡ member_named t name.now) (MemberFitsNamed name.now) }
        ensures fits { IfOk result (λ v. IfSome v MemberFits) };

    /// The category of a number.
    fn category(&mut self, category: u64) -> Result<Option<Category>, KeepFault>
        ensures answers { IsAnswered content is_failed is_honest may_leave self.old self.new result
            (λ t v. v ≡ category_at t category) (CategoryFitsAt category) }
        ensures fits { IfOk result (λ v. IfSome v CategoryFits) };

    /// Whether there is a category of a number.
    fn has_category(&mut self, category: u64) -> Result<bool, KeepFault>
        ensures answers { IsAnswered content is_failed is_honest may_leave self.old self.new result
            (λ t v. v ≡ is_some (category_at t category)) (CategoryFitsAt category) }
        ensures fits { IfOk result (λ v. v ≡ true → IsWithin 1 most_categories category) };

    /// The category of a name.
    fn category_named(&mut self, name: &str) -> Result<Option<Category>, KeepFault>
        ensures answers { IsAnswered content is_failed is_honest may_leave self.old self.new result
            (λ t v. v ≡ category_named t name.now) (CategoryFitsNamed name.now) }
        ensures fits { IfOk result (λ v. IfSome v CategoryFits) };

    /// An item.
    fn item(&mut self, item: u64) -> Result<Option<Item>, KeepFault>
        ensures answers { IsAnswered content is_failed is_honest may_leave self.old self.new result
            (λ t v. v ≡ item_at t item) (ItemFitsAt item) }
        ensures fits { IfOk result (λ v. IfSome v ItemFits) }
        ensures is_consistent { is_honest self.new → ItemConsistent (content self.old) result }
        ensures kept { is_honest self.new → OnOk result
            (IfSome (row_at (content self.old) item) (IsKeptRow (content self.old))) };

    /// An item without its texts.
    fn terms(&mut self, item: u64) -> Result<Option<Terms>, KeepFault>
        ensures answers { IsAnswered content is_failed is_honest may_leave self.old self.new result
            (λ t v. v ≡ terms_at t item) (ItemFitsAt item) }
        ensures fits { IfOk result (λ v. IfSome v TermsFit) }
        ensures is_consistent { is_honest self.new → TermsConsistent (content self.old) result }
        ensures kept { is_honest self.new → OnOk result
            (IfSome (row_at (content self.old) item) (IsKeptRow (content self.old))) };

    /// The number of a seller's item with a lot.
    fn item_of(&mut self, seller: u64, lot: &str) -> Result<Option<u32>, KeepFault>
        ensures answers { IsAnswered content is_failed is_honest may_leave self.old self.new result
            (λ t v. v ≡ item_with_lot t seller lot.now) (ItemIsOurs seller lot.now) }
        ensures fits { IfOk result (λ v. IfSome v IsItem) };

    /// The standing of an item's bids; of a bought item that of none.
    fn standing(&mut self, item: u64) -> Result<Option<Standing>, KeepFault>
        ensures answers { IsAnswered content is_failed is_honest may_leave self.old self.new result
            (λ t v. v ≡ standing_at t item) (ItemFitsAt item) }
        ensures fits { IfOk result (λ v. IfSome v StandingFits) }
        ensures kept { is_honest self.new → OnOk result
            (IfSome (row_at (content self.old) item) (IsKeptRow (content self.old))) };

    /// An item without its texts, with the standing of its bids; of a bought item that of none.
    fn auction(&mut self, item: u64) -> Result<Option<Auction>, KeepFault>
        ensures answers { IsAnswered content is_failed is_honest may_leave self.old self.new result
            (λ t v. v ≡ auction_at t item) (ItemFitsAt item) }
        ensures fits { IfOk result (λ v. IfSome v (λ a. TermsFit a.terms × StandingFits a.standing)) }
        ensures is_consistent { is_honest self.new → AuctionConsistent (content self.old) result }
        ensures kept { is_honest self.new → OnOk result
            (IfSome (row_at (content self.old) item) (IsKeptRow (content self.old))) };

    /// A member's greatest maximum on an item, or 0, and the number of its bids there.
    fn own_best(&mut self, item: u64, member: u64) -> Result<OwnBest, KeepFault>
        ensures { IsAnswered content is_failed is_honest may_leave self.old self.new result
            (λ t v. v ≡ best_of t member item) (OwnBidsFitOn item member) };

    /// Whether a member watches an item.
    fn watched(&mut self, member: u64, item: u64) -> Result<bool, KeepFault>
        ensures { IsAnswered content is_failed is_honest may_leave self.old self.new result
            (λ t v. v ≡ is_watched t member item) (λ _. ⊤) };

    /// How many items a member watches.
    fn watch_count(&mut self, member: u64) -> Result<u64, KeepFault>
        ensures { IsAnswered content is_failed is_honest may_leave self.old self.new result
            (λ t v. v ≡ watch_count t member) (WatchesFit member) };

    /// How many questions a member has asked on an item.
    fn ask_count(&mut self, item: u64, asker: u64) -> Result<u64, KeepFault>
        ensures { IsAnswered content is_failed is_honest may_leave self.old self.new result
            (λ t v. v ≡ ask_count t asker item) (λ _. ⊤) };

    /// A question, by its item, asker and number.
    fn question(
        &mut self,
        item: u64,
        asker: u64,
        number: u64,
    ) -> Result<Option<Question>, KeepFault>
        ensures answers { IsAnswered content is_failed is_honest may_leave self.old self.new result
            (λ t v. v ≡ question_at t item asker number) (QuestionFitsAt item asker number) }
        ensures fits { IfOk result (λ v. IfSome v QuestionFits) };

    /// Whether a member has given feedback on an item.
    fn given(&mut self, item: u64, giver: u64) -> Result<bool, KeepFault>
        ensures { IsAnswered content is_failed is_honest may_leave self.old self.new result
            (λ t v. v ≡ is_given t item giver) (FeedbackFitsFrom giver) };

    /// How often a member was rated with each rating.
    fn ratings(&mut self, member: u64) -> Result<Ratings, KeepFault>
        ensures answers { IsAnswered content is_failed is_honest may_leave self.old self.new result
            (λ t v. v ≡ ratings_of t.feedback member) (FeedbackFitsTo member) }
        ensures fits { is_honest self.new
            → OnOk result (FeedbackFitsTo member (content self.old)) };

    /// How many items a close at the moment would leave sold, and how many unsold.
    fn due(&mut self, moment: u64) -> Result<Due, KeepFault>
        ensures answers { IsAnswered content is_failed is_honest may_leave self.old self.new result
            (λ t v. v ≡ due_at t moment) (DueItemsFit moment) }
        ensures is_consistent { is_honest self.new
            → DueConsistent moment (content self.old) result }
        ensures kept { is_honest self.new → DueKept moment (content self.old) result };

    /// The items of a category, from a number on; at most fifty.
    fn items_in(&mut self, category: u64, from: u64) -> Result<Vec<Item>, KeepFault>
        ensures answers { IsAnswered content is_failed is_honest may_leave self.old self.new result
            (λ t v. v.items ≡ items_in t category from) (CategoryItemsFit category from) }
        ensures fits { IfOk result (λ v. AllByRecursion ItemFits v.items) }
        ensures is_consistent { is_honest self.new → ItemsConsistent (content self.old) result }
        ensures kept { is_honest self.new → OnOk result
            (AllByRecursion (IsKeptRow (content self.old)) (take most_shown
            (filter (λ row. (row.item.terms.category == category)
            && nat_le (start_of from) row.item.terms.item) (content self.old).items))) };

    /// The items on which a member has bid, from a number on; at most fifty.
    fn bids_of(&mut self, member: u64, from: u64) -> Result<Vec<OwnBid>, KeepFault>
        ensures answers { IsAnswered content is_failed is_honest may_leave self.old self.new result
            (λ t v. v.items ≡ own_bids t member from) (OwnBidsFit member from) }
        ensures fits { IfOk result (λ v. AllByRecursion OwnBidFits v.items) }
        ensures is_consistent { is_honest self.new → OwnBidsConsistent (content self.old) result }
        ensures kept { is_honest self.new → OwnBidsKept (content self.old) result };

    /// The reserve of an item, which is sealed.
    fn reserve(&mut self, item: u64) -> Result<Option<Cents>, KeepFault>
        ensures answers { IsAnswered content is_failed is_honest may_leave self.old self.new result
            (λ t v. v ≡ reserve_at t item) (ItemFitsAt item) }
        ensures kept { is_honest self.new → OnOk result
            (IfSome (row_at (content self.old) item) (IsKeptRow (content self.old))) };

    /// A member's reserves on what it sells, from an item on; at most fifty.
    fn reserves_of(&mut self, member: u64, from: u64) -> Result<Vec<OwnReserve>, KeepFault>
        ensures answers { IsAnswered content is_failed is_honest may_leave self.old self.new result
            (λ t v. v.items ≡ own_reserves t member from) (OwnReservesFit member from) }
        ensures fits { IfOk result (λ v. AllByRecursion OwnReserveFits v.items) }
        ensures kept { is_honest self.new → OnOk result
            (AllByRecursion (IsKeptRow (content self.old)) (take most_shown
            (filter (has_own_reserve member from) (content self.old).items))) };

    /// The published questions on an item, from an asker on, by asker and number; at most fifty.
    fn published(&mut self, item: u64, from: u64) -> Result<Vec<Question>, KeepFault>
        ensures answers { IsAnswered content is_failed is_honest may_leave self.old self.new result
            (λ t v. v.items ≡ published_on t item from) (FirstPublishedFit item from) }
        ensures fits { IfOk result (λ v. AllByRecursion QuestionFits v.items) };

    /// A member's own questions, from an item on, by item and number; at most fifty.
    fn questions_of(&mut self, member: u64, from: u64) -> Result<Vec<Question>, KeepFault>
        ensures answers { IsAnswered content is_failed is_honest may_leave self.old self.new result
            (λ t v. v.items ≡ questions_of t member from) (FirstAskedFit member from) }
        ensures fits { IfOk result (λ v. AllByRecursion QuestionFits v.items) };

    /// The feedback to a member, from an item on; at most fifty.
    fn feedback_for(&mut self, member: u64, from: u64) -> Result<Vec<Feedback>, KeepFault>
        ensures answers { IsAnswered content is_failed is_honest may_leave self.old self.new result
            (λ t v. v.items ≡ feedback_to t member from) (FirstGivenFit member from) }
        ensures fits { IfOk result (λ v. AllByRecursion FeedbackFits v.items) };

    /// All categories, by number.
    fn categories(&mut self) -> Result<Vec<Category>, KeepFault>
        ensures answers { IsAnswered content is_failed is_honest may_leave self.old self.new result
            (λ t v. v.items ≡ t.categories) (λ t. AllByRecursion CategoryFits t.categories) }
        ensures fits { IfOk result (λ v. AllByRecursion CategoryFits v.items) };

    /// All members, by number.
    fn members(&mut self) -> Result<Vec<Member>, KeepFault>
        ensures answers { IsAnswered content is_failed is_honest may_leave self.old self.new result
            (λ t v. v.items ≡ t.members) (λ t. AllByRecursion MemberFits t.members) }
        ensures fits { IfOk result (λ v. AllByRecursion MemberFits v.items) };

    /// All items, by number.
    fn items(&mut self) -> Result<Vec<Item>, KeepFault>
        ensures answers { IsAnswered content is_failed is_honest may_leave self.old self.new result
            (λ t v. v.items ≡ all_items t) (λ t. AllByRecursion (RowFits t) t.items) }
        ensures fits { IfOk result (λ v. AllByRecursion ItemFits v.items) }
        ensures is_consistent { is_honest self.new → ItemsConsistent (content self.old) result }
        ensures kept { is_honest self.new → OnOk result
            (AllByRecursion (IsKeptRow (content self.old)) (content self.old).items) };

    /// All published questions, by item, asker and number.
    fn all_published(&mut self) -> Result<Vec<Question>, KeepFault>
        ensures answers { IsAnswered content is_failed is_honest may_leave self.old self.new result
            (λ t v. v.items ≡ all_published t) AllPublishedFit }
        ensures fits { IfOk result (λ v. AllByRecursion QuestionFits v.items) };

    /// All feedback, by item and giver.
    fn all_feedback(&mut self) -> Result<Vec<Feedback>, KeepFault>
        ensures answers { IsAnswered content is_failed is_honest may_leave self.old self.new result
            (λ t v. v.items ≡ t.feedback) (λ t. AllByRecursion FeedbackFits t.feedback) }
        ensures fits { IfOk result (λ v. AllByRecursion FeedbackFits v.items) };

    /// The items that a member watches, by number.
    fn watches_of(&mut self, member: u64) -> Result<Vec<Item>, KeepFault>
        ensures answers { IsAnswered content is_failed is_honest may_leave self.old self.new result
            (λ t v. v.items ≡ items_watched t member) (WatchedFit member) }
        ensures fits { IfOk result (λ v. AllByRecursion ItemFits v.items) }
        ensures is_consistent { is_honest self.new → ItemsConsistent (content self.old) result }
        ensures kept { is_honest self.new
            → OnOk result (AreKeptWatched member (content self.old)) };

    /// The questions that wait for a member's answer, by item, asker and number.
    fn waiting_for(&mut self, member: u64) -> Result<Vec<Question>, KeepFault>
        ensures answers { IsAnswered content is_failed is_honest may_leave self.old self.new result
            (λ t v. v.items ≡ waiting_for t member) (AllWaitingFit member) }
        ensures fits { IfOk result (λ v. AllByRecursion QuestionFits v.items) }
        ensures is_consistent { is_honest self.new → AskedConsistent (content self.old) result }
        ensures kept { is_honest self.new → SellerKept member (content self.old) result };

    /// At most fifty of the questions that wait for a member's answer, by item, asker and number.
    fn first_waiting(&mut self, member: u64) -> Result<Vec<Question>, KeepFault>
        ensures answers { IsAnswered content is_failed is_honest may_leave self.old self.new result
            (λ t v. v.items ≡ first_waiting t member) (FirstWaitingFit member) }
        ensures fits { IfOk result (λ v. AllByRecursion QuestionFits v.items) }
        ensures is_consistent { is_honest self.new → AskedConsistent (content self.old) result }
        ensures kept { is_honest self.new → SellerKept member (content self.old) result };

    /// The sales to which a member is a party, by item.
    fn sold_of(&mut self, member: u64) -> Result<Vec<Sold>, KeepFault>
        ensures answers { IsAnswered content is_failed is_honest may_leave self.old self.new result
            (λ t v. v.items ≡ sales_to t member) (SalesFit member) }
        ensures is_consistent { is_honest self.new
            → SalesConsistent member (content self.old) result }
        ensures kept { is_honest self.new → SalesKept member (content self.old) result }
        ensures fits { IfOk result (λ v. All IsSale v.items) }
        ensures apart { IfOk result (λ v. AllPairs (λ a b. a.item ≢ b.item) v.items) }
        ensures few { IfOk result (λ v. length v.items ≤ most_items) };

    /// Makes a change, whole or not at all. Of a change that fits the tables Damaged is answered
    /// only where a row that it takes doesn't fit, whatever else is wrong with the tables, or where
    /// the new key of a change other than a watch is taken.
    fn apply(&mut self, change: &Change<'_>) -> Result<(), KeepFault>
        requires fits { is_honest self.old → AreSound (content self.old)
            → ChangeFits (content self.old) change.now }
        ensures { IsApplied content is_failed is_honest may_leave self.old self.new result
            change.now };
}
