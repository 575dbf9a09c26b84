//! Editions of the band table: an item goes by that of its listing.
ghost use Rattle.std.specs.Prelude.{◌≡◌, ◌∷◌, ℕ, List, false, Some};
ghost use Rattle.steps.specs.Table.{Band, IsBandTable};
ghost use Rattle.house_rows.specs.declared.command.Command.TheVariants.{SetBands};
ghost use Rattle.house_rows.specs.declared.query.Query.{Query};
ghost use Rattle.house_rows.specs.declared.settings.Settings.{Settings};
ghost use Rattle.house_rows.specs.Editions.{editions, table_of};
ghost use Rattle.house_rows.specs.History.{History};
ghost use Rattle.house_rows.specs.Items.{items_shown};
ghost use Rattle.house_rows.specs.Listings.{Listing, bands_by, edition_by, listing_at, listings, tables_set};
ghost use Rattle.house_rows.specs.Pages.{page_of};
ghost use Rattle.house_rows.specs.Runs.{entry};
ghost use Rattle.house_rows.specs.Tables.{bands_for, edition_for, tables_of};
ghost use Rattle.house_rows.specs.Verdict.{IsHistory};
ghost use Rattle.house_rows.specs.Views.{public_view};
ghost use Rattle.house_laws.specs.EditionRows.{EachItemKeepsItsTable, NewTableIsForNewItems};
ghost use Rattle.house_laws.specs.EditionRows.{NextItemGoesByTheNewest, TablesAreJudged};
ghost use Rattle.house_laws.specs.EditionRows.{TablesAreShown};
ghost use Rattle.house_laws.specs.Reads.{tells_clock_or_bands};

/// A band table that is set changes nothing that anybody sees of any item: price, floor, leader, state
/// and edition of each stay. Nor does it change any page but those that show the clock or a table.
#[tactic(auto, using(crate::proofs::Still::items_still, crate::proofs::Still::pages_still))]
pub fn new_tables_leave_items()
    ensures items { (settings : Settings) (h : History) (moment caller : ℕ) (bands : List Band)
        → items_shown settings (entry moment caller (SetBands bands) ∷ h) ≡ items_shown settings h }
    ensures pages { (settings : Settings) (h : History) (moment caller : ℕ) (bands : List Band) (reader : ℕ) (query : Query)
        → tells_clock_or_bands query ≡ false
        → page_of settings (entry moment caller (SetBands bands) ∷ h) reader query ≡ page_of settings h reader query }
{}

/// The band table of a listed item is valid, and is that of its edition; and by the tables it has that
/// edition and that band table, whatever was set since.
#[tactic(auto, using(house_rows::proofs::Rebuilt::table_is_of))]
pub fn items_keep_their_tables()
    ensures valid { (settings : Settings) (h : History) (l : Listing)
        → IsBandTable settings.bands → IsHistory settings h → listing_at (listings h) l.item ≡ Some l
        → IsBandTable (bands_by settings l) }
    ensures of_edition { (settings : Settings) (h : History) (l : Listing) → listing_at (listings h) l.item ≡ Some l
        → table_of settings.bands (tables_set h) (edition_by l) ≡ Some (bands_by settings l) }
    ensures bands { (settings : Settings) (h : History) (l : Listing) → listing_at (listings h) l.item ≡ Some l
        → bands_for (tables_of settings h) l.item ≡ bands_by settings l }
    ensures edition { (settings : Settings) (h : History) (l : Listing) → listing_at (listings h) l.item ≡ Some l
        → edition_for (tables_of settings h) l.item ≡ edition_by l }
{}

/// Where the same is public, the editions are the same, with the numbers of the items that they begin
/// with, though these are not shown.
#[tactic(auto, using(house_rows::proofs::Rebuilt::editions_same))]
pub fn editions_are_public()
    ensures { (settings : Settings) (h k : History) → public_view settings h ≡ public_view settings k → editions h ≡ editions k }
{}

/// The definitions give the values that were worked out by hand for tables that the house sets;
/// `specs/EditionRows.antt` has them.
pub fn editions_of_tables()
    ensures new_table_is_for_new_items { NewTableIsForNewItems }
    ensures each_item_keeps_its_table { EachItemKeepsItsTable }
    ensures tables_are_judged { TablesAreJudged }
    ensures next_item_goes_by_the_newest { NextItemGoesByTheNewest }
    ensures tables_are_shown { TablesAreShown }
{}
