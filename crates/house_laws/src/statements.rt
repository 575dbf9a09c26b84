//! What is on members' statements.
ghost use Rattle.std.specs.Prelude.{◌≡◌, ◌≤◌, ◌∷◌, ◌&&◌, ℕ, [], length, true, false, Some, None};
ghost use Rattle.settle.specs.Statement.{is_party, is_within, line_of};
ghost use Rattle.settle.specs.declared.sale.Sold.{Sold};
ghost use Rattle.settle.specs.declared.zone.Zone.{Zone};
ghost use Rattle.house_rows.specs.declared.query.Query.TheVariants.{MyStatement};
ghost use Rattle.house_rows.specs.declared.settings.Settings.{Settings};
ghost use Rattle.house_rows.specs.History.{History};
ghost use Rattle.house_rows.specs.Items.{items_shown, state_of};
ghost use Rattle.house_rows.specs.Listings.{Listing, listing_at, listings};
ghost use Rattle.house_rows.specs.declared.page.Page.TheVariants.{Statement};
ghost use Rattle.house_rows.specs.Pages.{page_of, sales_of};
ghost use Rattle.house_rows.specs.People.{members};
ghost use Rattle.house_rows.specs.Verdict.{IsHistory, was_sold};
ghost use Rattle.house_laws.specs.Statements.{IsSaleOf, lines_on};

/// Each sale of a history has exactly one line on the statements of its two parties for a period in
/// which it was closed, and none on any other; and no statement has a line of anything else. A
/// period is its first and its last civil day in `zone`, as numbers of days since 1970-01-01.
#[tactic(auto, using(crate::proofs::StatementLines::sold_has_sale, crate::proofs::StatementLines::sale_line, crate::proofs::StatementLines::sale_no_line, crate::proofs::StatementLines::unsold_line, crate::proofs::StatementLines::unlisted_line, crate::proofs::StatementLines::statement_read))]
pub fn statements_have_each_sale_once()
    ensures sale { (settings : Settings) (h : History) (l : Listing) → IsHistory settings h
        → listing_at (listings h) l.item ≡ Some l → was_sold (state_of h l) ≡ true
        → (s : Sold) × IsSaleOf settings h l s }
    ensures once { (settings : Settings) (h : History) (member from to : ℕ) (zone : Zone)
        (l : Listing) (s : Sold) → listing_at (listings h) l.item ≡ Some l → IsSaleOf settings h l s
        → is_party member s ≡ true → is_within from to zone s ≡ true
        → lines_on settings h member from to zone l.item ≡ line_of member zone settings.rate s ∷ [] }
    ensures others { (settings : Settings) (h : History) (member from to : ℕ) (zone : Zone)
        (l : Listing) (s : Sold) → listing_at (listings h) l.item ≡ Some l → IsSaleOf settings h l s
        → (is_party member s && is_within from to zone s) ≡ false
        → lines_on settings h member from to zone l.item ≡ [] }
    ensures unsold { (settings : Settings) (h : History) (member from to : ℕ) (zone : Zone)
        (l : Listing) → listing_at (listings h) l.item ≡ Some l → was_sold (state_of h l) ≡ false
        → lines_on settings h member from to zone l.item ≡ [] }
    ensures unlisted { (settings : Settings) (h : History) (member from to item : ℕ) (zone : Zone)
        → listing_at (listings h) item ≡ None → lines_on settings h member from to zone item ≡ [] }
    ensures read { (settings : Settings) (h : History) (member from to : ℕ)
        → 1 ≤ member → member ≤ length (members h)
        → page_of settings h member (MyStatement from to)
        ≡ Statement member from to settings.rate (sales_of (items_shown settings h) member) }
{}
