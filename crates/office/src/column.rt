//! The fields of a row of a lot file.
ghost use Rattle.std.specs.Prelude.{◌≡◌};
ghost use Rattle.office.specs.Lots.{column_name};

/// A field of a row of a lot file.
#[derive(Clone, Copy)]
pub enum Column {
    /// The seller's code of the item.
    Lot,
    /// The number of its category.
    Category,
    /// Its title.
    Title,
    /// What is said of it.
    Text,
    /// Where the bids start.
    Start,
    /// The price at which it can be bought at once.
    BuyNow,
    /// The moment at which it ends.
    End,
}

impl Column {
    /// The name that the first record has for it.
    pub fn name(self) -> &'static str
        ensures { result.now ≡ column_name self }
    {
        match self {
            Column::Lot => "lot",
            Column::Category => "category",
            Column::Title => "title",
            Column::Text => "text",
            Column::Start => "start",
            Column::BuyNow => "buy_now",
            Column::End => "end",
        }
    }
}
