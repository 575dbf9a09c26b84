//! The fields of bodies.
ghost use Rattle.std.specs.Prelude.{◌≡◌};
ghost use Rattle.site_request.specs.Fields.{name_of};

/// A field of a body.
#[derive(Clone, Copy)]
pub enum Field {
    /// The name of a member or a category.
    Name,
    /// The number of a category.
    Category,
    /// The seller's own code for an item.
    Lot,
    /// The title of an item.
    Title,
    /// The text of an item, a question, an answer or feedback.
    Text,
    /// The price that bidding begins with.
    Start,
    /// The price for which an item may be bought at once.
    BuyNow,
    /// When an item ends.
    End,
    /// The least for which an item is sold, which is sealed.
    Reserve,
    /// The sealed maximum of a bid.
    Maximum,
    /// The rating of feedback.
    Rating,
    /// The rows of a band table.
    Bands,
}

impl Field {
    /// Its key in the object.
    pub fn name(self) -> &'static str
        ensures { result.now ≡ name_of self }
    {
        match self {
            Field::Name => "name",
            Field::Category => "category",
            Field::Lot => "lot",
            Field::Title => "title",
            Field::Text => "text",
            Field::Start => "start",
            Field::BuyNow => "buy_now",
            Field::End => "end",
            Field::Reserve => "reserve",
            Field::Maximum => "maximum",
            Field::Rating => "rating",
            Field::Bands => "bands",
        }
    }
}
