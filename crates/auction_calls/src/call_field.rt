//! The fields of calls that have a range.

ghost use Rattle.std.specs.Prelude.{◌≡◌};
ghost use Rattle.auction_calls.specs.BadFields.{field_text};

/// A field of a call that has a range.
#[derive(Clone, Copy)]
pub enum CallField {
    /// When the request came.
    Moment,
    /// The name of a user or of a category.
    Name,
    Password,
    Category,
    Page,
    Item,
    User,
    Title,
    Start,
    BuyNow,
    Hours,
    /// What is bid.
    Amount,
    /// What is said in feedback.
    Text,
}

impl CallField {
    /// The name of a field, as forms have it.
    pub fn word(self) -> &'static str
        ensures { result.now ≡ field_text self }
    {
        match self {
            CallField::Moment => "moment",
            CallField::Name => "name",
            CallField::Password => "password",
            CallField::Category => "category",
            CallField::Page => "page",
            CallField::Item => "item",
            CallField::User => "user",
            CallField::Title => "title",
            CallField::Start => "start",
            CallField::BuyNow => "buy_now",
            CallField::Hours => "hours",
            CallField::Amount => "amount",
            CallField::Text => "text",
        }
    }
}
