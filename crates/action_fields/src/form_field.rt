//! The fields of forms.

ghost use Rattle.std.specs.Prelude.{◌≡◌};
ghost use Rattle.action_fields.specs.Names.{field_name};

/// A field of a form, or of a query.
#[derive(Clone, Copy)]
pub enum FormField {
    /// The name of a user or of a category.
    Name,
    Password,
    /// Which page of a category.
    Page,
    /// The title of an item.
    Title,
    Category,
    /// The least bid, in cents.
    Start,
    /// The price of a sale at once, in cents, or 0.
    BuyNow,
    Hours,
    Item,
    /// What is bid, in cents.
    Amount,
    /// Whether a feedback is good.
    Good,
    /// What is said in a feedback.
    Text,
    /// The token of the form, which each form has besides its fields.
    Token,
}

impl FormField {
    /// The name of the field, as forms have it.
    #[tactic(auto, unfolding(crate::specs::Names::field_name))]
    pub fn word(self) -> &'static str
        ensures { result.now ≡ field_name self }
    {
        match self {
            FormField::Name => "name",
            FormField::Password => "password",
            FormField::Page => "page",
            FormField::Title => "title",
            FormField::Category => "category",
            FormField::Start => "start",
            FormField::BuyNow => "buy_now",
            FormField::Hours => "hours",
            FormField::Item => "item",
            FormField::Amount => "amount",
            FormField::Good => "good",
            FormField::Text => "text",
            FormField::Token => "token",
        }
    }
}
