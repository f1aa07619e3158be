//! The words of forms.

ghost use Rattle.std.specs.Prelude.{◌≡◌};
ghost use Rattle.auction_calls.specs.Reading.{kind_of};
ghost use Rattle.auction_calls.specs.Texts.{kind_text};

use crate::action::FormKind;

impl FormKind {
    /// The word of a form, as a path has it.
    pub fn word(self) -> &'static str
        ensures { result.now ≡ kind_text self }
    {
        match self {
            FormKind::Register => "register",
            FormKind::SignIn => "signin",
            FormKind::SignOut => "signout",
            FormKind::Category => "category",
            FormKind::Sell => "sell",
            FormKind::Bid => "bid",
            FormKind::Buy => "buy",
            FormKind::Close => "close",
            FormKind::Feedback => "feedback",
        }
    }

    /// The form of this word. None exactly where no form has it. It takes no memory.
    #[tactic(auto, unfolding(crate::specs::Reading::kind_of))]
    pub fn of(word: &[u8]) -> Option<FormKind>
        ensures { result ≡ kind_of word.now }
    {
        if word == b"register".as_slice() {
            Some(FormKind::Register)
        } else if word == b"signin".as_slice() {
            Some(FormKind::SignIn)
        } else if word == b"signout".as_slice() {
            Some(FormKind::SignOut)
        } else if word == b"category".as_slice() {
            Some(FormKind::Category)
        } else if word == b"sell".as_slice() {
            Some(FormKind::Sell)
        } else if word == b"bid".as_slice() {
            Some(FormKind::Bid)
        } else if word == b"buy".as_slice() {
            Some(FormKind::Buy)
        } else if word == b"close".as_slice() {
            Some(FormKind::Close)
        } else if word == b"feedback".as_slice() {
            Some(FormKind::Feedback)
        } else {
            None
        }
    }
}
