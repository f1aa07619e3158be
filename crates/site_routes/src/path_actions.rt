//! The actions of a path, by the methods that ask for them.

ghost use Rattle.std.specs.Prelude.{◌≡◌};
ghost use Rattle.site_routes.specs.PathActions.{allow_of, browsed, id_of, item_read, kind_actions, actions_of, user_read};

use crate::site_route::SiteRoute;
use auction_calls::FormKind;
use decimal_digits::plain_number;

/// The greatest id of a category, an item or a user.
pub const MAX_ID: u64 = 4_294_967_295;

/// One of the sixteen actions, with what a path says of it.
#[derive(Clone, Copy)]
pub enum SiteAction {
    /// The first page, at `/`.
    Home,
    /// Become a user.
    Register,
    /// Sign in.
    SignIn,
    /// Sign out.
    SignOut,
    /// The list of categories.
    Categories,
    /// A category more.
    AddCategory,
    /// The items of a category.
    Browse { category: u32 },
    /// The page of an item.
    Item { item: u32 },
    /// The page of a user.
    User { user: u32 },
    /// The last items of the user who asks.
    About,
    /// Offer an item.
    Sell,
    /// Bid on an item.
    Bid,
    /// Buy an item at once.
    Buy,
    /// End the auction of an own item.
    Close,
    /// Say something about the other side of a sale.
    Feedback,
    /// The form of an action.
    Form { kind: FormKind },
}

/// The actions of a path.
#[derive(Clone, Copy)]
pub enum PathActions {
    /// This action, by GET and HEAD.
    Read(SiteAction),
    /// This action, by POST.
    Write(SiteAction),
    /// The first by GET and HEAD, the second by POST.
    Both(SiteAction, SiteAction),
}

/// The id that a text writes: 1 to `MAX_ID` in digits, with no zero before them.
fn id_of(text: &[u8]) -> Option<u32>
    ensures { result ≡ id_of text.now }
{
    let number = plain_number(text)?;
    if number == 0 || number > MAX_ID {
        return None;
    }
    Some(number as u32)
}

/// The page of the category of this id.
fn browsed(id: Option<u32>) -> Option<PathActions>
    ensures { result ≡ browsed id }
{
    let category = id?;
    Some(PathActions::Read(SiteAction::Browse { category }))
}

/// The page of the item of this id.
fn item_read(id: Option<u32>) -> Option<PathActions>
    ensures { result ≡ item_read id }
{
    let item = id?;
    Some(PathActions::Read(SiteAction::Item { item }))
}

/// The page of the user of this id.
fn user_read(id: Option<u32>) -> Option<PathActions>
    ensures { result ≡ user_read id }
{
    let user = id?;
    Some(PathActions::Read(SiteAction::User { user }))
}

/// The form of this kind.
fn kind_actions(kind: Option<FormKind>) -> Option<PathActions>
    ensures { result ≡ kind_actions kind }
{
    let kind = kind?;
    Some(PathActions::Read(SiteAction::Form { kind }))
}

/// The actions of a path that takes a route, where this text stands for its parameter. None where it has a parameter,
/// and the text is neither an id nor the word of a form.
pub fn actions_of(route: SiteRoute, text: &[u8]) -> Option<PathActions>
    ensures { result ≡ actions_of route text.now }
{
    match route {
        SiteRoute::Home => Some(PathActions::Read(SiteAction::Home)),
        SiteRoute::Register => Some(PathActions::Write(SiteAction::Register)),
        SiteRoute::SignIn => Some(PathActions::Write(SiteAction::SignIn)),
        SiteRoute::SignOut => Some(PathActions::Write(SiteAction::SignOut)),
        SiteRoute::Categories => {
            Some(PathActions::Both(SiteAction::Categories, SiteAction::AddCategory))
        }
        SiteRoute::Category => browsed(id_of(text)),
        SiteRoute::Item => item_read(id_of(text)),
        SiteRoute::User => user_read(id_of(text)),
        SiteRoute::About => Some(PathActions::Read(SiteAction::About)),
        SiteRoute::Sell => Some(PathActions::Write(SiteAction::Sell)),
        SiteRoute::Bid => Some(PathActions::Write(SiteAction::Bid)),
        SiteRoute::Buy => Some(PathActions::Write(SiteAction::Buy)),
        SiteRoute::Close => Some(PathActions::Write(SiteAction::Close)),
        SiteRoute::Feedback => Some(PathActions::Write(SiteAction::Feedback)),
        SiteRoute::Form => kind_actions(FormKind::of(text)),
    }
}

impl PathActions {
    /// The methods of the path, as `ExtraFields` counts them: 1 is GET and HEAD, 2 is POST, and 3 is all three.
    pub fn allow(self) -> u8
        ensures { result ≡ allow_of self }
    {
        match self {
            PathActions::Read(_) => 1,
            PathActions::Write(_) => 2,
            PathActions::Both(_, _) => 3,
        }
    }
}
