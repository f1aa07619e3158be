//! The routes, and what stands behind the text of one.

ghost use Rattle.std.specs.Prelude.{◌≡◌, drop};
ghost use Rattle.site_routes.specs.Inserting.{route_text};
ghost use Rattle.site_routes.specs.PathActions.{text_size};

/// What a path leads to.
#[derive(Clone, Copy)]
pub enum SiteRoute {
    /// `/`
    Home,
    /// `/register`
    Register,
    /// `/signin`
    SignIn,
    /// `/signout`
    SignOut,
    /// `/categories`
    Categories,
    /// `/category/{id}`
    Category,
    /// `/item/{id}`
    Item,
    /// `/user/{id}`
    User,
    /// `/about`
    About,
    /// `/sell`
    Sell,
    /// `/bid`
    Bid,
    /// `/buy`
    Buy,
    /// `/close`
    Close,
    /// `/feedback`
    Feedback,
    /// `/form/{kind}`
    Form,
}

/// The text of a route, where a parameter stands in braces.
pub fn route_text(route: SiteRoute) -> &'static str
    ensures { result.now ≡ route_text route }
{
    match route {
        SiteRoute::Home => "/",
        SiteRoute::Register => "/register",
        SiteRoute::SignIn => "/signin",
        SiteRoute::SignOut => "/signout",
        SiteRoute::Categories => "/categories",
        SiteRoute::Category => "/category/{id}",
        SiteRoute::Item => "/item/{id}",
        SiteRoute::User => "/user/{id}",
        SiteRoute::About => "/about",
        SiteRoute::Sell => "/sell",
        SiteRoute::Bid => "/bid",
        SiteRoute::Buy => "/buy",
        SiteRoute::Close => "/close",
        SiteRoute::Feedback => "/feedback",
        SiteRoute::Form => "/form/{kind}",
    }
}

/// How many bytes a path has before the parameter of its route, and 0 for a route without one.
fn text_size(route: SiteRoute) -> usize
    ensures { result ≡ text_size route }
{
    match route {
        SiteRoute::Category => 10,
        SiteRoute::Item => 6,
        SiteRoute::User => 6,
        SiteRoute::Form => 6,
        _ => 0,
    }
}

/// What stands behind the text of a route with a parameter, in a path that takes it; and else the path.
pub fn parameter(route: SiteRoute, path: &[u8]) -> &[u8]
    ensures { result.now ≡ drop (text_size route) path.now }
{
    let size = text_size(route);
    if size > path.len() {
        return &path[path.len()..];
    }
    &path[size..]
}
