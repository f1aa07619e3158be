//! Where each path leads by each method.

use crate::words::{add_number, add_word, cut, expect_words};
use auction_calls::FormKind;
use http_wire::MethodKind;
use site_routes::{Routed, SiteAction, SiteRouter};
use std::alloc::Global;
use std::fmt::Write;
use std::process::Abort;

/// The word of an action whose path says nothing else.
fn plain_word(action: SiteAction) -> &'static str {
    match action {
        SiteAction::Home => "home",
        SiteAction::Register => "register",
        SiteAction::SignIn => "signin",
        SiteAction::SignOut => "signout",
        SiteAction::Categories => "categories",
        SiteAction::AddCategory => "add",
        SiteAction::About => "about",
        SiteAction::Sell => "sell",
        SiteAction::Bid => "bid",
        SiteAction::Buy => "buy",
        SiteAction::Close => "close",
        SiteAction::Feedback => "feedback",
        SiteAction::Browse { .. } => "browse",
        SiteAction::Item { .. } => "item",
        SiteAction::User { .. } => "user",
        SiteAction::Form { .. } => "form",
    }
}

/// Adds an action, and what its path says of it.
fn add_action(rt: &impl Abort, words: &mut String, action: SiteAction) {
    add_word(rt, words, plain_word(action));
    match action {
        SiteAction::Browse { category } => add_number(rt, words, u64::from(category)),
        SiteAction::Item { item } => add_number(rt, words, u64::from(item)),
        SiteAction::User { user } => add_number(rt, words, u64::from(user)),
        SiteAction::Form { kind } => add_word(rt, words, kind.word()),
        _ => {}
    }
}

/// Adds where a path leads by a method, and a `|`.
fn add_routed(
    rt: &impl Abort,
    words: &mut String,
    router: &SiteRouter,
    path: &str,
    method: MethodKind,
) {
    match router.routed(path.as_bytes(), method) {
        Routed::Action(action) => add_action(rt, words, action),
        Routed::NotThere => add_word(rt, words, "404"),
        Routed::NotAllowed { allow } => write!(words, " 405/{allow}").expect(rt, path),
    }
    add_word(rt, words, "|");
}

/// Asserts where a path leads by GET, HEAD, POST and any other method, as PUT.
fn expect_routes(rt: &impl Abort, alloc: Global, router: &SiteRouter, row: &str) {
    let (path, want) = cut(rt, row, ' ');
    let mut words = String::new(alloc);
    add_routed(rt, &mut words, router, path, MethodKind::Get);
    add_routed(rt, &mut words, router, path, MethodKind::HeadOnly);
    add_routed(rt, &mut words, router, path, MethodKind::Post);
    add_routed(rt, &mut words, router, path, MethodKind::Other);
    expect_words(rt, words.as_str(), want, row);
}

/// Paths, and where they lead by each method; then paths that lead nowhere.
const ROUTES: &str = "/ home | home | 405/1 | 405/1 |
/register 405/2 | 405/2 | register | 405/2 |
/signin 405/2 | 405/2 | signin | 405/2 |
/signout 405/2 | 405/2 | signout | 405/2 |
/categories categories | categories | add | 405/3 |
/category/3 browse 3 | browse 3 | 405/1 | 405/1 |
/item/7 item 7 | item 7 | 405/1 | 405/1 |
/user/4294967295 user 4294967295 | user 4294967295 | 405/1 | 405/1 |
/about about | about | 405/1 | 405/1 |
/sell 405/2 | 405/2 | sell | 405/2 |
/bid 405/2 | 405/2 | bid | 405/2 |
/buy 405/2 | 405/2 | buy | 405/2 |
/close 405/2 | 405/2 | close | 405/2 |
/feedback 405/2 | 405/2 | feedback | 405/2 |
/form/register form register | form register | 405/1 | 405/1 |
/form/signin form signin | form signin | 405/1 | 405/1 |
/form/signout form signout | form signout | 405/1 | 405/1 |
/form/category form category | form category | 405/1 | 405/1 |
/form/sell form sell | form sell | 405/1 | 405/1 |
/form/bid form bid | form bid | 405/1 | 405/1 |
/form/buy form buy | form buy | 405/1 | 405/1 |
/form/close form close | form close | 405/1 | 405/1 |
/form/feedback form feedback | form feedback | 405/1 | 405/1 |
 404 | 404 | 404 | 404 |
* 404 | 404 | 404 | 404 |
/nope 404 | 404 | 404 | 404 |
// 404 | 404 | 404 | 404 |
/about/ 404 | 404 | 404 | 404 |
/About 404 | 404 | 404 | 404 |
/item 404 | 404 | 404 | 404 |
/item/ 404 | 404 | 404 | 404 |
/item/0 404 | 404 | 404 | 404 |
/item/07 404 | 404 | 404 | 404 |
/item/7/ 404 | 404 | 404 | 404 |
/item/7/8 404 | 404 | 404 | 404 |
/item/4294967296 404 | 404 | 404 | 404 |
/item/99999999999999999999 404 | 404 | 404 | 404 |
/item/+7 404 | 404 | 404 | 404 |
/item/x 404 | 404 | 404 | 404 |
/user/-1 404 | 404 | 404 | 404 |
/category/%37 404 | 404 | 404 | 404 |
/form/ 404 | 404 | 404 | 404 |
/form/home 404 | 404 | 404 | 404 |
/form/Bid 404 | 404 | 404 | 404 |
http://localhost/ 404 | 404 | 404 | 404 |";

#[test]
fn paths_lead_to_actions_or_nowhere(rt: HostRuntime) {
    let router = SiteRouter::new(rt.alloc()).expect(&rt, "the routes");
    for row in ROUTES.split('\n') {
        expect_routes(&rt, rt.alloc(), &router, row);
    }
}
