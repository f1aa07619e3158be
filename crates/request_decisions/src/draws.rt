//! What is drawn for a request.

ghost use Rattle.std.specs.Prelude.{◌≡◌, [], ◌∷◌, ◌++◌, IfOk, OnOk};
ghost use Rattle.request_decisions.specs.Counts.{is_kind, kind_number};
ghost use Rattle.request_decisions.specs.Draws.{begins_session, drawn_for, is_serial, shows_form, where_so};
ghost use Rattle.request_decisions.specs.declared.draws.DrawKind.TheVariants.{KeyWord};

use crate::decision::Order;
use auction_calls::Action;
use crash_base::{Items, OutOfMemory};
use std::alloc::Global;

/// What is drawn for a request: a serial number, but for `KeyWord` and `Fresh`, which are random words.
#[derive(Clone, Copy)]
pub enum DrawKind {
    /// The number of a GET.
    Request,
    /// The number of the token that a form shows.
    Token,
    /// One of the two words of the key of a new session.
    KeyWord,
    /// The word that an action may use, as for the salt of a password.
    Fresh,
    /// The nonce with which the session is read.
    Read,
    /// The nonce with which the session is written, if it is.
    Write,
}

/// What is drawn for a request, in order.
pub type DrawList = Items<DrawKind>;

/// A number that was drawn, and for what.
#[derive(Clone, Copy)]
pub struct Draw {
    pub kind: DrawKind,
    pub number: u64,
}

/// What was drawn for a request, in order.
pub type DrawnList = Items<Draw>;

/// The number of a kind of draw.
fn kind_number(kind: DrawKind) -> u8
    ensures { result ≡ kind_number kind }
{
    match kind {
        DrawKind::Request => 0,
        DrawKind::Token => 1,
        DrawKind::KeyWord => 2,
        DrawKind::Fresh => 3,
        DrawKind::Read => 4,
        DrawKind::Write => 5,
    }
}

impl DrawKind {
    /// Whether a serial number is drawn, which may be spent, and not a random word.
    pub fn is_serial(self) -> bool
        ensures { result ≡ is_serial self }
    {
        match self {
            DrawKind::Request | DrawKind::Token | DrawKind::Read | DrawKind::Write => true,
            DrawKind::KeyWord | DrawKind::Fresh => false,
        }
    }

    /// Whether two kinds are one.
    pub(crate) fn is(self, other: DrawKind) -> bool
        ensures { result ≡ is_kind self other }
    {
        kind_number(self) == kind_number(other)
    }
}

/// Whether an action shows a form.
pub(crate) fn shows_form(action: &Action) -> bool
    ensures { result ≡ shows_form action.now }
{
    match action {
        Action::Form { kind: _ } => true,
        Action::Home
        | Action::Register {
            name: _,
            password: _,
        }
        | Action::SignIn {
            name: _,
            password: _,
        }
        | Action::SignOut
        | Action::Categories
        | Action::AddCategory { name: _ }
        | Action::Browse {
            category: _,
            page: _,
        }
        | Action::Item { item: _ }
        | Action::User { user: _ }
        | Action::About
        | Action::Sell {
            title: _,
            category: _,
            start: _,
            buy_now: _,
            hours: _,
        }
        | Action::Bid { item: _, amount: _ }
        | Action::Buy { item: _ }
        | Action::Close { item: _ }
        | Action::Feedback {
            item: _,
            good: _,
            text: _,
        } => false,
    }
}

/// Whether a new session begins.
fn begins_session(order: &Order) -> bool
    ensures { result ≡ begins_session order.now }
{
    shows_form(&order.action) && order.cookie.is_none()
}

/// Adds a draw where a test holds.
fn add_where(draws: &mut Vec<DrawKind>, test: bool, kind: DrawKind) -> Result<(), OutOfMemory>
    ensures { OnOk result (draws.new.items ≡ draws.old.items ++ where_so test (kind ∷ [])) }
{
    if test {
        draws.push(kind)?;
    }
    Ok(())
}

/// Adds the two words of a key where a session begins.
fn add_key(draws: &mut Vec<DrawKind>, begins: bool) -> Result<(), OutOfMemory>
    ensures { OnOk result (draws.new.items ≡ draws.old.items ++ where_so begins (KeyWord ∷ KeyWord ∷ [])) }
{
    if begins {
        draws.push(DrawKind::KeyWord)?;
        draws.push(DrawKind::KeyWord)?;
    }
    Ok(())
}

/// What is drawn for an order, in the order of the draws: the number of a GET; the number of the token of a form; the
/// two words of the key of a new session; the fresh word; the nonce of a read, where the request bears a cookie; and
/// the nonce of a write. There are at most 6.
///
/// It fails only where memory ran out.
#[tactic(auto, unfolding(crate::specs::Draws::drawn_for))]
pub fn draws_for(alloc: Global, order: &Order) -> Result<DrawList, OutOfMemory>
    ensures { IfOk result (λ draws. draws ≡ drawn_for order.now) }
{
    let mut draws = Vec::with_capacity(alloc, 6)?;
    add_where(&mut draws, order.number.is_none(), DrawKind::Request)?;
    add_where(&mut draws, shows_form(&order.action), DrawKind::Token)?;
    add_key(&mut draws, begins_session(order))?;
    draws.push(DrawKind::Fresh)?;
    add_where(&mut draws, order.cookie.is_some(), DrawKind::Read)?;
    draws.push(DrawKind::Write)?;
    Ok(DrawList::from_vec(draws))
}
