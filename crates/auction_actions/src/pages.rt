//! Pages that no row is read for: the first page, the forms, and signing out.

ghost use Rattle.std.specs.Prelude.{◌≡◌, [], ◌∷◌, ◌++◌, codes, IfOk, OnOk};
ghost use Rattle.auction_calls.specs.declared.action.FormKind.TheVariants.{Sell};
ghost use Rattle.auction_site.specs.Outcomes.{form_address, form_fields, form_line, form_shown, home, home_text, signed_out};

use action_plans::Outcome;
use auction_calls::FormKind;
use auction_pieces::{answered, numbered_text, shows, shows_with_session};
use crash_base::{FieldText, Moment, OutOfMemory};
use page_text::{FieldNameList, PageLine, PageLineList};
use std::alloc::Global;

/// Who is signed in.
fn home_text(alloc: Global, user: u32) -> Result<FieldText, OutOfMemory>
    ensures { IfOk result (λ text. text ≡ home_text user) }
{
    if user == 0 {
        return FieldText::copied(alloc, b"Signed out");
    }
    numbered_text(alloc, "User ", u64::from(user))
}

/// The first page. It reads no row, and writes none.
pub fn home(alloc: Global, user: u32) -> Result<Outcome, OutOfMemory>
    ensures { IfOk result (λ outcome. outcome ≡ home user) }
{
    let mut lines = PageLineList::new(alloc);
    lines.push(PageLine::Para {
        text: home_text(alloc, user)?,
    })?;
    lines.push(PageLine::Link {
        address: FieldText::copied(alloc, b"/categories")?,
        text: FieldText::copied(alloc, b"Categories")?,
    })?;
    let done = shows(alloc, 200, b"Auctions", &lines)?;
    Ok(answered(alloc, done))
}

/// The session becomes that of no user. It reads no row, and writes none.
pub fn signed_out(alloc: Global, now: Moment) -> Result<Outcome, OutOfMemory>
    ensures { IfOk result (λ outcome. outcome ≡ signed_out now.0) }
{
    let done = shows_with_session(alloc, 0, now, b"Signed out", &PageLineList::new(alloc))?;
    Ok(answered(alloc, done))
}

/// Where a form is sent.
fn form_address(alloc: Global, kind: FormKind) -> Result<FieldText, OutOfMemory>
    ensures { IfOk result (λ address. address ≡ form_address kind) }
{
    match kind {
        FormKind::Register => FieldText::copied(alloc, b"/register"),
        FormKind::SignIn => FieldText::copied(alloc, b"/signin"),
        FormKind::SignOut => FieldText::copied(alloc, b"/signout"),
        FormKind::Category => FieldText::copied(alloc, b"/categories"),
        FormKind::Sell => FieldText::copied(alloc, b"/sell"),
        FormKind::Bid => FieldText::copied(alloc, b"/bid"),
        FormKind::Buy => FieldText::copied(alloc, b"/buy"),
        FormKind::Close => FieldText::copied(alloc, b"/close"),
        FormKind::Feedback => FieldText::copied(alloc, b"/feedback"),
    }
}

/// Adds the name of a field.
fn add_field(alloc: Global, names: &mut FieldNameList, name: &[u8]) -> Result<(), OutOfMemory>
    ensures { OnOk result (names.new ≡ names.old ++ name.now ∷ []) }
{
    names.push(FieldText::copied(alloc, name)?)
}

/// One name.
fn one_name(alloc: Global, name: &[u8]) -> Result<FieldNameList, OutOfMemory>
    ensures { IfOk result (λ names. names ≡ name.now ∷ []) }
{
    let mut names = FieldNameList::new(alloc);
    add_field(alloc, &mut names, name)?;
    Ok(names)
}

/// Two names.
fn two_names(alloc: Global, first: &[u8], second: &[u8]) -> Result<FieldNameList, OutOfMemory>
    ensures { IfOk result (λ names. names ≡ first.now ∷ second.now ∷ []) }
{
    let mut names = one_name(alloc, first)?;
    add_field(alloc, &mut names, second)?;
    Ok(names)
}

/// Three names.
fn three_names(
    alloc: Global,
    first: &[u8],
    second: &[u8],
    third: &[u8],
) -> Result<FieldNameList, OutOfMemory>
    ensures { IfOk result (λ names. names ≡ first.now ∷ second.now ∷ third.now ∷ []) }
{
    let mut names = two_names(alloc, first, second)?;
    add_field(alloc, &mut names, third)?;
    Ok(names)
}

/// The names of the fields of an offer.
fn offer_fields(alloc: Global) -> Result<FieldNameList, OutOfMemory>
    ensures { IfOk result (λ names. names ≡ form_fields Sell) }
{
    let mut names = three_names(alloc, b"title", b"category", b"start")?;
    add_field(alloc, &mut names, b"buy_now")?;
    add_field(alloc, &mut names, b"hours")?;
    Ok(names)
}

/// The names of the fields of a form.
fn form_fields(alloc: Global, kind: FormKind) -> Result<FieldNameList, OutOfMemory>
    ensures { IfOk result (λ names. names ≡ form_fields kind) }
{
    match kind {
        FormKind::Register | FormKind::SignIn => two_names(alloc, b"name", b"password"),
        FormKind::SignOut => Ok(FieldNameList::new(alloc)),
        FormKind::Category => one_name(alloc, b"name"),
        FormKind::Sell => offer_fields(alloc),
        FormKind::Bid => two_names(alloc, b"item", b"amount"),
        FormKind::Buy | FormKind::Close => one_name(alloc, b"item"),
        FormKind::Feedback => three_names(alloc, b"item", b"good", b"text"),
    }
}

/// The line of a form, with its token.
fn form_line(alloc: Global, kind: FormKind, token: &[u8]) -> Result<PageLine, OutOfMemory>
    ensures { IfOk result (λ line. line ≡ form_line kind token.now) }
{
    Ok(PageLine::Form {
        address: form_address(alloc, kind)?,
        token: FieldText::copied(alloc, token)?,
        fields: form_fields(alloc, kind)?,
    })
}

/// A form with its token. Whoever is not signed in gets a session of no user. It reads no row, and writes none.
pub fn form_shown(
    alloc: Global,
    user: u32,
    now: Moment,
    token: &[u8],
    kind: FormKind,
) -> Result<Outcome, OutOfMemory>
    ensures { IfOk result (λ outcome. outcome ≡ form_shown user now.0 token.now kind) }
{
    let mut heading = Vec::new(alloc);
    heading.extend_from_slice(b"Form ")?;
    heading.extend_from_slice(kind.word().as_bytes())?;
    let mut lines = PageLineList::new(alloc);
    lines.push(form_line(alloc, kind, token)?)?;
    let done = if user == 0 {
        shows_with_session(alloc, 0, now, heading.as_slice(), &lines)?
    } else {
        shows(alloc, 200, heading.as_slice(), &lines)?
    };
    Ok(answered(alloc, done))
}
