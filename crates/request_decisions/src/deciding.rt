//! The decisions of a request, in their order.

ghost use Rattle.std.specs.Prelude.{◌≡◌, ◌==◌, IfOk};
ghost use Rattle.std.specs.Option.{option_copied};
ghost use Rattle.request_decisions.specs.Decisions.{IsAccepted, IsAsked, IsByFields, IsByForm, IsByMethod, IsByRoute, IsDecided, IsTokenOf, by_token, ordered, target_path, target_query};
ghost use Rattle.action_fields.specs.Asked.{asked_action};

use crate::decision::{Decision, Order, Refusal};
use action_fields::{FieldError, FormField, asked_action, token_in};
use auction_calls::Action;
use crash_base::{FieldText, OutOfMemory, RequestNo};
use http_wire::{Head, MethodKind, path_and_query};
use session_cookie::{Cookie, CookieRefusal, cookies_decode_back, decode_cookie, read_token};
use site_routes::{Routed, SiteAction, SiteRouter};
use std::alloc::Global;

/// The cookie that a text is under the service's key.
fn accepted(
    alloc: Global,
    key: &[u8],
    text: Option<&FieldText>,
) -> Result<Option<Cookie>, OutOfMemory>
    ensures { IfOk result (λ cookie. IsAccepted key.now (option_copied text.entry) cookie) }
{
    let Some(text) = text else {
        return Ok(None);
    };
    cookies_decode_back();
    match decode_cookie(alloc, key, text.as_slice()) {
        Ok(cookie) => Ok(Some(cookie)),
        Err(CookieRefusal::NotBase64) => Ok(None),
        Err(CookieRefusal::Form) => Ok(None),
        Err(CookieRefusal::Tag) => Ok(None),
        Err(CookieRefusal::OutOfMemory) => Err(OutOfMemory),
    }
}

/// The request whose token a form has, of the session of this cookie.
fn token_of(
    alloc: Global,
    key: &[u8],
    cookie: Option<&Cookie>,
    form: &[u8],
) -> Result<Option<RequestNo>, OutOfMemory>
    ensures { IfOk result (λ token. IsTokenOf key.now (option_copied cookie.entry) form.now token) }
{
    let Some(cookie) = cookie else {
        return Ok(None);
    };
    match token_in(alloc, form) {
        Ok(text) => Ok(read_token(key, cookie.key, text.as_slice())),
        Err(FieldError::Bad(_)) => Ok(None),
        Err(FieldError::OutOfMemory) => Err(OutOfMemory),
    }
}

/// What is decided of a POST, by the request of its token.
fn by_token(boot: u32, action: Action, cookie: Option<Cookie>, token: Option<RequestNo>) -> Decision
    ensures { result ≡ by_token boot action cookie token }
{
    match token {
        None => Decision::Refused(Refusal::BadForm {
            field: FormField::Token,
        }),
        Some(request) => {
            if request.boot == boot {
                Decision::Ordered(Order {
                    action,
                    number: token,
                    cookie,
                })
            } else {
                Decision::Refused(Refusal::StaleForm {
                    token_boot: request.boot,
                    boot,
                })
            }
        }
    }
}

/// What is decided of a request that is no POST.
fn without_token(action: Action, cookie: Option<Cookie>) -> Decision
    ensures { result ≡ ordered action None cookie }
{
    Decision::Ordered(Order {
        action,
        number: None,
        cookie,
    })
}

/// What is decided of a request, by its method.
fn by_method(
    alloc: Global,
    key: &[u8],
    boot: u32,
    head: &Head,
    action: Action,
    cookie: Option<Cookie>,
) -> Result<Decision, OutOfMemory>
    ensures { IfOk result (λ decision.
        IsByMethod key.now boot head.now.method head.now.body action cookie decision) }
{
    match head.method {
        MethodKind::Get => Ok(without_token(action, cookie)),
        MethodKind::HeadOnly => Ok(without_token(action, cookie)),
        MethodKind::Other => Ok(without_token(action, cookie)),
        MethodKind::Post => {
            let token = token_of(alloc, key, cookie.as_ref(), head.body.as_slice())?;
            Ok(by_token(boot, action, cookie, token))
        }
    }
}

/// What is decided of a request whose fields are good.
fn by_cookie(
    alloc: Global,
    key: &[u8],
    boot: u32,
    head: &Head,
    action: Action,
) -> Result<Decision, OutOfMemory>
    ensures { IfOk result (λ decision. IsAsked key.now boot head.now action decision) }
{
    let cookie = accepted(alloc, key, head.cookie.as_ref())?;
    let decision = by_method(alloc, key, boot, head, action, cookie)?;
    Ok(decision)
}

/// What is decided of a request, by its fields.
fn by_fields(
    alloc: Global,
    key: &[u8],
    boot: u32,
    head: &Head,
    asked: SiteAction,
    query: &[u8],
) -> Result<Decision, OutOfMemory>
    ensures { IfOk result (λ decision.
        IsByFields key.now boot head.now (asked_action asked query.now head.now.body) decision) }
{
    match asked_action(alloc, asked, query, head.body.as_slice()) {
        Ok(action) => by_cookie(alloc, key, boot, head, action),
        Err(FieldError::Bad(field)) => Ok(Decision::Refused(Refusal::BadForm { field })),
        Err(FieldError::OutOfMemory) => Err(OutOfMemory),
    }
}

/// What is decided of a request that leads to an action.
fn by_form(
    alloc: Global,
    key: &[u8],
    boot: u32,
    head: &Head,
    asked: SiteAction,
    query: &[u8],
) -> Result<Decision, OutOfMemory>
    requires { query.now ≡ target_query head.now.target }
    ensures { IfOk result (λ decision.
        IsByForm key.now boot head.now asked head.now.multipart decision) }
{
    if head.multipart {
        return Ok(Decision::Refused(Refusal::Multipart));
    }
    by_fields(alloc, key, boot, head, asked, query)
}

/// The path of a target, and its query.
#[tactic(auto, unfolding(crate::specs::Decisions::target_path, crate::specs::Decisions::target_query))]
fn parts_of(target: &[u8]) -> (&[u8], &[u8])
    ensures path { result.0.now ≡ target_path target.now }
    ensures query { result.1.now ≡ target_query target.now }
{
    path_and_query(target)
}

/// What is decided of a request under the service's key, in this boot: the first refusal in the order of the decisions,
/// or its order. A key has any length, and a cookie that is none under it counts as none.
///
/// It fails only where memory ran out. It visits the path once, the form once for each field, and each byte of the
/// cookie a few times.
#[tactic(auto, unfolding(crate::specs::Decisions::IsDecided))]
pub fn decide(
    alloc: Global,
    router: &SiteRouter,
    key: &[u8],
    boot: u32,
    head: &Head,
) -> Result<Decision, OutOfMemory>
    ensures { IfOk result (λ decision. IsDecided key.now boot head.now decision) }
{
    let (path, query) = parts_of(head.target.as_slice());
    match router.routed(path, head.method) {
        Routed::NotThere => Ok(Decision::Refused(Refusal::NotThere)),
        Routed::NotAllowed { allow } => Ok(Decision::Refused(Refusal::NotAllowed { allow })),
        Routed::Action(asked) => by_form(alloc, key, boot, head, asked, query),
    }
}
