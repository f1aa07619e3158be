//! The call of an order.

ghost use Rattle.std.specs.Prelude.{◌≡◌, ◌≤◌, ◌<◌, ◌^◌, ◌++◌, length, drop, slice_index, true};
ghost use Rattle.std.specs.Int.{to_be_bytes, w64};
ghost use Rattle.std.specs.Option.{option_copied};
ghost use Rattle.auction_calls.specs.Calls.{is_action, is_sized};
ghost use Rattle.request_decisions.specs.Calls.{call_by, form_of, new_key, number_for, numbers_for, ordered_call, request_of, session_key, user_of};

use crate::decision::Order;
use crate::draws::{Draw, DrawKind, shows_form};
use auction_calls::{ActionCall, CheckedCall};
use auction_rows::session_user;
use crash_base::{Moment, RequestNo, SessionBytes, SessionKey};
use session_cookie::{Cookie, form_token};

/// The first number that was drawn for this, or 0 where none was, and what was drawn behind it.
fn first_for(drawn: &[Draw], kind: DrawKind) -> (u64, &[Draw])
    ensures number { result.0 ≡ number_for kind drawn.now }
    ensures behind { numbers_for kind result.1.now ≡ drop 1 (numbers_for kind drawn.now) }
{
    let mut rest = drawn;
    while let [first, after @ ..] = rest {
        if first.kind.is(kind) {
            return (first.number, after);
        }
        rest = after;
    }
    (0, rest)
}

/// The first number that was drawn for this, and 0 where none was: so the serial of the nonce of a read or a write, of
/// which an order draws one at most. It visits each draw, and takes no memory.
pub fn number_for(drawn: &[Draw], kind: DrawKind) -> u64
    ensures { result ≡ number_for kind drawn.now }
{
    let (number, _) = first_for(drawn, kind);
    number
}

/// The number of a request: that of its token, or the one that was drawn in this boot. It takes no memory.
pub fn request_of(boot: u32, number: Option<RequestNo>, drawn: &[Draw]) -> RequestNo
    ensures { result ≡ request_of boot number drawn.now }
{
    match number {
        Some(number) => number,
        None => RequestNo {
            boot,
            serial: number_for(drawn, DrawKind::Request),
        },
    }
}

/// The bytes of two words.
fn key_bytes(first: u64, second: u64) -> [u8; 16]
    ensures { result ≡ to_be_bytes w64 first ++ to_be_bytes w64 second }
{
    let a = first.to_be_bytes();
    let b = second.to_be_bytes();
    [
        a[0], a[1], a[2], a[3], a[4], a[5], a[6], a[7], b[0], b[1], b[2], b[3], b[4], b[5], b[6],
        b[7],
    ]
}

/// The key of a session that begins: the two words that were drawn for it, and 16 zero bytes where none was.
#[tactic(auto, unfolding(crate::specs::Calls::new_key))]
fn new_key(drawn: &[Draw]) -> SessionKey
    ensures { result ≡ new_key drawn.now }
{
    let (first, behind) = first_for(drawn, DrawKind::KeyWord);
    SessionKey(key_bytes(first, number_for(behind, DrawKind::KeyWord)))
}

/// The key of the session of an order.
fn session_key(cookie: Option<&Cookie>, drawn: &[Draw]) -> SessionKey
    ensures { result ≡ session_key (option_copied cookie.entry) drawn.now }
{
    match cookie {
        Some(cookie) => cookie.key,
        None => new_key(drawn),
    }
}

/// The token of the form that is shown, if one is.
fn form_of(key: &[u8], boot: u32, session: SessionKey, shown: bool, drawn: &[Draw]) -> [u8; 56]
    ensures { result ≡ form_of key.now boot session shown drawn.now }
{
    if !shown {
        return [0; 56];
    }
    let serial = number_for(drawn, DrawKind::Token);
    form_token(key, session, RequestNo { boot, serial })
}

/// The user of a session with this value.
fn user_of(value: Option<&SessionBytes>) -> u32
    ensures { result ≡ user_of (option_copied value.entry) }
{
    match value {
        Some(value) => session_user(value.as_slice()),
        None => 0,
    }
}

fn numbers_are_sized(user: u32, fresh: u64)
    ensures { (user ≤ 4294967295) × (fresh < 2 ^ 64) }
{}

fn arrays_are_sized(key: &[u8; 16], form: &[u8; 56])
    ensures { (length key.now ≡ 16) × (length form.now ≡ 56) }
{}

/// The fields of a call have the sizes that their types give them.
fn call_is_sized(call: &ActionCall)
    ensures { is_sized call.entry.now ≡ true }
{
    numbers_are_sized(call.user, call.fresh);
    arrays_are_sized(&call.key.0, &call.form)
}

/// A call whose action is in its ranges, and its moment too.
fn checked(call: ActionCall) -> CheckedCall
    requires action { is_action call.action ≡ true }
    requires moment { call.now.0 < 2 ^ 62 }
    ensures { result ≡ call }
{
    call_is_sized(&call);
    match CheckedCall::check(call) {
        Ok(checked) => checked,
        Err(_) => unreachable!(),
    }
}

/// The call of an order before its session is read, and the cookie that names this session. It is made under the
/// service's key, in this boot, at the moment of the request, and with what was drawn for the order. Its user is 0. The
/// law `orders_are_in_range` says that the action of an order is in its ranges, and each moment of a clock is below the
/// limit. It visits the texts of the action once, and takes no memory: they are moved.
#[tactic(auto, unfolding(crate::specs::Calls::ordered_call))]
pub fn ordered_call(
    key: &[u8],
    boot: u32,
    order: Order,
    now: Moment,
    drawn: &[Draw],
) -> (CheckedCall, Option<Cookie>)
    requires action { is_action order.action ≡ true }
    requires moment { now.0 < 2 ^ 62 }
    ensures call { result.0 ≡ ordered_call key.now boot order now drawn.now }
    ensures cookie { result.1 ≡ order.cookie }
{
    let session = session_key(order.cookie.as_ref(), drawn);
    let form = form_of(key, boot, session, shows_form(&order.action), drawn);
    let fresh = number_for(drawn, DrawKind::Fresh);
    let Order {
        action,
        number: _,
        cookie,
    } = order;
    let call = ActionCall {
        action,
        user: 0,
        key: session,
        now,
        fresh,
        form,
    };
    (checked(call), cookie)
}

/// The call as the user of its session makes it: `value` is what was read of the session, where the request has one. It
/// visits the texts of the action once, and takes no memory.
pub fn call_by(call: CheckedCall, value: Option<&SessionBytes>) -> CheckedCall
    ensures { result ≡ call_by call (option_copied value.entry) }
{
    let user = user_of(value);
    let ActionCall {
        action,
        user: _,
        key,
        now,
        fresh,
        form,
    } = call.into_call();
    checked(ActionCall {
        action,
        user,
        key,
        now,
        fresh,
        form,
    })
}
