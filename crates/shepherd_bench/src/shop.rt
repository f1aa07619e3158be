//! What the loops go over: a row of an item, a session, and the requests of its client.

ghost use Rattle.std.specs.Prelude.{IfOk, IfSome};
ghost use Rattle.send_windows.specs.Passes.{AreHeard, AreUnheard, HaveDistinctBricks};
ghost use Rattle.session_cookie.specs.Cookie.{AreHolders};

use auction_rows::{GivenFeedback, ItemRow, ItemState, TableRow, encode_session, is_item};
use crash_base::{
    FieldText, Moment, OutOfMemory, RequestNo, RowId, RowList, RowWrite, SessionBytes, SessionKey,
    Version,
};
use link_memory::ScriptLink;
use send_windows::{PassList, TakeRefusal, Windows};
use session_cookie::{Cookie, encode_cookie, form_token};
use ssm_stub::{WriteRefusal, settle, write, written_cookies_name_who_stored};
use std::alloc::Global;

/// The key of the service.
pub(crate) const KEY: [u8; 32] = [7; 32];

/// The key of the session.
const SESSION: SessionKey = SessionKey([9; 16]);

/// The serial of the first token. The numbers that are drawn stay below.
const FIRST_TOKEN: u64 = 1_000_000_000;

/// The nonce of the session's write, which is drawn for nothing else.
const NONCE: Version = Version {
    node: 1,
    boot: 1,
    serial: 999_999_999,
};

/// How many bricks are to store the session.
pub(crate) const LEAST: u16 = 2;

/// The rows that the container begins with: that of item 1, which user 1 offers for a year.
pub(crate) fn rows(alloc: Global) -> Result<RowList, OutOfMemory> {
    let item = ItemRow {
        state: ItemState::Running,
        seller: 1,
        category: 1,
        start: 1,
        buy_now: 0,
        best: 0,
        best_bidder: 0,
        bids: 0,
        ends: Moment(31_536_000_000),
        buyer: 0,
        given: GivenFeedback {
            by_buyer: false,
            by_seller: false,
        },
        title: FieldText::from_vec(Vec::from_slice(alloc, b"Item of the shop")?),
    };
    let mut rows = RowList::new(alloc);
    if is_item(&item) {
        rows.push(RowWrite {
            id: RowId { table: 4, key: 1 },
            bytes: item.encode(alloc)?,
        })?;
    }
    Ok(rows)
}

/// Writes the session by these passes. Its cookie; None where too few bricks stored it.
fn write_session(
    alloc: Global,
    link: &mut ScriptLink,
    passes: &mut PassList,
    value: &SessionBytes,
) -> Result<Option<Cookie>, OutOfMemory>
    requires unheard { AreUnheard passes.old }
    requires distinct { HaveDistinctBricks passes.old }
    ensures heard { AreHeard passes.new }
    ensures holders { IfOk result (λ written. IfSome written (λ cookie. AreHolders cookie.bricks)) }
{
    written_cookies_name_who_stored(link);
    let expiry = Moment(1_800_000);
    let answer = write(alloc, link, passes, LEAST, NONCE, SESSION, value, expiry);
    settle(alloc, link, passes, NONCE, SESSION);
    passes.hush();
    match answer {
        Ok(cookie) => Ok(Some(cookie)),
        Err(WriteRefusal::Missed(_)) => Ok(None),
        Err(WriteRefusal::OutOfMemory) => Err(OutOfMemory),
    }
}

/// The text of a cookie.
fn text_of(alloc: Global, cookie: &Cookie) -> Result<Option<String>, OutOfMemory>
    requires { AreHolders cookie.now.bricks }
{
    let text = encode_cookie(alloc, &KEY, cookie)?;
    match std::str::from_utf8(text.as_slice()) {
        Ok(text) => Ok(Some(String::from_str(alloc, text)?)),
        Err(_) => Ok(None),
    }
}

/// Writes the session of user 2. The text of its cookie; None where too few bricks stored it.
pub(crate) fn cookie(
    alloc: Global,
    link: &mut ScriptLink,
    windows: &mut Windows,
) -> Result<Option<String>, OutOfMemory> {
    let value = encode_session(alloc, 2, Moment(0))?;
    let mut passes = match windows.take(alloc, NONCE.serial) {
        Ok(passes) => passes,
        Err(TakeRefusal::Overload(_)) => return Ok(None),
        Err(TakeRefusal::OutOfMemory) => return Err(OutOfMemory),
    };
    let written = write_session(alloc, link, &mut passes, &value);
    windows.spend(passes);
    match written? {
        Some(cookie) => text_of(alloc, &cookie),
        None => Ok(None),
    }
}

/// A bid of user 2, for one cent more than the one of the round before.
pub(crate) fn bid(alloc: Global, cookie: &str, round: u64) -> Result<String, OutOfMemory> {
    let request = RequestNo {
        boot: 1,
        serial: FIRST_TOKEN.wrapping_add(round),
    };
    let token = form_token(&KEY, SESSION, request);
    let token = std::str::from_utf8(&token).unwrap_or("");
    let amount = round.wrapping_add(1);
    let form = format!(in alloc; "token={token}&item=1&amount={amount}")?;
    let size = form.len();
    let text = format!(in alloc;
        "POST /bid HTTP/1.1\r\nHost: localhost:8080\r\nUser-Agent: Mozilla/5.0 (X11; Linux x86_64; rv:128.0) Firefox/128.0\r\n\
Accept: text/html,application/xhtml+xml\r\nAccept-Language: en\r\nCookie: theme=dark; crash={cookie}\r\n\
Content-Type: application/x-www-form-urlencoded\r\nContent-Length: {size}\r\n\r\n{form}"
    )?;
    Ok(text)
}

/// A request of user 2 for the page of the signed in.
pub(crate) fn page(alloc: Global, cookie: &str) -> Result<String, OutOfMemory> {
    let text = format!(in alloc;
        "GET / HTTP/1.1\r\nHost: localhost\r\nCookie: crash={cookie}\r\n\r\n"
    )?;
    Ok(text)
}
