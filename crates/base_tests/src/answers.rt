//! What is answered, byte by byte. Sizes and pages were written by hand.

use crate::words::{cut, expect_bytes};
use action_fields::FormField;
use crash_base::{CookieText, FieldText, PageText};
use page_text::{PageLine, PageLineList, page};
use site_responses::{SiteAnswer, Untaken, failed_page, response_of, untaken_response};
use std::alloc::Global;
use std::process::Abort;

/// The head of a response, whose last fields are these.
fn head(rt: &impl Abort, alloc: Global, status: &str, size: &str, fields: &str) -> String {
    format!(in alloc;
        "HTTP/1.1 {status}\r\nContent-Type: text/html; charset=utf-8\r\nContent-Length: {size}\r\n{fields}\r\n"
    ).expect(rt, status)
}

/// A page without lines.
fn bare_page(rt: &impl Abort, alloc: Global, heading: &str) -> String {
    format!(in alloc; "<!doctype html>\n<title>{heading}</title>\n<h1>{heading}</h1>\n").expect(
        rt, heading,
    )
}

/// Asserts that an answer has this head and this page, to GET and to HEAD.
fn expect_page(rt: &impl Abort, alloc: Global, answer: &SiteAnswer, head: &str, page: &str) {
    let whole = response_of(alloc, answer, false, false).expect(rt, head);
    let want = format!(in alloc; "{head}{page}").expect(rt, head);
    expect_bytes(rt, whole.as_slice(), want.as_bytes(), head);
    let bare = response_of(alloc, answer, false, true).expect(rt, head);
    expect_bytes(rt, bare.as_slice(), head.as_bytes(), head);
}

/// Asserts that an answer has this status and heading, a page of so many bytes, and these further fields.
fn expect_answer(
    rt: &impl Abort,
    alloc: Global,
    answer: &SiteAnswer,
    status: &str,
    size: &str,
    fields: &str,
    heading: &str,
) {
    let page = bare_page(rt, alloc, heading);
    let open = head(rt, alloc, status, size, fields);
    expect_page(rt, alloc, answer, open.as_str(), page.as_str());
    let more = format!(in alloc; "{fields}Connection: close\r\n").expect(rt, heading);
    let mut last = head(rt, alloc, status, size, more.as_str());
    last.push_str(page.as_str()).expect(rt, heading);
    let closed = response_of(alloc, answer, true, false).expect(rt, heading);
    expect_bytes(rt, closed.as_slice(), last.as_bytes(), heading);
}

/// The field of this word.
fn field_of(rt: &impl Abort, word: &str) -> FormField {
    match word {
        "name" => FormField::Name,
        "password" => FormField::Password,
        "page" => FormField::Page,
        "title" => FormField::Title,
        "category" => FormField::Category,
        "start" => FormField::Start,
        "buy_now" => FormField::BuyNow,
        "hours" => FormField::Hours,
        "item" => FormField::Item,
        "amount" => FormField::Amount,
        "good" => FormField::Good,
        "text" => FormField::Text,
        "token" => FormField::Token,
        _ => panic!(rt; "no field {word}"),
    }
}

/// The answer that a word stands for: a bad field by its name.
fn answer_of(rt: &impl Abort, word: &str) -> SiteAnswer {
    match word {
        "not there" => SiteAnswer::NotThere,
        "reads" => SiteAnswer::NotAllowed { allow: 1 },
        "writes" => SiteAnswer::NotAllowed { allow: 2 },
        "both" => SiteAnswer::NotAllowed { allow: 3 },
        "multipart" => SiteAnswer::Multipart,
        "stale" => SiteAnswer::StaleForm,
        "expired" => SiteAnswer::Expired,
        "lost" => SiteAnswer::Lost,
        "again" => SiteAnswer::TryAgain,
        "failed" => SiteAnswer::Failed,
        _ => SiteAnswer::BadForm {
            field: field_of(rt, word),
        },
    }
}

/// A row has the answer, the status, the size of the page, the further fields and the heading.
fn expect_row(rt: &impl Abort, alloc: Global, row: &str) {
    let (word, rest) = cut(rt, row, '|');
    let (status, rest) = cut(rt, rest, '|');
    let (size, rest) = cut(rt, rest, '|');
    let (fields, heading) = cut(rt, rest, '|');
    let answer = answer_of(rt, word);
    expect_answer(rt, alloc, &answer, status, size, fields, heading);
}

/// Each refusal has its status and heading, and a bad field is named in the heading.
const ANSWERS: &str = "not there|404 Not Found|60||Not there~\
reads|405 Method Not Allowed|78|Allow: GET, HEAD\r\n|Method not allowed~\
writes|405 Method Not Allowed|78|Allow: POST\r\n|Method not allowed~\
both|405 Method Not Allowed|78|Allow: GET, HEAD, POST\r\n|Method not allowed~\
multipart|415 Unsupported Media Type|80||Form not understood~\
stale|409 Conflict|64||Form is old~\
expired|403 Forbidden|72|Set-Cookie: crash=; Path=/; Max-Age=0; HttpOnly\r\n|Session expired~\
lost|403 Forbidden|66|Set-Cookie: crash=; Path=/; Max-Age=0; HttpOnly\r\n|Session lost~\
again|503 Service Unavailable|60|Retry-After: 2\r\n|Try again~\
failed|500 Internal Server Error|54||Failed~\
name|400 Bad Request|70||Bad field name~\
password|400 Bad Request|78||Bad field password~\
page|400 Bad Request|70||Bad field page~\
title|400 Bad Request|72||Bad field title~\
category|400 Bad Request|78||Bad field category~\
start|400 Bad Request|72||Bad field start~\
buy_now|400 Bad Request|76||Bad field buy_now~\
hours|400 Bad Request|72||Bad field hours~\
item|400 Bad Request|70||Bad field item~\
amount|400 Bad Request|74||Bad field amount~\
good|400 Bad Request|70||Bad field good~\
text|400 Bad Request|70||Bad field text~\
token|400 Bad Request|72||Bad field token";

/// The text of a line.
fn field(rt: &impl Abort, alloc: Global, text: &str) -> FieldText {
    FieldText::copied(alloc, text.as_bytes()).expect(rt, text)
}

/// The first page of who is signed out.
fn home(rt: &impl Abort, alloc: Global) -> PageText {
    let mut lines = PageLineList::new(alloc);
    let out = PageLine::Para {
        text: field(rt, alloc, "Signed out"),
    };
    lines.push(out).expect(rt, "a line");
    let link = PageLine::Link {
        address: field(rt, alloc, "/categories"),
        text: field(rt, alloc, "Categories"),
    };
    lines.push(link).expect(rt, "a line");
    page(alloc, b"Auctions", &lines).expect(rt, "a page")
}

fn expect_home(rt: &impl Abort, alloc: Global) {
    let want = "<!doctype html>\n<title>Auctions</title>\n<h1>Auctions</h1>\n<p>Signed out</p>\n\
                <p><a href=\"/categories\">Categories</a></p>\n";
    let answer = SiteAnswer::Page {
        status: 200,
        page: home(rt, alloc),
        cookie: None,
    };
    let bare = head(rt, alloc, "200 OK", "120", "");
    expect_page(rt, alloc, &answer, bare.as_str(), want);
}

/// A page sets the cookie of a session that was written.
const SET: &str = "Set-Cookie: crash=AbC-_9; Path=/; Max-Age=1800; HttpOnly\r\n";

/// The answer by a page, with a cookie.
fn with_cookie(rt: &impl Abort, alloc: Global, status: u16, page: PageText) -> SiteAnswer {
    let cookie = CookieText::copied(alloc, b"AbC-_9").expect(rt, "a cookie");
    SiteAnswer::Page {
        status,
        page,
        cookie: Some(cookie),
    }
}

fn expect_cookies(rt: &impl Abort, alloc: Global) {
    let page = PageText::copied(alloc, b"abc").expect(rt, "a page");
    let answer = with_cookie(rt, alloc, 409, page);
    let whole = head(rt, alloc, "409 Conflict", "3", SET);
    expect_page(rt, alloc, &answer, whole.as_str(), "abc");
    let page = failed_page(alloc).expect(rt, "a page");
    let answer = with_cookie(rt, alloc, 500, page);
    let status = "500 Internal Server Error";
    expect_answer(rt, alloc, &answer, status, "54", SET, "Failed");
}

/// What is no request, by its word.
fn untaken(word: &str) -> Untaken {
    match word {
        "bad" => Untaken::Bad,
        "long" => Untaken::TooLong,
        "body" => Untaken::BodyTooLong,
        _ => Untaken::NoCoding,
    }
}

/// What is no request, and of its answer the status, the size of the page and the heading. The connection ends.
const UNTAKEN: &str = "bad|400 Bad Request|64|Bad request
long|431 Request Header Fields Too Large|68|Head too long
body|413 Content Too Large|68|Body too long
coding|501 Not Implemented|82|Coding not supported";

fn expect_untaken(rt: &impl Abort, alloc: Global, row: &str) {
    let (why, rest) = cut(rt, row, '|');
    let (status, rest) = cut(rt, rest, '|');
    let (size, heading) = cut(rt, rest, '|');
    let mut want = head(rt, alloc, status, size, "Connection: close\r\n");
    let page = bare_page(rt, alloc, heading);
    want.push_str(page.as_str()).expect(rt, heading);
    let bytes = untaken_response(alloc, untaken(why)).expect(rt, heading);
    expect_bytes(rt, bytes.as_slice(), want.as_bytes(), heading);
}

#[test]
fn answers_have_their_bytes(rt: HostRuntime) {
    for row in ANSWERS.split('~') {
        expect_row(&rt, rt.alloc(), row);
    }
    for row in UNTAKEN.split('\n') {
        expect_untaken(&rt, rt.alloc(), row);
    }
    expect_home(&rt, rt.alloc());
    expect_cookies(&rt, rt.alloc());
}
