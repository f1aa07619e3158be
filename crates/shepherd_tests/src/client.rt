//! Clients, which keep a cookie and the token of the form that they were shown last, as a browser does.

use crate::words::{between, first_word};
use std::alloc::Global;
use std::fmt::Write;
use std::process::Abort;

/// A client, and what it keeps of its responses.
#[derive(Drop)]
pub struct Client {
    pub cookie: String,
    pub token: String,
}

impl Client {
    /// A client that was answered nothing yet.
    pub fn new(alloc: Global) -> Client {
        Client {
            cookie: String::new(alloc),
            token: String::new(alloc),
        }
    }

    /// Keeps the cookie and the token of a response, where it has them.
    pub fn hear(&mut self, rt: &impl Abort, response: &str) {
        let cookie = between(response, "\r\nSet-Cookie: crash=", ";");
        if response.contains("\r\nSet-Cookie: ") {
            self.cookie.clear();
            self.cookie.push_str(cookie).expect(rt, "a cookie");
        }
        let token = between(response, "name=\"token\" value=\"", "\"");
        if !token.is_empty() {
            self.token.clear();
            self.token.push_str(token).expect(rt, "a token");
        }
    }
}

/// What a browser sends of itself with each request.
const BROWSER: &str = "\
User-Agent: Mozilla/5.0 (X11; Linux x86_64; rv:128.0) Gecko/20100101 Firefox/128.0\r\n\
Accept: text/html,application/xhtml+xml,application/xml;q=0.9,*/*;q=0.8\r\n\
Accept-Language: en-US,en;q=0.5\r\n\
Accept-Encoding: gzip, deflate, br\r\n\
Referer: http://localhost:8080/\r\n\
Upgrade-Insecure-Requests: 1\r\n";

/// Adds the head of a request up to its Content-Type.
fn add_head(rt: &impl Abort, text: &mut String, client: &Client, method: &str, target: &str) {
    write!(
        text,
        "{method} {target} HTTP/1.1\r\nHost: localhost:8080\r\n"
    )
    .expect(rt, target);
    text.push_str(BROWSER).expect(rt, target);
    if !client.cookie.is_empty() {
        write!(text, "Cookie: theme=dark; crash={}\r\n", client.cookie).expect(rt, target);
    }
}

/// Adds the rest of a request with a form of this type.
fn add_form(rt: &impl Abort, text: &mut String, kind: &str, form: &str) {
    let size = form.len();
    write!(
        text,
        "Content-Type: {kind}\r\nContent-Length: {size}\r\n\r\n{form}"
    )
    .expect(rt, form);
}

/// The type of a form that is sent as pairs.
const PAIRS: &str = "application/x-www-form-urlencoded";

/// The request that words spell: `get TARGET`, `head TARGET`, `last TARGET`, after which the connection ends, `post
/// TARGET FORM`, before whose fields the client's token is put, `bare TARGET FORM` without it, `parts TARGET FORM` in
/// parts, or `put TARGET`.
pub fn request_text(rt: &impl Abort, alloc: Global, client: &Client, words: &str) -> String {
    let (method, rest) = first_word(words);
    let (target, form) = first_word(rest);
    let mut text = String::new(alloc);
    match method {
        "get" => {
            add_head(rt, &mut text, client, "GET", target);
            text.push_str("\r\n").expect(rt, words);
        }
        "head" => {
            add_head(rt, &mut text, client, "HEAD", target);
            text.push_str("\r\n").expect(rt, words);
        }
        "last" => {
            add_head(rt, &mut text, client, "GET", target);
            text.push_str("Connection: close\r\n\r\n").expect(rt, words);
        }
        "put" => {
            add_head(rt, &mut text, client, "PUT", target);
            text.push_str("\r\n").expect(rt, words);
        }
        "post" => {
            add_head(rt, &mut text, client, "POST", target);
            let form = format!(in alloc; "token={}&{form}", client.token).expect(rt, words);
            add_form(rt, &mut text, PAIRS, &form);
        }
        "bare" => {
            add_head(rt, &mut text, client, "POST", target);
            add_form(rt, &mut text, PAIRS, form);
        }
        "parts" => {
            add_head(rt, &mut text, client, "POST", target);
            add_form(rt, &mut text, "multipart/form-data; boundary=x", form);
        }
        _ => panic!(rt; "no request: {words}"),
    }
    text
}
