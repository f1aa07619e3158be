//! Clients, which keep a cookie and the token of the form that they were shown last, as a browser does.

use std::alloc::Global;
use std::fmt::Write;
use std::process::Abort;

/// A client, and what it keeps of its responses.
#[derive(Drop)]
pub struct Client {
    cookie: String,
    token: String,
}

/// What stands in a text between two marks; nothing, where it has not the first.
fn between<'a>(text: &'a str, open: &str, close: &str) -> &'a str {
    match text.split_once(open) {
        None => "",
        Some((_, rest)) => match rest.split_once(close) {
            None => "",
            Some((part, _)) => part,
        },
    }
}

impl Client {
    /// A client that was answered nothing yet.
    pub fn new(alloc: Global) -> Client {
        Client {
            cookie: String::new(alloc),
            token: String::new(alloc),
        }
    }

    /// Keeps the cookie and the token of a response, where it has them.
    pub fn hear(&mut self, rt: &impl Abort, response: &str) {
        let cookie = between(response, "\r\nSet-Cookie: crash=", ";");
        if !cookie.is_empty() {
            self.cookie.clear();
            self.cookie.push_str(cookie).expect(rt, "a cookie");
        }
        let token = between(response, "name=\"token\" value=\"", "\"");
        if !token.is_empty() {
            self.token.clear();
            self.token.push_str(token).expect(rt, "a token");
        }
    }

    /// Adds the head of a request up to its end or its form.
    fn add_head(&self, rt: &impl Abort, text: &mut String, method: &str, target: &str) {
        write!(
            text,
            "{method} {target} HTTP/1.1\r\nHost: localhost:8080\r\nUser-Agent: Mozilla/5.0 Firefox/128.0\r\n"
        )
        .expect(rt, target);
        if !self.cookie.is_empty() {
            write!(text, "Cookie: theme=dark; crash={}\r\n", self.cookie).expect(rt, target);
        }
    }

    /// The request for a page.
    pub fn get(&self, rt: &impl Abort, alloc: Global, target: &str) -> String {
        let mut text = String::new(alloc);
        self.add_head(rt, &mut text, "GET", target);
        text.push_str("\r\n").expect(rt, target);
        text
    }

    /// The request with a form, before whose fields the token is put.
    pub fn post(&self, rt: &impl Abort, alloc: Global, target: &str, form: &str) -> String {
        let mut text = String::new(alloc);
        self.add_head(rt, &mut text, "POST", target);
        let form = format!(in alloc; "token={}&{form}", self.token).expect(rt, target);
        let size = form.len();
        write!(
            text,
            "Content-Type: application/x-www-form-urlencoded\r\nContent-Length: {size}\r\n\r\n{form}"
        )
        .expect(rt, target);
        text
    }
}
