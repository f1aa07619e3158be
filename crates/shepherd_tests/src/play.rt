//! What clients ask for, one after the other, and what happens between.

ghost use Rattle.std.specs.Prelude.{◌<◌};

use crate::client::{Client, request_text};
use crate::connection::Connection;
use crate::happening::happen;
use crate::scene::{Setting, site_of};
use crate::words::{between, expect_words, first_word};
use memory_site::MemorySite;
use std::alloc::Global;
use std::fmt::Write;
use std::process::Abort;

/// Ann registers, makes a category and offers item 1; Ben and Cat register, and are shown the form of a bid. The
/// journal has 12 entries then, the next serial is 35, the next random word 18, and 27 frames came.
pub const SHOP: &str = "\
ann get /form/register
ann post /register name=ann&password=pw1
ann get /form/category
ann post /categories name=Books
ann get /form/sell
ann post /sell title=Atlas&category=1&start=100&buy_now=1000&hours=24
ben get /form/register
ben post /register name=ben&password=pw2
cat get /form/register
cat post /register name=cat&password=pw3
ben get /form/bid
cat get /form/bid";

/// The site, and the clients Ann, Ben and Cat, each with a connection. Ben has a second one.
#[derive(Drop)]
pub struct Play {
    pub site: MemorySite,
    clients: [Client; 3],
    connections: [Connection; 4],
}

/// A play in which nothing happened yet.
pub fn play_of(rt: &impl Abort, alloc: Global, setting: Setting) -> Play {
    let mut site = site_of(rt, alloc, setting);
    let connections = [
        Connection::new(rt, alloc, &mut site),
        Connection::new(rt, alloc, &mut site),
        Connection::new(rt, alloc, &mut site),
        Connection::new(rt, alloc, &mut site),
    ];
    Play {
        site,
        clients: [Client::new(alloc), Client::new(alloc), Client::new(alloc)],
        connections,
    }
}

/// What came of a request.
#[derive(Drop)]
pub struct Left {
    pub response: String,
    /// Its item in words: what became of it, and then the rest, after a bar.
    pub words: String,
}

/// The number of a client by its name.
fn client_number(rt: &impl Abort, name: &str) -> usize
    ensures { result < 3 }
{
    match name {
        "ann" => 0,
        "ben" | "ben2" => 1,
        "cat" => 2,
        _ => panic!(rt; "no client: {name}"),
    }
}

/// The number of a connection by its name.
fn connection_number(rt: &impl Abort, name: &str) -> usize
    ensures { result < 4 }
{
    match name {
        "ben2" => 3,
        _ => client_number(rt, name),
    }
}

/// The status and the heading of a response.
pub fn answer_words(rt: &impl Abort, alloc: Global, response: &str) -> String {
    let status = between(response, "HTTP/1.1 ", " ");
    let heading = between(response, "<h1>", "</h1>");
    format!(in alloc; "{status} {heading}").expect(rt, response)
}

impl Play {
    /// The bytes of a client's request.
    pub fn text(&self, rt: &impl Abort, alloc: Global, name: &str, words: &str) -> String {
        request_text(rt, alloc, &self.clients[client_number(rt, name)], words)
    }

    /// The bytes of a request come over the connection of this name.
    pub fn ask(&mut self, rt: &impl Abort, alloc: Global, name: &str, words: &str) {
        let text = self.text(rt, alloc, name, words);
        self.feed(rt, name, text.as_bytes());
    }

    /// These bytes come over the connection of this name.
    pub fn feed(&mut self, rt: &impl Abort, name: &str, bytes: &[u8]) {
        self.connections[connection_number(rt, name)].feed(rt, &mut self.site, bytes);
    }

    /// No more bytes come over the connection of this name. How it has ended, once it has done all.
    pub fn end(&mut self, rt: &impl Abort, alloc: Global, name: &str) -> &'static str {
        let at = connection_number(rt, name);
        self.connections[at].end(&mut self.site);
        self.connections[at].finish(rt, alloc, &mut self.site);
        self.connections[at].ended()
    }

    /// The connection of this name makes up to so many steps. How many it made.
    pub fn run(&mut self, rt: &impl Abort, alloc: Global, name: &str, most: u64) -> u64 {
        let at = connection_number(rt, name);
        self.connections[at].run(rt, alloc, &mut self.site, most)
    }

    /// The connection of this name makes so many steps.
    pub fn run_all(&mut self, rt: &impl Abort, alloc: Global, name: &str, steps: u64) {
        let made = self.run(rt, alloc, name, steps);
        assert!(rt; made == steps, "{name}");
    }

    /// The connection of this name is given up. Its item, where its response has left.
    pub fn give_up(&mut self, rt: &impl Abort, alloc: Global, name: &str) -> String {
        let at = connection_number(rt, name);
        self.connections[at].give_up(rt, alloc, &mut self.site)
    }

    /// The connection of this name does all that came, and its client hears what is put out.
    pub fn hear(&mut self, rt: &impl Abort, alloc: Global, name: &str) -> Left {
        let at = connection_number(rt, name);
        self.connections[at].finish(rt, alloc, &mut self.site);
        let mut left = Left {
            response: String::new(alloc),
            words: String::new(alloc),
        };
        left.response
            .push_str(self.connections[at].out.as_str())
            .expect(rt, name);
        left.words
            .push_str(self.connections[at].items.as_str())
            .expect(rt, name);
        self.connections[at].forget();
        self.clients[client_number(rt, name)].hear(rt, left.response.as_str());
        left
    }

    /// A client has this cookie from now on.
    fn keep_cookie(&mut self, rt: &impl Abort, name: &str, text: &str) {
        let at = client_number(rt, name);
        self.clients[at].cookie.clear();
        self.clients[at].cookie.push_str(text).expect(rt, text);
    }

    /// A client's request is served.
    pub fn serve(&mut self, rt: &impl Abort, alloc: Global, name: &str, words: &str) -> Left {
        self.ask(rt, alloc, name, words);
        self.hear(rt, alloc, name)
    }
}

/// Whether a line is of a client.
fn is_request(line: &str) -> bool {
    line.starts_with("ann ") || line.starts_with("ben") || line.starts_with("cat ")
}

/// Plays a client's line: a request, or `cookie TEXT`, from which on the client has that cookie.
fn play_request(rt: &impl Abort, alloc: Global, play: &mut Play, line: &str) -> Option<Left> {
    let (name, words) = first_word(line);
    match words.strip_prefix("cookie ") {
        Some(text) => {
            play.keep_cookie(rt, name, text);
            None
        }
        None => Some(play.serve(rt, alloc, name, words)),
    }
}

/// Plays a line: a client's, or something that happens. What the client was answered, and its item.
pub fn play_line(rt: &impl Abort, alloc: Global, play: &mut Play, line: &str) -> Option<Left> {
    if is_request(line) {
        play_request(rt, alloc, play, line)
    } else {
        happen(rt, alloc, &mut play.site, line);
        None
    }
}

/// Plays lines, and looks at none of what is answered.
pub fn play_lines(rt: &impl Abort, alloc: Global, play: &mut Play, lines: &str) {
    for line in lines.split('\n') {
        play_line(rt, alloc, play, line);
    }
}

/// Plays a line; a request is followed by ` > ` and the status and the heading, and its item, which are looked at.
fn expect_line(rt: &impl Abort, alloc: Global, play: &mut Play, row: &str) {
    let (line, want) = row.split_once(" > ").unwrap_or((row, ""));
    if let Some(left) = play_line(rt, alloc, play, line) {
        let mut found = answer_words(rt, alloc, &left.response);
        write!(found, ", {}", left.words).expect(rt, row);
        expect_words(rt, &found, want, row);
    }
}

/// Plays each line of a table, and looks at what it answers.
pub fn expect_lines(rt: &impl Abort, alloc: Global, play: &mut Play, table: &str) {
    for row in table.split('\n') {
        expect_line(rt, alloc, play, row);
    }
}

/// A play that these lines lead to.
pub fn played(rt: &impl Abort, alloc: Global, setting: Setting, lines: &str) -> Play {
    let mut play = play_of(rt, alloc, setting);
    play_lines(rt, alloc, &mut play, lines);
    play
}
