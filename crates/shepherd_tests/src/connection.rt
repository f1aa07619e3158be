//! A connection of the site, and the steps of its requests.

use crate::telling::item_words;
use crate::words::text_of;
use crash_base::ResponseBytes;
use memory_site::{MemorySite, StepEnd};
use outcome_items::Item;
use shepherd::EndKind;
use site_responses::Untaken;
use std::alloc::Global;
use std::process::Abort;

/// A connection by its number, with what was put out, and its items in words.
#[derive(Drop)]
pub struct Connection {
    at: usize,
    /// The bytes that were put out since it was last heard.
    pub out: String,
    /// The items since it was last heard, in words.
    pub items: String,
    /// How it has ended, where it has.
    ended: Option<EndKind>,
}

fn end_word(end: EndKind) -> &'static str {
    match end {
        EndKind::Closed => "closed",
        EndKind::Cut => "cut",
        EndKind::Refused(Untaken::Bad) => "bad",
        EndKind::Refused(Untaken::TooLong) => "toolong",
        EndKind::Refused(Untaken::BodyTooLong) => "bodytoolong",
        EndKind::Refused(Untaken::NoCoding) => "nocoding",
        EndKind::OutOfMemory => "out of memory",
    }
}

/// What a connection did by a step.
#[derive(Clone, Copy)]
enum Went {
    /// It made one call of others.
    Step,
    /// It did something by itself.
    Own,
    /// It waits for bytes, or has ended.
    Nothing,
}

fn add_bytes(rt: &impl Abort, out: &mut String, bytes: &ResponseBytes) {
    out.push_str(text_of(rt, bytes.as_slice()))
        .expect(rt, "a response");
}

fn add_item(rt: &impl Abort, alloc: Global, items: &mut String, item: &Item) {
    let words = item_words(rt, alloc, item);
    items.push_str(words.as_str()).expect(rt, "an item");
}

impl Connection {
    /// One connection more of the site.
    pub fn new(rt: &impl Abort, alloc: Global, site: &mut MemorySite) -> Connection {
        Connection {
            at: site.connect(alloc).expect(rt, "a connection"),
            out: String::new(alloc),
            items: String::new(alloc),
            ended: None,
        }
    }

    /// Bytes come.
    pub fn feed(&mut self, rt: &impl Abort, site: &mut MemorySite, bytes: &[u8]) {
        site.feed(self.at, bytes).expect(rt, "bytes");
    }

    /// No more bytes come.
    pub fn end(&mut self, site: &mut MemorySite) {
        site.end(self.at);
    }

    /// How it has ended, in a word, and nothing before that.
    pub fn ended(&self) -> &'static str {
        match self.ended {
            Some(end) => end_word(end),
            None => "",
        }
    }

    /// It is given up, and another one has its number. Its item in words, where its response has left.
    pub fn give_up(&mut self, rt: &impl Abort, alloc: Global, site: &mut MemorySite) -> String {
        match site.give_up(alloc, self.at) {
            Some(item) => item_words(rt, alloc, &item),
            None => String::new(alloc),
        }
    }

    /// What was put out and the items are forgotten.
    pub fn forget(&mut self) {
        self.out.clear();
        self.items.clear();
    }

    /// Keeps what came of a step.
    fn keep(&mut self, rt: &impl Abort, alloc: Global, end: StepEnd) -> Went {
        match end {
            StepEnd::Called => Went::Step,
            StepEnd::Alone => Went::Own,
            StepEnd::Response(bytes) => {
                add_bytes(rt, &mut self.out, &bytes);
                Went::Own
            }
            StepEnd::Item(item) => {
                add_item(rt, alloc, &mut self.items, &item);
                Went::Own
            }
            StepEnd::Waits => Went::Nothing,
            StepEnd::Ended(end) => {
                self.ended = Some(end);
                Went::Nothing
            }
        }
    }

    /// Makes its next call of others, and before it what it does by itself. Whether it made one: it waits for bytes, or
    /// has ended, where it did not.
    fn step(&mut self, rt: &impl Abort, alloc: Global, site: &mut MemorySite) -> bool {
        for _ in 0..10 {
            let end = site.step(alloc, self.at).expect(rt, "a step");
            match self.keep(rt, alloc, end) {
                Went::Step => return true,
                Went::Own => {}
                Went::Nothing => return false,
            }
        }
        panic!(rt; "it goes round")
    }

    /// Makes up to so many calls of others. How many it made.
    pub fn run(&mut self, rt: &impl Abort, alloc: Global, site: &mut MemorySite, most: u64) -> u64 {
        for made in 0..most {
            if !self.step(rt, alloc, site) {
                return made;
            }
        }
        most
    }

    /// Runs until it waits for bytes, or has ended.
    pub fn finish(&mut self, rt: &impl Abort, alloc: Global, site: &mut MemorySite) {
        let made = self.run(rt, alloc, site, 100_000);
        assert!(rt; made < 100_000);
    }
}
