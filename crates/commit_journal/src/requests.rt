//! The commits of a journal by their requests.

ghost use Rattle.std.specs.Prelude.{◌≡◌, ℕ, ◌+◌, ◌≤◌, ◌<◌, None, [], length, OnErr, OnOk};
ghost use Rattle.commit_journal.specs.Made.{AllBefore};
ghost use Rattle.commit_journal.specs.Requests.{AreInOrder, AreSame, HaveRoom, HasMade, HasMadeOf, KeepPlaces, made_count, place_among};

use crate::made::{Made, are_before, make, merge, place_of};
use crash_base::{OutOfMemory, RequestNo};
use journal_model::Entry;
use std::alloc::Global;
use std::mem::swap;

/// So many at most came late, and are not merged into the others yet.
pub(crate) const MOST_LATE: usize = 512;

/// The first commit of each request.
///
/// Most requests come in order, and are appended. One that comes after a later one is put among a few, which are merged
/// into the others once they are `MOST_LATE`. So no commit moves many, but one in `MOST_LATE` of those that come late.
#[derive(Drop)]
pub(crate) struct Requests {
    /// In order of request.
    pub most: Vec<Made>,
    /// Those that came after a later one, in order of request.
    pub late: Vec<Made>,
    /// Where the two lists are merged. It is empty, and has memory for both.
    pub merged: Vec<Made>,
}

impl Requests {
    /// No requests. It takes no memory.
    pub(crate) fn new(alloc: Global) -> Requests
        ensures most { result.most.items ≡ [] }
        ensures late { result.late.items ≡ [] }
        ensures merged { result.merged.items ≡ [] }
    {
        Requests {
            most: Vec::new(alloc),
            late: Vec::new(alloc),
            merged: Vec::new(alloc),
        }
    }

    /// The place of the first commit of a request, by halving.
    pub(crate) fn place_of(&self, request: RequestNo) -> Option<u64>
        requires { AreInOrder self.now }
        ensures { result ≡ place_among request self.now }
    {
        match place_of(self.most.as_slice(), request) {
            Some(place) => Some(place),
            None => place_of(self.late.as_slice(), request),
        }
    }

    /// Memory for so many requests in all.
    pub(crate) fn reserve(&mut self, places: usize) -> Result<(), OutOfMemory>
        requires order { AreInOrder self.old }
        requires few { made_count self.old ≤ places }
        ensures same { AreSame self.old self.new }
        ensures kept { (n : ℕ) → HaveRoom self.old n → HaveRoom self.new n }
        ensures room { OnOk result (HaveRoom self.new places) }
        ensures needed { OnErr result ((n : ℕ) → HaveRoom self.old n → n < places) }
    {
        self.most.reserve(places - self.most.len())?;
        self.merged.reserve(places)?;
        self.late.reserve(places.min(MOST_LATE) - self.late.len())?;
        Ok(())
    }

    /// Merges those that came late into the others. It takes no memory, and moves each request.
    fn merge(&mut self)
        requires order { AreInOrder self.old }
        requires room { HaveRoom self.old (made_count self.old + 1) }
        ensures kept { KeepPlaces self.old self.new }
        ensures none { self.new.late.items ≡ [] }
    {
        merge(self.most.as_slice(), self.late.as_slice(), &mut self.merged);
        swap(&mut self.most, &mut self.merged);
        self.merged.clear();
        self.late.clear();
    }

    /// Makes room for one that comes late.
    fn make_room(&mut self)
        requires order { AreInOrder self.old }
        requires room { HaveRoom self.old (made_count self.old + 1) }
        ensures kept { KeepPlaces self.old self.new }
        ensures free { length self.new.late.items < MOST_LATE }
    {
        if self.late.len() >= MOST_LATE {
            self.merge();
        }
    }

    /// One request more among those that came late.
    fn make_late(&mut self, request: RequestNo, place: u64)
        requires order { AreInOrder self.old }
        requires room { HaveRoom self.old (made_count self.old + 1) }
        ensures { HasMade self.old self.new request place }
    {
        self.make_room();
        make(&mut self.late, request, place);
    }

    /// One request more, which comes after all but those that came late.
    fn append(&mut self, request: RequestNo, place: u64)
        requires order { AreInOrder self.old }
        requires room { HaveRoom self.old (made_count self.old + 1) }
        requires last { AllBefore request self.old.most.items }
        requires absent { place_among request self.old ≡ None }
        ensures { HasMade self.old self.new request place }
    {
        self.most.push_reserved(Made { request, place });
    }

    /// One request more, which is not there yet.
    fn add(&mut self, request: RequestNo, place: u64)
        requires order { AreInOrder self.old }
        requires room { HaveRoom self.old (made_count self.old + 1) }
        requires absent { place_among request self.old ≡ None }
        ensures { HasMade self.old self.new request place }
    {
        if are_before(self.most.as_slice(), request) {
            self.append(request, place);
        } else {
            self.make_late(request, place);
        }
    }

    /// One request more, where it is not there yet. It takes no memory.
    fn make(&mut self, request: RequestNo, place: u64)
        requires order { AreInOrder self.old }
        requires room { HaveRoom self.old (made_count self.old + 1) }
        ensures { HasMade self.old self.new request place }
    {
        match self.place_of(request) {
            Some(_) => {}
            None => self.add(request, place),
        }
    }

    /// One entry more at a place, which is the number of entries before it. It takes no memory.
    pub(crate) fn make_entry(&mut self, entry: &Entry, place: u64)
        requires order { AreInOrder self.old }
        requires room { HaveRoom self.old (made_count self.old + 1) }
        ensures { HasMadeOf self.old self.new place entry.now }
    {
        match entry {
            Entry::Commit(commit) => self.make(commit.request, place),
            Entry::Down(_) | Entry::Up(_) => {}
        }
    }
}
