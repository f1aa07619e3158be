//! The law of what is shown of an entry. It is the contract of a function that does nothing: a caller that needs the
//! law calls the function.

ghost use Rattle.std.specs.Prelude.{◌≡◌, ℕ, Bool, List, slice_get, Option, Some, None};
ghost use Rattle.crash_base.specs.declared.numbers.Place.{Place};
ghost use Rattle.journal_model.specs.declared.entry.CommitEntry.{CommitEntry};
ghost use Rattle.journal_model.specs.declared.entry.DoneText.{DoneText};
ghost use Rattle.journal_model.specs.declared.entry.Entry.{Entry};
ghost use Rattle.journal_model.specs.declared.entry.Entry.TheVariants.{Commit};
ghost use Rattle.outcome_items.specs.Answers.{answer_of, shown_by_entry};
ghost use Rattle.outcome_items.specs.declared.outcome.ItemOutcome.TheVariants as item;
ghost use Rattle.request_tries.specs.declared.outcome.RequestOutcome.TheVariants.{Page};
ghost use Rattle.site_responses.specs.Responses.{failed_page, said};

/// A page is that of its entry: what is said has the status and the page that the entry answers; and of an entry
/// without an action status 500, and the page that it failed. It refuses that each page is told as 200.
pub fn pages_show_their_entries()
    ensures shown { (es : List Entry) (e : CommitEntry) (text : List ℕ) (done : DoneText) (place : Place)
        (again : Bool) (cookie : Option (List ℕ)) → slice_get es place.0 ≡ Some (Commit e)
        → e.action ≡ Some (record { text = text; done = done })
        → ((said (answer_of (shown_by_entry es (item.Ended (Page place again))) cookie
        (item.Ended (Page place again)))).status ≡ done.status)
        × ((said (answer_of (shown_by_entry es (item.Ended (Page place again))) cookie
        (item.Ended (Page place again)))).page ≡ done.page) }
    ensures failed { (es : List Entry) (e : CommitEntry) (place : Place) (again : Bool) (cookie : Option (List ℕ))
        → slice_get es place.0 ≡ Some (Commit e) → e.action ≡ None
        → ((said (answer_of (shown_by_entry es (item.Ended (Page place again))) cookie
        (item.Ended (Page place again)))).status ≡ 500)
        × ((said (answer_of (shown_by_entry es (item.Ended (Page place again))) cookie
        (item.Ended (Page place again)))).page ≡ failed_page) }
{}
