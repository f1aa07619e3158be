//! What refuses an action.

ghost use Rattle.std.specs.Prelude.{◌≡◌, [], false, Some, None, IfOk};
ghost use Rattle.action_plans.specs.Plans.{Has};
ghost use Rattle.auction_site.specs.Answers.{shows, bad_row, rule_answer};
ghost use Rattle.auction_site.specs.Pieces.{refuses_if, refuses_by, decoded};

use crate::answers::says;
use action_plans::Stop;
use auction_rules::RuleRefusal;
use crash_base::{OutOfMemory, RowId};
use journal_model::DoneText;
use std::alloc::Global;
use std::fmt::Write;

/// Refused where the test holds.
#[tactic(auto, unfolding(auction_site::specs::Pieces::refuses_if))]
pub fn refuses_if(alloc: Global, test: bool, status: u16, heading: &[u8]) -> Result<(), Stop>
    ensures has { Has result (refuses_if test (shows status heading.now [])) }
    ensures passed { IfOk result (λ _. test ≡ false) }
{
    if test {
        let done = says(alloc, status, heading)?;
        return Err(Stop::Refuse(done));
    }
    Ok(())
}

/// The answer of a rule that refuses.
fn rule_answer(alloc: Global, refusal: RuleRefusal) -> Result<DoneText, OutOfMemory>
    ensures { IfOk result (λ done. done ≡ rule_answer refusal) }
{
    match refusal {
        RuleRefusal::AuctionOver => says(alloc, 409, b"Auction over"),
        RuleRefusal::OwnItem => says(alloc, 409, b"Own item"),
        RuleRefusal::BidTooLow => says(alloc, 409, b"Bid too low"),
        RuleRefusal::NotForSale => says(alloc, 409, b"Not for sale"),
        RuleRefusal::NotSold => says(alloc, 409, b"Not sold"),
        RuleRefusal::NotAllowed => says(alloc, 403, b"Not allowed"),
        RuleRefusal::AlreadyGiven => says(alloc, 409, b"Already given"),
    }
}

/// Refused where a rule refuses.
#[tactic(auto, unfolding(auction_site::specs::Pieces::refuses_by))]
pub fn refuses_by(alloc: Global, refusal: Option<RuleRefusal>) -> Result<(), Stop>
    ensures has { Has result (refuses_by refusal) }
    ensures passed { IfOk result (λ _. refusal ≡ None) }
{
    match refusal {
        None => Ok(()),
        Some(refusal) => {
            let done = rule_answer(alloc, refusal)?;
            Err(Stop::Refuse(done))
        }
    }
}

/// The answer where the bytes of a row spell no row of its table.
fn bad_row(alloc: Global, id: RowId) -> Result<DoneText, OutOfMemory>
    ensures { IfOk result (λ done. done ≡ bad_row id) }
{
    let table = id.table;
    let key = id.key;
    let mut heading = String::new(alloc);
    write!(heading, "Bad row {table} {key}")?;
    says(alloc, 500, heading.as_bytes())
}

/// A row as it was decoded; refused where its bytes spell none.
#[tactic(auto, unfolding(auction_site::specs::Pieces::decoded))]
pub fn decoded<T: Drop>(alloc: Global, id: RowId, found: Option<T>) -> Result<T, Stop>
    ensures has { Has result (decoded id found) }
    ensures there { IfOk result (λ row. found ≡ Some row) }
{
    match found {
        Some(row) => Ok(row),
        None => {
            let done = bad_row(alloc, id)?;
            Err(Stop::Refuse(done))
        }
    }
}
