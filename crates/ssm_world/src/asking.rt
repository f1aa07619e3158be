//! Which bricks a call may ask.

ghost use Rattle.std.specs.Prelude.{◌≡◌};
ghost use Rattle.std.specs.List.{list_any};
ghost use Rattle.ssm_world.specs.Worlds.{same_brick, are_distinct, may_be_asked, bricks_of};

use crash_base::BrickNo;
use session_cookie::{Holder, MAX_HOLDERS};

/// Whether a brick is among these.
fn is_among(bricks: &[BrickNo], brick: BrickNo) -> bool
    ensures { result ≡ list_any (same_brick brick) bricks.now }
{
    bricks.iter().any(|other| brick.0 == other.0)
}

/// Whether no brick stands twice. It compares each with each that follows it.
fn are_distinct(bricks: &[BrickNo]) -> bool
    ensures { result ≡ are_distinct bricks.now }
{
    match bricks {
        [] => true,
        [first, rest @ ..] => !is_among(rest, *first) && are_distinct(rest),
    }
}

/// Whether a call may ask these: they are 1 to 16 distinct bricks.
pub(crate) fn may_be_asked(bricks: &[BrickNo]) -> bool
    ensures { result ≡ may_be_asked bricks.now }
{
    1 <= bricks.len() && bricks.len() <= MAX_HOLDERS && are_distinct(bricks)
}

/// Whether a brick is one of these holders.
fn is_holder(holders: &[Holder], brick: BrickNo) -> bool
    ensures { result ≡ list_any (same_brick brick) (bricks_of holders.now) }
{
    let mut rest = holders;
    while let [first, after @ ..] = rest {
        if brick.0 == first.brick.0 {
            return true;
        }
        rest = after;
    }
    false
}

/// Whether no holder's brick stands twice. It compares each with each that follows it.
fn are_apart(holders: &[Holder]) -> bool
    ensures { result ≡ are_distinct (bricks_of holders.now) }
{
    match holders {
        [] => true,
        [first, rest @ ..] => !is_holder(rest, first.brick) && are_apart(rest),
    }
}

/// Whether a read may ask these: they are 1 to 16 distinct bricks.
pub(crate) fn may_be_read(holders: &[Holder]) -> bool
    ensures { result ≡ may_be_asked (bricks_of holders.now) }
{
    1 <= holders.len() && holders.len() <= MAX_HOLDERS && are_apart(holders)
}
