//! Numbers that are given one after the other.

ghost use Rattle.std.specs.Prelude.{◌≡◌, ◌+◌, ◌<◌, nat_le};
ghost use Rattle.auction_site.specs.declared.limits.TheConstants.{LAST_NUMBER};

use auction_site::LAST_NUMBER;

/// Whether as many are counted as may be.
pub fn is_last_number(count: u64) -> bool
    ensures { result ≡ nat_le LAST_NUMBER count }
{
    count >= LAST_NUMBER
}

/// The number after those that are counted.
pub fn next_number(count: u64) -> u32
    requires { count < LAST_NUMBER }
    ensures { result ≡ count + 1 }
{
    (count + 1) as u32
}
