//! The fields and the tag that bytes are.

ghost use Rattle.std.specs.Prelude.{◌≡◌, ◌<◌, ◌≤◌, ◌+◌, ◌*◌, ◌↔◌, ◌++◌, ◌==◌, length, IfOk, IsTrue, MatchOption, All};
ghost use Rattle.std.specs.List.{flat_map, list_any};
ghost use Rattle.session_cookie.specs.declared.cookie.TheConstants.{HOLDER_BYTES, MAX_HOLDERS, TAG_BYTES};
ghost use Rattle.session_cookie.specs.declared.cookie.Holder.{Holder};
ghost use Rattle.session_cookie.specs.Cookie.{holder_bytes, AreDistinct, IsHolder};
ghost use Rattle.session_cookie.specs.Reading.{are_distinct, HasBricks, HasNoBricks};
ghost use Rattle.session_cookie.specs.Text.{HasForm, HasNoForm};

use crate::cookie::{Cookie, HOLDER_BYTES, Holder, HolderList, MAX_HOLDERS, TAG_BYTES};
use crate::reading::{Head, take_head, take_holder};
use crash_base::{BrickNo, OutOfMemory};
use std::alloc::Global;

/// Whether one of these is that brick.
fn is_among(brick: BrickNo, holders: &[Holder]) -> bool
    ensures { result ≡ list_any (λ (h : Holder). brick.0 == h.brick.0) holders.now }
{
    holders.iter().any(|holder| brick.0 == holder.brick.0)
}

/// Whether no brick stands twice.
fn are_distinct(holders: &[Holder]) -> bool
    ensures { result ≡ are_distinct holders.now }
{
    match holders {
        [] => true,
        [first, rest @ ..] => !is_among(first.brick, rest) && are_distinct(rest),
    }
}

/// The holders that bytes are, 10 for each.
fn holders_of(alloc: Global, count: usize, bytes: &[u8]) -> Result<HolderList, OutOfMemory>
    requires { length bytes.now ≡ HOLDER_BYTES * count }
    ensures { IfOk result (λ holders. (length holders ≡ count) × All IsHolder holders
        × (bytes.now ≡ flat_map holder_bytes holders)) }
{
    let mut holders = Vec::with_capacity(alloc, count)?;
    let mut left = bytes;
    while let Some((holder, rest)) = take_holder(left) {
        holders.push(holder)?;
        left = rest;
    }
    Ok(HolderList::from_vec(holders))
}

/// Whether so many bricks, 1 to 16, and a tag have this many bytes.
fn has_sizes(count: usize, len: usize) -> bool
    requires { count < 256 }
    ensures { IsTrue result ↔ ((1 ≤ count) × (count ≤ MAX_HOLDERS)
        × (len ≡ HOLDER_BYTES * count + TAG_BYTES)) }
{
    1 <= count && count <= MAX_HOLDERS && len == HOLDER_BYTES * count + TAG_BYTES
}

/// The bricks, if they are as many as the head says, 1 to 16, and distinct, and the tag behind them.
fn bricks_of<'a>(
    alloc: Global,
    count: usize,
    bytes: &'a [u8],
) -> Result<Option<(HolderList, &'a [u8])>, OutOfMemory>
    requires { count < 256 }
    ensures { IfOk result (λ found. MatchOption found (HasNoBricks count bytes.now)
        (λ bricks. HasBricks count bytes.now bricks.0 bricks.1.now)) }
{
    if !has_sizes(count, bytes.len()) {
        return Ok(None);
    }
    let (holders, tag) = bytes.split_at(HOLDER_BYTES * count);
    let holders = holders_of(alloc, count, holders)?;
    if are_distinct(holders.as_slice()) {
        Ok(Some((holders, tag)))
    } else {
        Ok(None)
    }
}

/// The cookie and the tag that bytes are. None exactly where they are none.
pub fn form_of<'a>(
    alloc: Global,
    bytes: &'a [u8],
) -> Result<Option<(Cookie, &'a [u8])>, OutOfMemory>
    ensures { IfOk result (λ found. MatchOption found (HasNoForm bytes.now)
        (λ form. HasForm bytes.now form.0 form.1.now)) }
{
    let Some((head, rest)) = take_head(bytes) else {
        return Ok(None);
    };
    match bricks_of(alloc, usize::from(head.count), rest)? {
        None => Ok(None),
        Some((bricks, tag)) => {
            let Head {
                key,
                version,
                expiry,
                ..
            } = head;
            Ok(Some((
                Cookie {
                    key,
                    version,
                    expiry,
                    bricks,
                },
                tag,
            )))
        }
    }
}
