//! What a cookie says, and the fields that say it.

ghost use Rattle.std.specs.Prelude.{◌≡◌, ◌^◌, ◌<◌, ◌≤◌, ◌++◌, ◌∷◌, [], length, IfOk, OnOk, All};
ghost use Rattle.std.specs.List.{flat_map};
ghost use Rattle.session_cookie.specs.Cookie.{cookie_fields, head_bytes, holder_bytes, version_bytes, AreHolders, IsCookie, IsHead, IsHolder, IsKey};

use crash_base::{BrickNo, Items, Moment, OutOfMemory, SessionKey, Version};
use std::alloc::Global;

/// The most bricks of a cookie.
pub const MAX_HOLDERS: usize = 16;

/// How many bytes the fields before the bricks have.
pub const HEAD_BYTES: usize = 40;

/// How many bytes a brick and its incarnation have.
pub const HOLDER_BYTES: usize = 10;

/// How many bytes a tag has.
pub const TAG_BYTES: usize = 32;

/// A brick that holds a session.
#[derive(Clone, Copy)]
pub struct Holder {
    /// Any brick.
    pub brick: BrickNo,
    /// The incarnation in which the brick stored the session. A brick's grows by one at each crash.
    pub incarnation: u64,
}

/// Bricks that hold a session, in order.
pub type HolderList = Items<Holder>;

/// What a client knows of its session.
#[derive(Drop)]
pub struct Cookie {
    /// The session's key: any 16 bytes.
    pub key: SessionKey,
    /// The version of the session's value.
    pub version: Version,
    /// The last moment, in milliseconds, at which the cookie may be used: any number.
    pub expiry: Moment,
    /// The bricks that hold this version. A text says 1 to 16 of them (`MAX_HOLDERS`), no two alike.
    pub bricks: HolderList,
}

#[tactic(auto, unfolding(crate::specs::Cookie::version_bytes))]
fn write_version(bytes: &mut Vec<u8>, version: Version) -> Result<(), OutOfMemory>
    ensures { OnOk result (bytes.new.items ≡ bytes.old.items ++ version_bytes version) }
{
    bytes.extend_from_slice(&version.node.to_be_bytes())?;
    bytes.extend_from_slice(&version.boot.to_be_bytes())?;
    Ok(bytes.extend_from_slice(&version.serial.to_be_bytes())?)
}

fn bytes_are_in_range(bytes: &[u8])
    ensures { All (λ b. b < 2 ^ 8) bytes.now }
{}

/// A key that the code holds is 16 bytes.
pub fn key_is_in_range(key: &SessionKey)
    ensures { IsKey key.now }
{
    bytes_are_in_range(&key.0)
}

/// Adds the fields before the bricks.
#[tactic(auto, unfolding(crate::specs::Cookie::head_bytes))]
fn write_head(
    bytes: &mut Vec<u8>,
    key: SessionKey,
    version: Version,
    expiry: Moment,
    count: u8,
) -> Result<(), OutOfMemory>
    ensures value { OnOk result (bytes.new.items ≡ bytes.old.items
        ++ head_bytes key version expiry count) }
    ensures head { IsHead key version expiry }
{
    key_is_in_range(&key);
    bytes.push(1)?;
    bytes.extend_from_slice(&key.0)?;
    write_version(bytes, version)?;
    bytes.extend_from_slice(&expiry.0.to_be_bytes())?;
    Ok(bytes.push(count)?)
}

#[tactic(auto, unfolding(crate::specs::Cookie::holder_bytes))]
fn write_holder(bytes: &mut Vec<u8>, holder: Holder) -> Result<(), OutOfMemory>
    ensures value { OnOk result (bytes.new.items ≡ bytes.old.items ++ holder_bytes holder) }
    ensures holder { IsHolder holder }
{
    bytes.extend_from_slice(&holder.brick.0.to_be_bytes())?;
    Ok(bytes.extend_from_slice(&holder.incarnation.to_be_bytes())?)
}

fn write_holders(bytes: &mut Vec<u8>, holders: &[Holder]) -> Result<(), OutOfMemory>
    ensures value { OnOk result (bytes.new.items ≡ bytes.old.items
        ++ flat_map holder_bytes holders.now) }
    ensures holders { OnOk result (All IsHolder holders.now) }
{
    for holder in holders {
        write_holder(bytes, *holder)?;
    }
    Ok(())
}

/// The fields of a cookie. Each number is then seen to be in its range.
pub fn fields_of(alloc: Global, cookie: &Cookie) -> Result<Vec<u8>, OutOfMemory>
    requires { AreHolders cookie.now.bricks }
    ensures { IfOk result (λ bytes. IsCookie cookie.now × (bytes.items ≡ cookie_fields cookie.now)) }
{
    let holders = cookie.bricks.as_slice();
    let mut bytes = Vec::with_capacity(
        alloc,
        HEAD_BYTES + HOLDER_BYTES * holders.len() + TAG_BYTES,
    )?;
    write_head(
        &mut bytes,
        cookie.key,
        cookie.version,
        cookie.expiry,
        holders.len() as u8,
    )?;
    write_holders(&mut bytes, holders)?;
    Ok(bytes)
}
