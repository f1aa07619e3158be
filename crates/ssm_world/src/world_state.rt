//! Bricks, packets and calls, and what each event makes of them.

ghost use Rattle.std.specs.Prelude.{◌≡◌, ◌<◌, true, is_some, List, length, slice_get, Some, None, OnOk, OnErr, IfOk, option_map, if◌then◌else◌};
ghost use Rattle.brick_store.specs.declared.event.BrickEvent.{BrickEvent};
ghost use Rattle.brick_store.specs.History.{all_held, incarnation_after};
ghost use Rattle.ssm_stub.specs.declared.event.StubNext.TheVariants as next;
ghost use Rattle.ssm_stub.specs.declared.event.Told.TheVariants as told;
ghost use Rattle.ssm_stub.specs.Writes.{write_start};
ghost use Rattle.ssm_world.specs.declared.call.Call.{Call};
ghost use Rattle.ssm_world.specs.declared.call.Call.TheVariants as call;
ghost use Rattle.ssm_world.specs.declared.event.WorldEvent.TheVariants.{Write, Read, Deliver};
ghost use Rattle.ssm_world.specs.Worlds.{new_world, history, is_new, next_of, may_be_asked, told_by_send, told_by_packet, sent, came, hushed, delivered, crashed, swept, step, told_if, told_by_hush, may_write, may_read, may_crash, may_happen};

use crate::asking::{may_be_asked, may_be_read};
use crate::call::Call;
use crate::call_list::CallList;
use crate::copies::{copied_bricks, copied_cookie, copied_frame, copied_value};
use crate::event::{Packet, WorldEvent};
use crate::logged_bricks::LoggedBricks;
use crate::nonced_call::NoncedCall;
use crash_base::{BrickNo, Moment, OutOfMemory, SessionBytes, SessionKey, Version};
use session_cookie::Cookie;
use ssm_frames::is_request;
use ssm_stub::{BrickList, StubNext, Told};
use std::alloc::Global;
use std::marker::Model;

/// The bricks with what happened to them, all packets ever sent, and all calls.
#[derive(Drop)]
pub(crate) struct WorldState {
    bricks: LoggedBricks,
    packets: Vec<Packet>,
    calls: CallList,
}

impl Model for WorldState {
    ghost use Rattle.ssm_world.specs.Worlds.{WorldValue};

    ghost Value = { WorldValue };

    ghost view = { λ w. record { histories = w.bricks; packets = w.packets.items; calls = w.calls } };
}

/// What a call is told that sends.
fn told_of_send(silent: bool) -> Told
    ensures { result ≡ (if silent then told.Silent else told.Sent) }
{
    if silent { Told::Silent } else { Told::Sent }
}

/// What a call that is to receive from this brick is told of the packet of this number, if it is a reply
/// of that brick.
fn told_of_packet(
    packets: &[Packet],
    alloc: Global,
    packet: u64,
    brick: BrickNo,
) -> Result<Option<Told>, OutOfMemory>
    ensures told { IfOk result (λ told. told ≡ told_by_packet (slice_get packets.now packet) (next.Receive brick)) }
    ensures memory { OnErr result (is_some (told_by_packet (slice_get packets.now packet) (next.Receive brick)) ≡ true) }
{
    if packet >= packets.len() as u64 {
        return Ok(None);
    }
    let found = &packets[packet as usize];
    if found.brick.0 != brick.0 || is_request(&found.frame) {
        return Ok(None);
    }
    let frame = copied_frame(alloc, &found.frame)?;
    Ok(Some(Told::Came(Some(frame))))
}

/// A write of a copy of this value, at copies of these bricks, of which nothing was sent.
fn write_call(
    alloc: Global,
    nonce: Version,
    key: SessionKey,
    value: &SessionBytes,
    expiry: Moment,
    bricks: &BrickList,
    least: u16,
) -> Result<NoncedCall, OutOfMemory>
    ensures { IfOk result (λ c. c ≡ call.Write (write_start bricks.now least nonce key value.now expiry)) }
{
    let copy = copied_bricks(alloc, bricks)?;
    let kept = copied_value(alloc, value)?;
    NoncedCall::write(alloc, copy, least, nonce, key, kept, expiry)
}

impl WorldState {
    /// Bricks 1 to this number, each of incarnation 1, before any event.
    pub(crate) fn new(alloc: Global, bricks: u16) -> Result<WorldState, OutOfMemory>
        ensures { IfOk result (λ w. w ≡ new_world bricks) }
    {
        let bricks = LoggedBricks::new(alloc, bricks)?;
        Ok(WorldState {
            bricks,
            packets: Vec::new(alloc),
            calls: CallList::new(alloc),
        })
    }

    /// The call of this number, if there is one. It takes no memory.
    pub(crate) fn call_of(&self, call: u64) -> Option<&Call>
        ensures { option_map (λ c. c.now) result ≡ slice_get self.now.calls call }
    {
        self.calls.get(call)
    }

    /// How many calls there are. It takes no memory.
    pub(crate) fn calls(&self) -> u64
        ensures { result ≡ length self.now.calls }
    {
        self.calls.len()
    }

    /// What the call of this number wants next, if there is one. It takes no memory.
    pub(crate) fn next_of(&self, call: u64) -> Option<StubNext>
        ensures { result ≡ option_map next_of (slice_get self.now.calls call) }
    {
        self.calls.next_of(call)
    }

    /// Whether no call has this nonce. It takes no memory. Its cost is the logarithm of the number of calls.
    pub(crate) fn is_new(&self, nonce: Version) -> bool
        ensures { result ≡ is_new self.now nonce }
    {
        self.calls.is_new(nonce)
    }

    /// How many packets were sent. It takes no memory.
    pub(crate) fn packets(&self) -> u64
        ensures { result ≡ length self.now.packets }
    {
        self.packets.len() as u64
    }

    /// The packet of this number, if there is one. It takes no memory.
    pub(crate) fn packet_of(&self, packet: u64) -> Option<&Packet>
        ensures { option_map (λ p. p.now) result ≡ slice_get self.now.packets packet }
    {
        if packet < self.packets.len() as u64 {
            Some(&self.packets[packet as usize])
        } else {
            None
        }
    }

    /// How many bricks there are. It takes no memory.
    pub(crate) fn bricks(&self) -> u16
        ensures { result ≡ length self.now.histories }
    {
        self.bricks.len()
    }

    /// How many values a brick holds, if there is one of this number. It takes no memory.
    pub(crate) fn values(&self, brick: BrickNo) -> Option<u64>
        ensures { result ≡ option_map (λ (h : List BrickEvent). length (all_held h)) (history self.now brick) }
    {
        self.bricks.values(brick)
    }

    /// A brick's incarnation, if there is one of this number. It takes no memory.
    pub(crate) fn incarnation(&self, brick: BrickNo) -> Option<u64>
        ensures { result ≡ option_map (λ (h : List BrickEvent). incarnation_after 1 h) (history self.now brick) }
    {
        self.bricks.incarnation(brick)
    }

    /// A call sends its ask.
    fn send(
        &mut self,
        alloc: Global,
        call: u64,
        silent: bool,
        is_sent: bool,
    ) -> Result<(), OutOfMemory>
        ensures ok { OnOk result (self.new ≡ sent self.old call silent is_sent (slice_get self.old.calls call)) }
        ensures err { OnErr result (self.new ≡ self.old) }
        ensures memory { OnErr result (is_some (told_if (told_by_send silent) (slice_get self.old.calls call)) ≡ true) }
    {
        match self.calls.next_of(call) {
            Some(StubNext::Send { brick }) => {
                let frame = self.calls.ask(alloc, call)?;
                let told = told_of_send(silent);
                self.packets.reserve(1)?;
                self.calls.tell(alloc, call, told)?;
                if is_sent {
                    self.packets.push_reserved(Packet { brick, frame });
                }
                Ok(())
            }
            _ => Ok(()),
        }
    }

    /// The link is silent to a call that is to receive.
    fn hush(&mut self, alloc: Global, call: u64) -> Result<(), OutOfMemory>
        ensures ok { OnOk result (self.new ≡ hushed self.old call (slice_get self.old.calls call)) }
        ensures err { OnErr result (self.new ≡ self.old) }
        ensures memory { OnErr result (is_some (told_if told_by_hush (slice_get self.old.calls call)) ≡ true) }
    {
        match self.calls.next_of(call) {
            Some(StubNext::Receive { .. }) => self.calls.tell(alloc, call, Told::Silent),
            _ => Ok(()),
        }
    }

    /// A packet reaches its brick, whose reply is sent where the packet is a request.
    fn deliver(&mut self, alloc: Global, packet: u64) -> Result<(), OutOfMemory>
        ensures ok { OnOk result (self.new ≡ delivered self.old (slice_get self.old.packets packet)) }
        ensures err { OnErr result (self.new ≡ self.old) }
        ensures memory { OnErr result (may_happen self.old (Deliver packet) ≡ true) }
    {
        if packet >= self.packets.len() as u64 {
            return Ok(());
        }
        let brick = self.packets[packet as usize].brick;
        if !self.bricks.has(brick) || !is_request(&self.packets[packet as usize].frame) {
            return Ok(());
        }
        self.packets.reserve(1)?;
        let frame = self
            .bricks
            .answer(alloc, brick, &self.packets[packet as usize].frame)?;
        self.packets.push_reserved(Packet { brick, frame });
        Ok(())
    }

    /// A packet comes to a call, which hears it where it is a reply of the brick that it receives from.
    fn come(&mut self, alloc: Global, call: u64, packet: u64) -> Result<(), OutOfMemory>
        ensures ok { OnOk result (self.new ≡ came self.old call (slice_get self.old.packets packet) (slice_get self.old.calls call)) }
        ensures err { OnErr result (self.new ≡ self.old) }
        ensures memory { OnErr result (is_some (told_if (told_by_packet (slice_get self.old.packets packet)) (slice_get self.old.calls call)) ≡ true) }
    {
        match self.calls.next_of(call) {
            Some(StubNext::Receive { brick }) => {
                match told_of_packet(self.packets.as_slice(), alloc, packet, brick)? {
                    None => Ok(()),
                    Some(told) => {
                        self.calls.tell(alloc, call, told)?;
                        Ok(())
                    }
                }
            }
            _ => Ok(()),
        }
    }

    /// A brick crashes, where it may.
    fn crash(&mut self, brick: BrickNo) -> Result<(), OutOfMemory>
        ensures ok { OnOk result (self.new ≡ crashed self.old brick (history self.old brick)) }
        ensures err { OnErr result (self.new ≡ self.old) }
        ensures memory { OnErr result (may_crash (history self.old brick) ≡ true) }
    {
        match self.bricks.incarnation(brick) {
            None => return Ok(()),
            Some(incarnation) => {
                if incarnation == u64::MAX {
                    return Ok(());
                }
            }
        }
        self.bricks.crash(brick)?;
        Ok(())
    }

    /// A brick is swept.
    fn sweep(&mut self, brick: BrickNo, moment: Moment) -> Result<(), OutOfMemory>
        ensures ok { OnOk result (self.new ≡ swept self.old brick moment (history self.old brick)) }
        ensures err { OnErr result (self.new ≡ self.old) }
        ensures memory { OnErr result (is_some (history self.old brick) ≡ true) }
    {
        if !self.bricks.has(brick) {
            return Ok(());
        }
        self.bricks.sweep(brick, moment)?;
        Ok(())
    }

    /// A write begins, where it may.
    fn write(
        &mut self,
        alloc: Global,
        nonce: Version,
        key: SessionKey,
        value: &SessionBytes,
        expiry: Moment,
        bricks: &BrickList,
        least: u16,
    ) -> Result<(), OutOfMemory>
        ensures ok { OnOk result (self.new ≡ step self.old (Write nonce key value.now expiry bricks.now least)) }
        ensures err { OnErr result (self.new ≡ self.old) }
        ensures memory { OnErr result (may_write self.old nonce bricks.now least ≡ true) }
    {
        let asked = bricks.as_slice();
        if !self.is_new(nonce) || !may_be_asked(asked) {
            return Ok(());
        }
        if least == 0 || least as usize > asked.len() {
            return Ok(());
        }
        let call = write_call(alloc, nonce, key, value, expiry, bricks, least)?;
        self.calls.push(call)
    }

    /// A read begins, where it may.
    fn read(
        &mut self,
        alloc: Global,
        nonce: Version,
        moment: Moment,
        cookie: &Cookie,
    ) -> Result<(), OutOfMemory>
        ensures ok { OnOk result (self.new ≡ step self.old (Read nonce moment cookie.now)) }
        ensures err { OnErr result (self.new ≡ self.old) }
        ensures memory { OnErr result (may_read self.old nonce cookie.now.bricks ≡ true) }
    {
        if !self.is_new(nonce) || !may_be_read(cookie.bricks.as_slice()) {
            return Ok(());
        }
        let copy = copied_cookie(alloc, cookie)?;
        let call = NoncedCall::read(alloc, moment, nonce, copy)?;
        self.calls.push(call)?;
        Ok(())
    }

    /// An event happens.
    pub(crate) fn step(&mut self, alloc: Global, event: &WorldEvent) -> Result<(), OutOfMemory>
        ensures ok { OnOk result (self.new ≡ step self.old event.now) }
        ensures err { OnErr result (self.new ≡ self.old) }
        ensures memory { OnErr result (may_happen self.old event.now ≡ true) }
    {
        match event {
            WorldEvent::Write {
                nonce,
                key,
                value,
                expiry,
                bricks,
                least,
            } => self.write(alloc, *nonce, *key, value, *expiry, bricks, *least),
            WorldEvent::Read { nonce, now, cookie } => self.read(alloc, *nonce, *now, cookie),
            WorldEvent::Send { call, silent, sent } => {
                self.send(alloc, *call, *silent, !*silent || *sent)
            }
            WorldEvent::Deliver { packet } => self.deliver(alloc, *packet),
            WorldEvent::Hear { call, packet } => self.come(alloc, *call, *packet),
            WorldEvent::Hush { call } => self.hush(alloc, *call),
            WorldEvent::Crash { brick } => self.crash(*brick),
            WorldEvent::Sweep { brick, moment } => self.sweep(*brick, *moment),
        }
    }
}
