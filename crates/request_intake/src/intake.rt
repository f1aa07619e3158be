//! A request that was taken in.

ghost use Rattle.std.specs.Prelude.{◌≡◌, ◌≤◌, ◌<◌, ◌^◌, true, IfOk, OnErr};
ghost use Rattle.auction_calls.specs.Calls.{is_action};
ghost use Rattle.outside.specs.declared.clock.TheConstants.{MOMENTS_END};
ghost use Rattle.request_intake.specs.Intakes.{TakesIn, TakesInOrder, admission_of, known_request, nonce_of};

use auction_calls::CheckedCall;
use crash_base::{Moment, OutOfMemory, RequestNo, Version};
use http_wire::Head;
use outside::{Clock, Random, Serials, moments_add_up};
use request_decisions::{
    Decision, Draw, DrawKind, DrawRefusal, DrawnList, Order, Refusal, decide, draw_for, number_for,
    ordered_call, orders_are_in_range, request_of,
};
use session_cookie::Cookie;
use site_routes::SiteRouter;
use std::alloc::Global;

/// The boot that requests are taken in by, and its node: numbers and nonces that are drawn bear it.
#[derive(Clone, Copy)]
pub struct HomeBoot {
    pub node: u16,
    pub boot: u32,
}

/// What a request is served with.
#[derive(Drop)]
pub struct Admission {
    /// Its number.
    pub request: RequestNo,
    /// What it asks of the auction, of no user yet: `call_by` makes it that of the user of its session.
    pub call: CheckedCall,
    /// The cookie of its session, where it bears one. That is read before the action.
    pub cookie: Option<Cookie>,
    /// The nonce with which the session is read, where there is a cookie.
    pub read: Version,
    /// The nonce with which the session is written, if it is.
    pub write: Version,
}

/// What becomes of a request at once.
#[derive(Drop)]
pub enum Arrival {
    /// It is refused.
    Refused(Refusal),
    /// A serial number was to be drawn for it, and none is left: this number was looked at. Its own number is told
    /// where it is known.
    SerialsSpent {
        request: Option<RequestNo>,
        seen: u64,
    },
    /// It is to be served.
    Admitted(Admission),
}

/// A request that was taken in.
#[derive(Drop)]
pub struct Intake {
    /// Its moment: what the clock told when it was read for it.
    pub now: Moment,
    /// What was drawn for it, in order.
    pub drawn: DrawnList,
    /// What becomes of it at once.
    pub arrival: Arrival,
}

/// The nonce whose serial was drawn for this.
fn nonce_of(home: HomeBoot, kind: DrawKind, drawn: &[Draw]) -> Version
    ensures { result ≡ nonce_of home kind drawn.now }
{
    Version {
        node: home.node,
        boot: home.boot,
        serial: number_for(drawn, kind),
    }
}

/// The number of a request for which no more was drawn than this, where it is known.
fn known_request(boot: u32, number: Option<RequestNo>, drawn: &[Draw]) -> Option<RequestNo>
    ensures { result ≡ known_request boot number drawn.now }
{
    match number {
        Some(number) => Some(number),
        None => {
            if drawn.is_empty() {
                None
            } else {
                Some(request_of(boot, None, drawn))
            }
        }
    }
}

/// What a request is served with, by its order and what was drawn for it.
fn admission_of(key: &[u8], home: HomeBoot, order: Order, now: Moment, drawn: &[Draw]) -> Admission
    requires action { is_action order.action ≡ true }
    requires moment { now.0 < 2 ^ 62 }
    ensures { result ≡ admission_of key.now home order now drawn.now }
{
    let request = request_of(home.boot, order.number, drawn);
    let read = nonce_of(home, DrawKind::Read, drawn);
    let write = nonce_of(home, DrawKind::Write, drawn);
    let (call, cookie) = ordered_call(key, home.boot, order, now, drawn);
    Admission {
        request,
        call,
        cookie,
        read,
        write,
    }
}

/// Takes in a request that is ordered.
fn take_in_order<R: Random, S: Serials>(
    alloc: Global,
    key: &[u8],
    home: HomeBoot,
    order: Order,
    now: Moment,
    random: &mut R,
    serials: &mut S,
) -> Result<Intake, OutOfMemory>
    requires action { is_action order.action ≡ true }
    requires moment { now.0 < 2 ^ 62 }
    ensures now { IfOk result (λ i. i.now ≡ now) }
    ensures order { IfOk result (λ i. TakesInOrder R.gives S.looks key.now home order now
        random.old serials.old i.drawn i.arrival random.new serials.new) }
    ensures want { OnErr result ((random.new ≡ random.old) × (serials.new ≡ serials.old)) }
{
    match draw_for(alloc, &order, serials, random) {
        Ok(drawn) => {
            let admission = admission_of(key, home, order, now, drawn.as_slice());
            Ok(Intake {
                now,
                drawn,
                arrival: Arrival::Admitted(admission),
            })
        }
        Err(DrawRefusal::Spent { seen, drawn }) => {
            let request = known_request(home.boot, order.number, drawn.as_slice());
            Ok(Intake {
                now,
                drawn,
                arrival: Arrival::SerialsSpent { request, seen },
            })
        }
        Err(DrawRefusal::OutOfMemory) => Err(OutOfMemory),
    }
}

/// Takes in a request: it is decided under the service's key in this boot, the clock is read, and all that its order
/// wants is drawn, in its order. The moment of the request is the last that the clock told; a clock does not tell how
/// often it was read.
///
/// # Errors
/// There is no memory, and nothing was drawn. The clock may have been read.
pub fn take_in<C: Clock, R: Random, S: Serials>(
    alloc: Global,
    router: &SiteRouter,
    key: &[u8],
    home: HomeBoot,
    head: &Head,
    clock: &mut C,
    random: &mut R,
    serials: &mut S,
) -> Result<Intake, OutOfMemory>
    ensures taken { IfOk result (λ i. TakesIn R.gives S.looks key.now home head.now
        random.old serials.old i random.new serials.new) }
    ensures moment { IfOk result (λ i. (C.told clock.old ≤ i.now.0) × (C.told clock.new ≡ i.now.0)) }
    ensures small { IfOk result (λ i. i.now.0 < MOMENTS_END) }
    ensures rises { C.told clock.old ≤ C.told clock.new }
    ensures want { OnErr result ((random.new ≡ random.old) × (serials.new ≡ serials.old)) }
{
    orders_are_in_range();
    moments_add_up();
    let decision = decide(alloc, router, key, home.boot, head)?;
    let now = clock.now();
    match decision {
        Decision::Refused(refusal) => Ok(Intake {
            now,
            drawn: DrawnList::new(alloc),
            arrival: Arrival::Refused(refusal),
        }),
        Decision::Ordered(order) => {
            let intake = take_in_order(alloc, key, home, order, now, random, serials)?;
            Ok(intake)
        }
    }
}
