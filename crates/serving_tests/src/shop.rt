//! Tests of stories of clients, a connection for each request.

ghost use Rattle.std.specs.Prelude.{◌≡◌};

use crate::browser::Client;
use crate::play::ask;
use crate::site::{PARTS, open};
use crate::visitor::Visitor;
use crash_base::{GroupNo, Scope};
use std::alloc::Global;
use std::process::Abort;
use std::sync::Wait;

/// Who asks, the target, the form of an action, if it is one, and the heading of the page that is answered.
pub type Ask = (&'static str, &'static str, &'static str, &'static str);

/// Ann offers an item, and Ben is about to bid for it.
pub const OFFER: [Ask; 10] = [
    ("ann", "/", "", "Auctions"),
    ("ann", "/form/register", "", "Form register"),
    ("ann", "/register", "name=ann&password=pw1", "Welcome ann"),
    ("ann", "/form/category", "", "Form category"),
    ("ann", "/categories", "name=Books", "Category 1"),
    ("ann", "/form/sell", "", "Form sell"),
    (
        "ann",
        "/sell",
        "title=Atlas&category=1&start=100&buy_now=100000&hours=24",
        "Item 1",
    ),
    ("ben", "/form/register", "", "Form register"),
    ("ben", "/register", "name=ben&password=pw2", "Welcome ben"),
    ("ben", "/form/bid", "", "Form bid"),
];

/// Ben bids, buys, and says how it was.
const PURCHASE: [Ask; 5] = [
    ("ben", "/bid", "item=1&amount=500", "Bid 1 on item 1"),
    ("ben", "/form/buy", "", "Form buy"),
    ("ben", "/buy", "item=1", "Bought item 1"),
    ("ben", "/form/feedback", "", "Form feedback"),
    ("ben", "/feedback", "item=1&good=1&text=Fine", "Thanks"),
];

/// Asks for what a client wants, and looks at the status and the heading. The place of the entry that the page is of.
pub fn expect_page<W: Wait + Abort>(
    rt: &W,
    alloc: Global,
    visitor: &mut Visitor<'_>,
    client: &mut Client,
    wants: &Ask,
    cut: u64,
) -> Option<u64>
    ensures there { visitor.new.shared.now ≡ visitor.old.shared.now }
{
    let (_, target, form, heading) = *wants;
    let request = if form.is_empty() {
        client.get(rt, alloc, target)
    } else {
        client.post(rt, alloc, target, form)
    };
    let (response, place) = ask(rt, alloc, visitor, client, &request, cut);
    let heading = format!(in alloc; "<h1>{heading}</h1>").expect(rt, "a heading");
    assert!(rt; response.starts_with("HTTP/1.1 200 OK\r\n"));
    assert!(rt; response.contains(heading.as_str()));
    place
}

/// Goes through what both ask for. Each page is of an entry of its own: the first is at this place, and each other one
/// right behind the one before.
pub fn expect_pages<W: Wait + Abort>(
    rt: &W,
    alloc: Global,
    visitor: &mut Visitor<'_>,
    ann: &mut Client,
    ben: &mut Client,
    asks: &[Ask],
    first: u64,
)
    ensures there { visitor.new.shared.now ≡ visitor.old.shared.now }
{
    let mut want = first;
    for wants in asks {
        let place = if wants.0 == "ann" {
            expect_page(rt, alloc, visitor, ann, wants, 1000)
        } else {
            expect_page(rt, alloc, visitor, ben, wants, 1000)
        };
        assert!(rt; place == Some(want));
        want = want.wrapping_add(1);
    }
}

/// The bidding group is rebooted before the bid, and the bid is sent twice, of which the second adds no entry.
#[test]
fn an_item_is_sold(rt: HostRuntime) {
    let alloc = rt.alloc();
    let (shared, seat, _pass) = open(alloc).expect(&rt, "a site");
    let mut visitor = Visitor::new(alloc, &shared, seat, PARTS, 1).expect(&rt, "who serves");
    let mut ann = Client::new(alloc);
    let mut ben = Client::new(alloc);
    expect_pages(&rt, alloc, &mut visitor, &mut ann, &mut ben, &OFFER, 0);
    assert!(rt; visitor.reboot(&rt, Scope::Group(GroupNo(3))));
    let place = expect_page(&rt, alloc, &mut visitor, &mut ben, &PURCHASE[0], 1000);
    assert!(rt; place == Some(12));
    expect_pages(&rt, alloc, &mut visitor, &mut ann, &mut ben, &PURCHASE, 12);
}

/// A bid is cut in two at each place. The first is made, and each other one is the same request again.
#[test]
fn a_bid_is_answered_wherever_it_is_cut(rt: HostRuntime) {
    let alloc = rt.alloc();
    let (shared, seat, _pass) = open(alloc).expect(&rt, "a site");
    let mut visitor = Visitor::new(alloc, &shared, seat, PARTS, 1).expect(&rt, "who serves");
    let mut ann = Client::new(alloc);
    let mut ben = Client::new(alloc);
    expect_pages(&rt, alloc, &mut visitor, &mut ann, &mut ben, &OFFER, 0);
    for cut in 1..500 {
        let place = expect_page(&rt, alloc, &mut visitor, &mut ben, &PURCHASE[0], cut);
        assert!(rt; place == Some(10));
    }
}
