//! Whole stories of clients, as a browser would tell them.

use crate::play::{SHOP, expect_lines, played};
use crate::scene::PLAIN;
use crate::words::expect_words;
use std::process::Abort;

/// Ann offers an item, and Ben bids for it, sends his bid again, and buys it. Each form of a new client and each
/// sign-in writes the session; each other request reads it. The write of serial S is heard of two bricks, from brick S
/// mod 3 + 1 on.
const SALE: &str = "\
ann get / > 200 Auctions, page 0 | 1:0 0-1 2 0/0 at 0
ann get /form/register > 200 Form register, page 1 | 1:2 1-2 3 0/3 at 0 cookie 4 1800000 2 3
ann post /register name=ann&password=pw1 > 200 Welcome ann, page 2 | 1:3 2-3 4 0/7 at 0 value 00000000000000000000000000000000 cookie 6 1800000 1 2
ann get /form/category > 200 Form category, page 3 | 1:7 3-4 5 0/8 at 0 value 00000000000000010000000000000000
ann post /categories name=Books > 200 Category 1, page 4 | 1:8 4-5 6 0/9 at 0 value 00000000000000010000000000000000
ann get /form/sell > 200 Form sell, page 5 | 1:13 5-6 7 0/10 at 0 value 00000000000000010000000000000000
ann post /sell title=Atlas&category=1&start=100&buy_now=1000&hours=24 > 200 Item 1, page 6 | 1:14 6-7 8 0/11 at 0 value 00000000000000010000000000000000
ben get /form/register > 200 Form register, page 7 | 1:19 7-8 9 0/14 at 0 cookie 21 1800000 1 2
ben post /register name=ben&password=pw2 > 200 Welcome ben, page 8 | 1:20 8-9 10 0/18 at 0 value 00000000000000000000000000000000 cookie 23 1800000 3 1
ben get /form/bid > 200 Form bid, page 9 | 1:24 9-10 11 0/19 at 0 value 00000000000000020000000000000000
reboot 3
ben post /bid item=1&amount=500 > 200 Bid 1 on item 1, page 12 | 1:25 12-13 14 0/20 at 0 value 00000000000000020000000000000000
ben post /bid item=1&amount=500 > 200 Bid 1 on item 1, again 12 | 1:25 13-13 14 0/21 at 0 value 00000000000000020000000000000000
ben get /form/buy > 200 Form buy, page 13 | 1:32 13-14 15 0/22 at 0 value 00000000000000020000000000000000
ben post /buy item=1 > 200 Bought item 1, page 14 | 1:33 14-15 16 0/23 at 0 value 00000000000000020000000000000000
ben get /form/feedback > 200 Form feedback, page 15 | 1:38 15-16 17 0/24 at 0 value 00000000000000020000000000000000
ben post /feedback item=1&good=1&text=Fine > 200 Thanks, page 16 | 1:39 16-17 18 0/25 at 0 value 00000000000000020000000000000000";

/// Behind `SHOP` Cat bids as much as the greatest bid, one cent more, and more than there may be. Her bid by
/// another form, which is as high as her own, is too low: only the form that made a bid is told its page again.
const BIDS: &str = "\
ben post /bid item=1&amount=500 > 200 Bid 1 on item 1, page 12 | 1:28 12-13 14 0/28 at 0 value 00000000000000020000000000000000
cat post /bid item=1&amount=500 > 409 Bid too low, page 13 | 1:32 13-14 15 0/29 at 0 value 00000000000000030000000000000000
cat get /form/bid > 200 Form bid, page 14 | 1:39 14-15 16 0/30 at 0 value 00000000000000030000000000000000
cat post /bid item=1&amount=501 > 200 Bid 2 on item 1, page 15 | 1:40 15-16 17 0/31 at 0 value 00000000000000030000000000000000
cat get /form/bid > 200 Form bid, page 16 | 1:45 16-17 18 0/32 at 0 value 00000000000000030000000000000000
cat post /bid item=1&amount=501 > 409 Bid too low, page 17 | 1:46 17-18 19 0/33 at 0 value 00000000000000030000000000000000
cat get /form/bid > 200 Form bid, page 18 | 1:51 18-19 20 0/34 at 0 value 00000000000000030000000000000000
cat post /bid item=1&amount=4000000001 > 400 Bad field amount, badform amount | none 19-19 0 0/34 at 0";

#[test]
fn an_item_is_sold(rt: HostRuntime) {
    let mut play = played(&rt, rt.alloc(), PLAIN, "now 0");
    expect_lines(&rt, rt.alloc(), &mut play, SALE);
    assert!(rt; play.site.container().journal().len() == 17);
    let mut words = String::new(rt.alloc());
    crate::telling::add_windows(&rt, &mut words, play.site.windows());
    expect_words(
        &rt,
        &words,
        "1:8/0 2:8/0 3:8/0",
        "four writes, each answered by all",
    );
}

#[test]
fn bids_rise(rt: HostRuntime) {
    let mut play = played(&rt, rt.alloc(), PLAIN, SHOP);
    expect_lines(&rt, rt.alloc(), &mut play, BIDS);
    assert!(rt; play.site.container().journal().len() == 19);
}
