//! Whole pages, byte by byte.

use crate::shop::SHOP;
use crate::tables::driven_by;
use crate::words::{expect_so, text_of};
use std::alloc::Global;
use std::process::Abort;

const HOME: &str = "<!doctype html>
<title>Auctions</title>
<h1>Auctions</h1>
<p>Signed out</p>
<p><a href=\"/categories\">Categories</a></p>
";

const NOT_THERE: &str = "<!doctype html>
<title>Not there</title>
<h1>Not there</h1>
";

/// The heading has 45 bytes once it is escaped, so the lines have 16, 61, 55, 18, 17 and 22, which are 189.
const ITEM: &str = "<!doctype html>
<title>Salt &amp; &lt;Pepper&gt; &quot;S&#39;P&quot;</title>
<h1>Salt &amp; &lt;Pepper&gt; &quot;S&#39;P&quot;</h1>
<p>Seller bob</p>
<p>Price 250</p>
<p>Sold to user 3</p>
";

fn expect_page(rt: &impl Abort, alloc: Global, call: &str, want: &str, len: usize) {
    let driven = driven_by(rt, alloc, SHOP, call);
    let page = driven.done.page.as_slice();
    expect_so(rt, text_of(rt, page) == want, call);
    expect_so(rt, page.len() == len, call);
}

#[test]
fn pages_have_their_bytes(rt: HostRuntime) {
    expect_page(&rt, rt.alloc(), "0 1000 home", HOME, 120);
    expect_page(&rt, rt.alloc(), "0 1000 item 99", NOT_THERE, 60);
    let sold =
        "0 1000 item 2|with 4.2 item sold 2 1 100 500 250 3 2 5000 3 none Salt & <Pepper> \"S'P\"";
    expect_page(&rt, rt.alloc(), sold, ITEM, 189);
}
