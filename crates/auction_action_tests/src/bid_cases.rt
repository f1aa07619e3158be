//! Bids, sales at once and ends of auctions.

use crate::shop::SHOP;
use crate::tables::expect_table;

/// Bids are taken. A bid is taken from the start on, above the best bid, before the end, also by who bid best, and
/// for any amount. Bid n of item 1 stands at 2^20 + n, that of item 2 at 2 * 2^20 + n.
const TAKEN: &str = "\
3 1000 bid 1 100|is 200 Bid 1 on item 1|put 6.1048577 bid 3 100 1000|\
put 4.1 item running 2 1 100 500 100 3 1 5000 0 none Atlas
4 4999 bid 2 251|is 200 Bid 3 on item 2|put 6.2097155 bid 4 251 4999|\
put 4.2 item running 2 1 100 500 251 4 3 5000 0 none Novel
1 1000 bid 2 300|is 200 Bid 3 on item 2|put 6.2097155 bid 1 300 1000|\
put 4.2 item running 2 1 100 500 300 1 3 5000 0 none Novel
3 0 bid 2 4000000000|is 200 Bid 3 on item 2|put 6.2097155 bid 3 4000000000 0|\
put 4.2 item running 2 1 100 500 4000000000 3 3 5000 0 none Novel
9 1000 bid 5 200|is 200 Bid 1 on item 5|put 6.5242881 bid 9 200 1000|\
put 4.5 item running 2 1 200 0 200 9 1 5000 0 none Poems
4 1000 bid 1 260|with 4.1 item running 2 1 100 500 250 3 1048574 5000 0 none Atlas|is 200 Bid 1048575 on item 1|\
put 6.2097151 bid 4 260 1000|put 4.1 item running 2 1 100 500 260 4 1048575 5000 0 none Atlas";

/// Bids are refused. The first refusal that holds is answered: nobody is signed in, no item, the auction is over, an
/// own item, too low, and no more numbers.
const REFUSED: &str = "\
0 1000 bid 1 100|is 403 Sign in first
0 1000 bid 99 100|is 403 Sign in first
0 1000 bid 1 100|with 4.1 bytes 00|is 403 Sign in first
3 1000 bid 99 100|is 404 Not there
3 5000 bid 1 100|is 409 Auction over
3 1000 bid 3 100|is 409 Auction over
3 1000 bid 4 100|is 409 Auction over
2 5000 bid 1 99|is 409 Auction over
2 4999 bid 1 100|is 409 Own item
2 1000 bid 1 99|is 409 Own item
3 1000 bid 1 99|is 409 Bid too low
4 1000 bid 2 250|is 409 Bid too low
4 1000 bid 2 249|is 409 Bid too low
4 1000 bid 1 99|with 4.1 item running 2 1 100 500 50 3 1 5000 0 none Atlas|is 409 Bid too low
4 1000 bid 1 250|with 4.1 item running 2 1 100 500 250 3 1048575 5000 0 none Atlas|is 409 Bid too low
4 1000 bid 1 251|with 4.1 item running 2 1 100 500 250 3 1048575 5000 0 none Atlas|is 409 No more numbers
4 1000 bid 1 251|with 4.1 item running 2 1 100 500 250 3 4294967295 5000 0 none Atlas|is 409 No more numbers
4 1000 bid 1 251|with 4.1 bytes 03|is 500 Bad row 4 1";

/// Items are bought. An item is bought while its best bid is below the price, and keeps its bids.
const BOUGHT: &str = "\
3 1000 buy 1|is 200 Bought item 1|put 4.1 item sold 2 1 100 500 0 0 0 5000 3 none Atlas
4 4999 buy 2|is 200 Bought item 2|put 4.2 item sold 2 1 100 500 250 3 2 5000 4 none Novel
3 1000 buy 1|with 4.1 item running 2 1 100 500 499 4 1 5000 0 none Atlas|is 200 Bought item 1|\
put 4.1 item sold 2 1 100 500 499 4 1 5000 3 none Atlas
0 1000 buy 1|is 403 Sign in first
3 1000 buy 99|is 404 Not there
3 5000 buy 1|is 409 Auction over
4 1000 buy 3|is 409 Auction over
3 1000 buy 4|is 409 Auction over
2 5000 buy 5|is 409 Auction over
2 1000 buy 1|is 409 Own item
2 1000 buy 5|is 409 Own item
3 1000 buy 5|is 409 Not for sale
3 1000 buy 1|with 4.1 item running 2 1 100 500 500 4 1 5000 0 none Atlas|is 409 Not for sale
3 1000 buy 1|with 4.1 item running 2 1 100 500 501 4 1 5000 0 none Atlas|is 409 Not for sale
3 1000 buy 1|with 4.1 bytes -|is 500 Bad row 4 1";

/// Items are closed. The seller closes an item that is neither closed nor sold, also past its end. It is sold to the
/// best bidder, and closed where nothing was bid.
const CLOSED: &str = "\
2 1000 close 1|is 200 Closed item 1|put 4.1 item closed 2 1 100 500 0 0 0 5000 0 none Atlas
2 9000 close 2|is 200 Closed item 2|put 4.2 item sold 2 1 100 500 250 3 2 5000 3 none Novel
2 1000 close 1|with 4.1 item running 2 1 100 500 1 4 1 5000 0 none Atlas|is 200 Closed item 1|\
put 4.1 item sold 2 1 100 500 1 4 1 5000 4 none Atlas
0 1000 close 1|is 403 Sign in first
2 1000 close 99|is 404 Not there
3 1000 close 1|is 403 Not allowed
3 1000 close 3|is 403 Not allowed
3 1000 close 4|is 403 Not allowed
2 1000 close 3|is 409 Auction over
2 1000 close 4|is 409 Auction over
2 1000 close 1|with 4.1 bytes 00|is 500 Bad row 4 1";

#[test]
fn items_are_bid_on_bought_and_closed(rt: HostRuntime) {
    expect_table(&rt, rt.alloc(), SHOP, TAKEN);
    expect_table(&rt, rt.alloc(), SHOP, REFUSED);
    expect_table(&rt, rt.alloc(), SHOP, BOUGHT);
    expect_table(&rt, rt.alloc(), SHOP, CLOSED);
}
