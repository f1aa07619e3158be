//! The last numbers of users, items and categories.

use crate::shop::SHOP;
use crate::tables::{expect_steps, expect_table};

/// The last number is 2^32 - 1. The first bid on that item, and the first feedback about that user, stand at (2^32 -
/// 1) * 2^20 + 1; the first entry of that category, and the first own item of that user, at (2^32 - 1) * 2^32 + 1; and
/// the category's counter at 2^32 + 2^32 - 1.
const LAST: &str = "\
4294967295 1000 bid 4294967295 7|with 4.4294967295 item running 2 1 7 0 0 0 0 5000 0 none Atlas|\
is 200 Bid 1 on item 4294967295|put 6.4503599626321921 bid 4294967295 7 1000|\
put 4.4294967295 item running 2 1 7 0 7 4294967295 1 5000 0 none Atlas
4294967295 1000 buy 4294967295|with 4.4294967295 item running 2 1 7 9 0 0 0 5000 0 none Atlas|\
is 200 Bought item 4294967295|put 4.4294967295 item sold 2 1 7 9 0 0 0 5000 4294967295 none Atlas
4294967295 1000 close 4294967295|with 4.4294967295 item running 4294967295 1 7 0 7 4294967295 1 5000 0 none Atlas|\
is 200 Closed item 4294967295|put 4.4294967295 item sold 4294967295 1 7 0 7 4294967295 1 5000 4294967295 none Atlas
3 1000 feedback 4294967295 good Fine|\
with 1.4294967295 user zed 5555555555555555 aac88105b1a750037a118a942d283caace2a2aaf675a891e28935bcc3f3c1dc4 0 0 0|\
with 4.4294967295 item sold 4294967295 1 7 0 7 3 1 5000 3 none Atlas|is 200 Thanks|\
put 8.4503599626321921 feedback 3 4294967295 good Fine|\
put 1.4294967295 user zed 5555555555555555 aac88105b1a750037a118a942d283caace2a2aaf675a891e28935bcc3f3c1dc4 1 0 0|\
put 4.4294967295 item sold 4294967295 1 7 0 7 3 1 5000 3 buyer Atlas
4294967295 0 sell 4294967295 1 0 1 Globe|\
with 1.4294967295 user zed 5555555555555555 aac88105b1a750037a118a942d283caace2a2aaf675a891e28935bcc3f3c1dc4 0 0 0|\
with 5.4294967295 category Last|is 200 Item 8|put 3.2 counter 8|put 3.8589934591 counter 1|\
put 4.8 item running 4294967295 4294967295 1 0 0 0 0 3600000 0 none Globe|put 7.18446744069414584321 entry 8|\
put 1.4294967295 user zed 5555555555555555 aac88105b1a750037a118a942d283caace2a2aaf675a891e28935bcc3f3c1dc4 0 0 1|\
put 9.18446744069414584321 own 8
0 1000 browse 4294967295 0|with 3.8589934591 counter 1|\
with 4.4294967295 item running 2 1 7 0 0 0 0 5000 0 none Atlas|with 5.4294967295 category Last|\
with 7.18446744069414584321 entry 4294967295|is 200 Last|line <p><a href=\"/item/4294967295\">Atlas, 7</a></p>
4294967295 1000 about|\
with 1.4294967295 user zed 5555555555555555 aac88105b1a750037a118a942d283caace2a2aaf675a891e28935bcc3f3c1dc4 0 0 1|\
with 9.18446744069414584321 own 7|is 200 zed|line <p><a href=\"/item/7\">Torch</a></p>
0 1000 item 4294967295|\
with 1.4294967295 user zed 5555555555555555 aac88105b1a750037a118a942d283caace2a2aaf675a891e28935bcc3f3c1dc4 0 0 1|\
with 4.4294967295 item sold 4294967295 1 7 0 0 0 0 5000 4294967295 none Atlas|is 200 Atlas|line <p>Seller zed</p>|\
line <p>Price 7</p>|line <p>Sold to user 4294967295</p>";

/// Also a count that is over the last number leads to entries that are missing, and so does the last own item. The
/// first entry of page 9999 is 16 * 9999 + 1 = 159985.
const MISSING: &str = "\
0 1000 browse 1 0|with 3.4294967297 counter 18446744073709551615|\
e0.0 e4.0 r5.1 x e2.0 r3.4294967297 x e3.0 r7.4294967297 x e3.0 r4.1 x e3.0 r7.4294967298 x e3.0 r4.2 x e3.0 \
r7.4294967299 x e3.0 r4.3 x e3.0 r7.4294967300 x e3.0 r4.4 x e3.0 r7.4294967301 x e3.0 r4.5 x e3.0 r7.4294967302 x x \
d404
0 1000 browse 1 9999|with 3.4294967297 counter 18446744073709551615|\
e0.0 e4.0 r5.1 x e2.0 r3.4294967297 x e3.0 r7.4295127281 x x d404
4294967295 1000 about|\
with 1.4294967295 user zed 5555555555555555 aac88105b1a750037a118a942d283caace2a2aaf675a891e28935bcc3f3c1dc4 0 0 \
4294967295|e0.0 e1.0 r1.4294967295 x e3.0 r9.18446744073709551615 x x d404";

#[test]
fn last_numbers_are_taken(rt: HostRuntime) {
    expect_table(&rt, rt.alloc(), SHOP, LAST);
    expect_steps(&rt, rt.alloc(), SHOP, MISSING);
}
