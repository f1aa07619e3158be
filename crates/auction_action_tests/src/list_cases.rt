//! Pages of categories and items.

use crate::shop::SHOP;
use crate::tables::expect_table;

/// Categories are shown and added. Each category by its number. Its name is shown as a text.
const CATEGORIES: &str = "\
0 1000 categories|is 200 Categories|line <p><a href=\"/category/1\">Books</a></p>|\
line <p><a href=\"/category/2\">Lamps</a></p>
3 1000 categories|with 5.4294967295 category A<B> & \"C\"'s|with 5.10 category Maps|with 5.9 category &amp;|\
is 200 Categories|line <p><a href=\"/category/1\">Books</a></p>|line <p><a href=\"/category/2\">Lamps</a></p>|\
line <p><a href=\"/category/9\">&amp;amp;</a></p>|line <p><a href=\"/category/10\">Maps</a></p>|\
line <p><a href=\"/category/4294967295\">A&lt;B&gt; &amp; &quot;C&quot;&#39;s</a></p>
0 1000 categories|gone 5.1|gone 5.2|is 200 Categories
0 1000 categories|with 5.2 bytes 0001ff|is 500 Bad row 5 2
0 1000 categories|with 5.2 bytes 00|with 5.1 bytes 00|is 500 Bad row 5 1";

/// User 1 adds categories.
const ADDED: &str = "\
1 1000 addcategory Maps & \"Globes\"|is 200 Category 3|put 3.3 counter 3|put 5.3 category Maps & \"Globes\"
1 1000 addcategory Maps|gone 3.3|is 200 Category 1|put 3.3 counter 1|put 5.1 category Maps
1 1000 addcategory Maps|with 3.3 counter 4294967294|is 200 Category 4294967295|put 3.3 counter 4294967295|\
put 5.4294967295 category Maps
0 1000 addcategory Maps|is 403 Sign in first
2 1000 addcategory Maps|is 403 Not allowed
2 1000 addcategory Maps|with 3.3 counter 4294967295|is 403 Not allowed
1 1000 addcategory Maps|with 3.3 counter 4294967295|is 409 No more numbers
1 1000 addcategory Maps|with 3.3 bytes 000000000000000001|is 500 Bad row 3 3";

/// Categories are browsed. The entries of a category, each item with its best bid, or its start where nothing was
/// bid.
const BROWSED: &str = "\
0 1000 browse 1 0|is 200 Books|line <p><a href=\"/item/1\">Atlas, 100</a></p>|\
line <p><a href=\"/item/2\">Novel, 250</a></p>|line <p><a href=\"/item/3\">Map, 100</a></p>|\
line <p><a href=\"/item/4\">Diary, 100</a></p>|line <p><a href=\"/item/5\">Poems, 200</a></p>
3 9000 browse 2 0|with 4.7 item running 3 2 300 300 0 0 0 5000 0 none 5\" <hot> & new|with 5.2 category <Lamps>|\
is 200 &lt;Lamps&gt;|line <p><a href=\"/item/6\">Lantern, 120</a></p>|\
line <p><a href=\"/item/7\">5&quot; &lt;hot&gt; &amp; new, 300</a></p>
0 1000 browse 1 0|with 3.4294967297 counter 2|is 200 Books|line <p><a href=\"/item/1\">Atlas, 100</a></p>|\
line <p><a href=\"/item/2\">Novel, 250</a></p>
0 1000 browse 2 0|with 4.6 item running 3 2 100 0 99 4 1 5000 0 none Lantern|\
with 4.7 item running 3 2 300 300 1 4 1 5000 0 none Torch|is 200 Lamps|\
line <p><a href=\"/item/6\">Lantern, 99</a></p>|line <p><a href=\"/item/7\">Torch, 1</a></p>
0 1000 browse 1 0|gone 3.4294967297|is 200 Books
0 1000 browse 1 1|is 200 Books
0 1000 browse 1 9999|is 200 Books
0 1000 browse 9 0|is 404 Not there
0 1000 browse 9 0|with 3.4294967305 counter 1|is 404 Not there
0 1000 browse 1 0|gone 7.4294967299|is 404 Not there
0 1000 browse 1 0|gone 4.3|is 404 Not there
0 1000 browse 1 0|with 5.1 bytes 00|is 500 Bad row 5 1
0 1000 browse 1 0|with 3.4294967297 bytes 00|is 500 Bad row 3 4294967297
0 1000 browse 1 0|with 7.4294967301 bytes 0000000100000000|is 500 Bad row 7 4294967301
0 1000 browse 1 0|with 4.5 bytes 00|is 500 Bad row 4 5
0 1000 browse 1 0|gone 4.4|with 4.5 bytes 00|is 404 Not there";

/// Items are shown. An item's page goes by its state alone, also past its end. Its price is the best bid, also one
/// below the start.
const ITEMS: &str = "\
0 1000 item 1|is 200 Atlas|line <p>Seller bob</p>|line <p>Price 100</p>|line <p>Running until 5000</p>
3 9000 item 2|is 200 Novel|line <p>Seller bob</p>|line <p>Price 250</p>|line <p>Running until 5000</p>
0 1000 item 3|is 200 Map|line <p>Seller bob</p>|line <p>Price 100</p>|line <p>Closed</p>
0 1000 item 6|is 200 Lantern|line <p>Seller cat</p>|line <p>Price 120</p>|line <p>Sold to user 4</p>
0 1000 item 1|with 4.1 item running 2 1 100 500 99 3 1 5000 0 none Atlas|is 200 Atlas|line <p>Seller bob</p>|\
line <p>Price 99</p>|line <p>Running until 5000</p>
0 1000 item 6|with 4.6 item sold 3 2 100 0 1 4 1 5000 4 both Lantern|is 200 Lantern|line <p>Seller cat</p>|\
line <p>Price 1</p>|line <p>Sold to user 4</p>
0 1000 item 1|with 4.1 item running 2 1 18446744073709551615 0 0 0 0 18446744073709551615 0 none Tom's <i>\"&\"</i>|\
with 1.2 user <bob> 2222222222222222 eaf91caada6d287903772c44cad4af15ff67445affc73b6006f018cdc15aeb2e 3 1 5|\
is 200 Tom&#39;s &lt;i&gt;&quot;&amp;&quot;&lt;/i&gt;|line <p>Seller &lt;bob&gt;</p>|\
line <p>Price 18446744073709551615</p>|line <p>Running until 18446744073709551615</p>
0 1000 item 99|is 404 Not there
0 1000 item 1|gone 1.2|is 404 Not there
0 1000 item 1|with 4.1 bytes 00|is 500 Bad row 4 1
0 1000 item 1|with 1.2 bytes 00|is 500 Bad row 1 2";

/// Own items are shown. What the user who asks offers, the newest first.
const ABOUT: &str = "\
2 1000 about|is 200 bob|line <p><a href=\"/item/5\">Poems</a></p>|line <p><a href=\"/item/4\">Diary</a></p>|\
line <p><a href=\"/item/3\">Map</a></p>|line <p><a href=\"/item/2\">Novel</a></p>|\
line <p><a href=\"/item/1\">Atlas</a></p>
3 1000 about|with 4.7 item running 3 2 300 300 0 0 0 5000 0 none 5\" <hot> & new|is 200 cat|\
line <p><a href=\"/item/7\">5&quot; &lt;hot&gt; &amp; new</a></p>|line <p><a href=\"/item/6\">Lantern</a></p>
1 1000 about|is 200 ann
0 1000 about|is 403 Sign in first
99 1000 about|is 404 Not there
2 1000 about|gone 9.8589934593|is 404 Not there
2 1000 about|gone 4.3|is 404 Not there
2 1000 about|with 1.2 bytes 00|is 500 Bad row 1 2
2 1000 about|with 9.8589934596 bytes 00|is 500 Bad row 9 8589934596
2 1000 about|with 4.1 bytes 00|is 500 Bad row 4 1";

#[test]
fn lists_and_items_are_shown(rt: HostRuntime) {
    expect_table(&rt, rt.alloc(), SHOP, CATEGORIES);
    expect_table(&rt, rt.alloc(), SHOP, ADDED);
    expect_table(&rt, rt.alloc(), SHOP, BROWSED);
    expect_table(&rt, rt.alloc(), SHOP, ITEMS);
    expect_table(&rt, rt.alloc(), SHOP, ABOUT);
}
