//! Lists of more than a page.

use crate::tables::expect_table;
use std::alloc::Global;
use std::fmt::Write;
use std::process::Abort;

/// One user, who offers 17 items in one category.
const SELLER: &str = "\
1.1 user ann 1111111111111111 ab9d38107ea2f4866b535ce5692636b3135bae02f3ac22506edcd1ebada67c88 0 0 17
3.4294967297 counter 17
5.1 category Books";

/// Adds item 3 n, which is entry n of category 1 and own item n of user 1: both stand at 2^32 + n.
fn add_item(rt: &impl Abort, lines: &mut String, n: u32) {
    let n = u64::from(n);
    let item = 3 * n;
    let start = 1000 + n;
    let key = 4_294_967_296 + n;
    write!(
        lines,
        "\n4.{item} item running 1 1 {start} 0 0 0 0 5000 0 none Book {n}"
    )
    .expect(rt, "a row");
    write!(lines, "\n7.{key} entry {item}\n9.{key} own {item}").expect(rt, "a row");
}

/// The rows of the user and the 17 items.
fn many_rows(rt: &impl Abort, alloc: Global) -> String {
    let mut lines = String::new(alloc);
    lines.push_str(SELLER).expect(rt, "a row");
    for n in 1..18 {
        add_item(rt, &mut lines, n);
    }
    lines
}

/// A category's page 0 has 16 items and its page 1 the last one. About shows the last 16, the newest first.
const MANY: &str = "\
0 1000 browse 1 0|is 200 Books|line <p><a href=\"/item/3\">Book 1, 1001</a></p>|\
line <p><a href=\"/item/6\">Book 2, 1002</a></p>|line <p><a href=\"/item/9\">Book 3, 1003</a></p>|\
line <p><a href=\"/item/12\">Book 4, 1004</a></p>|line <p><a href=\"/item/15\">Book 5, 1005</a></p>|\
line <p><a href=\"/item/18\">Book 6, 1006</a></p>|line <p><a href=\"/item/21\">Book 7, 1007</a></p>|\
line <p><a href=\"/item/24\">Book 8, 1008</a></p>|line <p><a href=\"/item/27\">Book 9, 1009</a></p>|\
line <p><a href=\"/item/30\">Book 10, 1010</a></p>|line <p><a href=\"/item/33\">Book 11, 1011</a></p>|\
line <p><a href=\"/item/36\">Book 12, 1012</a></p>|line <p><a href=\"/item/39\">Book 13, 1013</a></p>|\
line <p><a href=\"/item/42\">Book 14, 1014</a></p>|line <p><a href=\"/item/45\">Book 15, 1015</a></p>|\
line <p><a href=\"/item/48\">Book 16, 1016</a></p>
0 1000 browse 1 1|is 200 Books|line <p><a href=\"/item/51\">Book 17, 1017</a></p>
0 1000 browse 1 2|is 200 Books
0 1000 browse 1 0|with 3.4294967297 counter 16|is 200 Books|line <p><a href=\"/item/3\">Book 1, 1001</a></p>|\
line <p><a href=\"/item/6\">Book 2, 1002</a></p>|line <p><a href=\"/item/9\">Book 3, 1003</a></p>|\
line <p><a href=\"/item/12\">Book 4, 1004</a></p>|line <p><a href=\"/item/15\">Book 5, 1005</a></p>|\
line <p><a href=\"/item/18\">Book 6, 1006</a></p>|line <p><a href=\"/item/21\">Book 7, 1007</a></p>|\
line <p><a href=\"/item/24\">Book 8, 1008</a></p>|line <p><a href=\"/item/27\">Book 9, 1009</a></p>|\
line <p><a href=\"/item/30\">Book 10, 1010</a></p>|line <p><a href=\"/item/33\">Book 11, 1011</a></p>|\
line <p><a href=\"/item/36\">Book 12, 1012</a></p>|line <p><a href=\"/item/39\">Book 13, 1013</a></p>|\
line <p><a href=\"/item/42\">Book 14, 1014</a></p>|line <p><a href=\"/item/45\">Book 15, 1015</a></p>|\
line <p><a href=\"/item/48\">Book 16, 1016</a></p>
0 1000 browse 1 1|with 3.4294967297 counter 16|is 200 Books
0 1000 browse 1 0|gone 7.4294967313|is 200 Books|line <p><a href=\"/item/3\">Book 1, 1001</a></p>|\
line <p><a href=\"/item/6\">Book 2, 1002</a></p>|line <p><a href=\"/item/9\">Book 3, 1003</a></p>|\
line <p><a href=\"/item/12\">Book 4, 1004</a></p>|line <p><a href=\"/item/15\">Book 5, 1005</a></p>|\
line <p><a href=\"/item/18\">Book 6, 1006</a></p>|line <p><a href=\"/item/21\">Book 7, 1007</a></p>|\
line <p><a href=\"/item/24\">Book 8, 1008</a></p>|line <p><a href=\"/item/27\">Book 9, 1009</a></p>|\
line <p><a href=\"/item/30\">Book 10, 1010</a></p>|line <p><a href=\"/item/33\">Book 11, 1011</a></p>|\
line <p><a href=\"/item/36\">Book 12, 1012</a></p>|line <p><a href=\"/item/39\">Book 13, 1013</a></p>|\
line <p><a href=\"/item/42\">Book 14, 1014</a></p>|line <p><a href=\"/item/45\">Book 15, 1015</a></p>|\
line <p><a href=\"/item/48\">Book 16, 1016</a></p>
0 1000 browse 1 1|gone 7.4294967312|is 200 Books|line <p><a href=\"/item/51\">Book 17, 1017</a></p>
1 1000 about|is 200 ann|line <p><a href=\"/item/51\">Book 17</a></p>|line <p><a href=\"/item/48\">Book 16</a></p>|\
line <p><a href=\"/item/45\">Book 15</a></p>|line <p><a href=\"/item/42\">Book 14</a></p>|\
line <p><a href=\"/item/39\">Book 13</a></p>|line <p><a href=\"/item/36\">Book 12</a></p>|\
line <p><a href=\"/item/33\">Book 11</a></p>|line <p><a href=\"/item/30\">Book 10</a></p>|\
line <p><a href=\"/item/27\">Book 9</a></p>|line <p><a href=\"/item/24\">Book 8</a></p>|\
line <p><a href=\"/item/21\">Book 7</a></p>|line <p><a href=\"/item/18\">Book 6</a></p>|\
line <p><a href=\"/item/15\">Book 5</a></p>|line <p><a href=\"/item/12\">Book 4</a></p>|\
line <p><a href=\"/item/9\">Book 3</a></p>|line <p><a href=\"/item/6\">Book 2</a></p>
1 1000 about|gone 9.4294967297|is 200 ann|line <p><a href=\"/item/51\">Book 17</a></p>|\
line <p><a href=\"/item/48\">Book 16</a></p>|line <p><a href=\"/item/45\">Book 15</a></p>|\
line <p><a href=\"/item/42\">Book 14</a></p>|line <p><a href=\"/item/39\">Book 13</a></p>|\
line <p><a href=\"/item/36\">Book 12</a></p>|line <p><a href=\"/item/33\">Book 11</a></p>|\
line <p><a href=\"/item/30\">Book 10</a></p>|line <p><a href=\"/item/27\">Book 9</a></p>|\
line <p><a href=\"/item/24\">Book 8</a></p>|line <p><a href=\"/item/21\">Book 7</a></p>|\
line <p><a href=\"/item/18\">Book 6</a></p>|line <p><a href=\"/item/15\">Book 5</a></p>|\
line <p><a href=\"/item/12\">Book 4</a></p>|line <p><a href=\"/item/9\">Book 3</a></p>|\
line <p><a href=\"/item/6\">Book 2</a></p>
1 1000 about|\
with 1.1 user ann 1111111111111111 ab9d38107ea2f4866b535ce5692636b3135bae02f3ac22506edcd1ebada67c88 0 0 16|\
is 200 ann|line <p><a href=\"/item/48\">Book 16</a></p>|line <p><a href=\"/item/45\">Book 15</a></p>|\
line <p><a href=\"/item/42\">Book 14</a></p>|line <p><a href=\"/item/39\">Book 13</a></p>|\
line <p><a href=\"/item/36\">Book 12</a></p>|line <p><a href=\"/item/33\">Book 11</a></p>|\
line <p><a href=\"/item/30\">Book 10</a></p>|line <p><a href=\"/item/27\">Book 9</a></p>|\
line <p><a href=\"/item/24\">Book 8</a></p>|line <p><a href=\"/item/21\">Book 7</a></p>|\
line <p><a href=\"/item/18\">Book 6</a></p>|line <p><a href=\"/item/15\">Book 5</a></p>|\
line <p><a href=\"/item/12\">Book 4</a></p>|line <p><a href=\"/item/9\">Book 3</a></p>|\
line <p><a href=\"/item/6\">Book 2</a></p>|line <p><a href=\"/item/3\">Book 1</a></p>";

/// The rows of 17 categories.
fn category_rows(rt: &impl Abort, alloc: Global) -> String {
    let mut lines = String::new(alloc);
    lines.push_str("3.3 counter 17").expect(rt, "a row");
    for n in 1..18 {
        write!(lines, "\n5.{n} category Shelf {n}").expect(rt, "a row");
    }
    lines
}

/// All categories are on one page, also more than 16.
const SHELVES: &str = "\
0 1000 categories|is 200 Categories|line <p><a href=\"/category/1\">Shelf 1</a></p>|\
line <p><a href=\"/category/2\">Shelf 2</a></p>|line <p><a href=\"/category/3\">Shelf 3</a></p>|\
line <p><a href=\"/category/4\">Shelf 4</a></p>|line <p><a href=\"/category/5\">Shelf 5</a></p>|\
line <p><a href=\"/category/6\">Shelf 6</a></p>|line <p><a href=\"/category/7\">Shelf 7</a></p>|\
line <p><a href=\"/category/8\">Shelf 8</a></p>|line <p><a href=\"/category/9\">Shelf 9</a></p>|\
line <p><a href=\"/category/10\">Shelf 10</a></p>|line <p><a href=\"/category/11\">Shelf 11</a></p>|\
line <p><a href=\"/category/12\">Shelf 12</a></p>|line <p><a href=\"/category/13\">Shelf 13</a></p>|\
line <p><a href=\"/category/14\">Shelf 14</a></p>|line <p><a href=\"/category/15\">Shelf 15</a></p>|\
line <p><a href=\"/category/16\">Shelf 16</a></p>|line <p><a href=\"/category/17\">Shelf 17</a></p>
0 1000 categories|gone 5.3|is 200 Categories|line <p><a href=\"/category/1\">Shelf 1</a></p>|\
line <p><a href=\"/category/2\">Shelf 2</a></p>|line <p><a href=\"/category/4\">Shelf 4</a></p>|\
line <p><a href=\"/category/5\">Shelf 5</a></p>|line <p><a href=\"/category/6\">Shelf 6</a></p>|\
line <p><a href=\"/category/7\">Shelf 7</a></p>|line <p><a href=\"/category/8\">Shelf 8</a></p>|\
line <p><a href=\"/category/9\">Shelf 9</a></p>|line <p><a href=\"/category/10\">Shelf 10</a></p>|\
line <p><a href=\"/category/11\">Shelf 11</a></p>|line <p><a href=\"/category/12\">Shelf 12</a></p>|\
line <p><a href=\"/category/13\">Shelf 13</a></p>|line <p><a href=\"/category/14\">Shelf 14</a></p>|\
line <p><a href=\"/category/15\">Shelf 15</a></p>|line <p><a href=\"/category/16\">Shelf 16</a></p>|\
line <p><a href=\"/category/17\">Shelf 17</a></p>
0 1000 categories|with 5.17 bytes 00|is 500 Bad row 5 17
1 1000 addcategory Maps|is 200 Category 18|put 3.3 counter 18|put 5.18 category Maps";

/// A page has sixteen items, and all categories.
#[test]
fn pages_are_cut_after_sixteen_items(rt: HostRuntime) {
    expect_table(&rt, rt.alloc(), &many_rows(&rt, rt.alloc()), MANY);
    expect_table(&rt, rt.alloc(), &category_rows(&rt, rt.alloc()), SHELVES);
}
