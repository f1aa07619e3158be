//! Items that are offered.

use crate::shop::SHOP;
use crate::tables::expect_table;

/// Items are offered. Item 8 is entry 3 of category 2, and own item 1 of user 4, at 4 * 2^32 + 1. An hour has
/// 3,600,000 ms, so 24 hours from 1000 on end at 86401000; 720 hours are 2592000000, and 2^62 - 1 is
/// 4611686018427387903.
const OFFERED: &str = "\
4 1000 sell 2 150 0 24 Globe|is 200 Item 8|put 3.2 counter 8|put 3.4294967298 counter 3|\
put 4.8 item running 4 2 150 0 0 0 0 86401000 0 none Globe|put 7.8589934595 entry 8|\
put 1.4 user dan 4444444444444444 aac88105b1a750037a118a942d283caace2a2aaf675a891e28935bcc3f3c1dc4 0 1 1|\
put 9.17179869185 own 8
3 4611686018427387903 sell 1 4000000000 4000000000 720 A <B> & \"C\"|is 200 Item 8|put 3.2 counter 8|\
put 3.4294967297 counter 6|\
put 4.8 item running 3 1 4000000000 4000000000 0 0 0 4611686021019387903 0 none A <B> & \"C\"|\
put 7.4294967302 entry 8|\
put 1.3 user cat 3333333333333333 b63bf330c84cced86b6db00555b7ee7c50418aecc6be36c97e1ea884e043c92e 0 0 3|\
put 9.12884901891 own 8
4 0 sell 2 1 2 1 Globe|gone 3.2|gone 3.4294967298|is 200 Item 1|put 3.2 counter 1|put 3.4294967298 counter 1|\
put 4.1 item running 4 2 1 2 0 0 0 3600000 0 none Globe|put 7.8589934593 entry 1|\
put 1.4 user dan 4444444444444444 aac88105b1a750037a118a942d283caace2a2aaf675a891e28935bcc3f3c1dc4 0 1 1|\
put 9.17179869185 own 1
4 0 sell 2 1 1 1 Globe|with 3.2 counter 4294967294|with 3.4294967298 counter 4294967294|\
with 1.4 user dan 4444444444444444 aac88105b1a750037a118a942d283caace2a2aaf675a891e28935bcc3f3c1dc4 7 1 4294967294|\
is 200 Item 4294967295|put 3.2 counter 4294967295|put 3.4294967298 counter 4294967295|\
put 4.4294967295 item running 4 2 1 1 0 0 0 3600000 0 none Globe|put 7.12884901887 entry 4294967295|\
put 1.4 user dan 4444444444444444 aac88105b1a750037a118a942d283caace2a2aaf675a891e28935bcc3f3c1dc4 7 1 4294967295|\
put 9.21474836479 own 4294967295";

/// Offers are refused. The first refusal that holds is answered, and what it does not need is not read.
const REFUSED: &str = "\
0 1000 sell 2 100 99 24 Globe|is 403 Sign in first
4 1000 sell 2 100 99 24 Globe|is 400 Bad field buy_now
4 1000 sell 9 100 1 24 Globe|is 400 Bad field buy_now
4 1000 sell 9 100 100 24 Globe|is 409 No such category
4 1000 sell 9 100 0 24 Globe|with 3.2 counter 4294967295|is 409 No such category
4 1000 sell 2 100 0 24 Globe|with 3.2 counter 4294967295|is 409 No more numbers
4 1000 sell 2 100 0 24 Globe|with 3.2 counter 18446744073709551615|with 3.4294967298 bytes 00|is 409 No more numbers
4 1000 sell 2 100 0 24 Globe|with 3.4294967298 counter 4294967295|is 409 No more numbers
4 1000 sell 2 100 0 24 Globe|with 3.4294967298 counter 4294967295|gone 1.4|is 409 No more numbers
4 1000 sell 2 100 0 24 Globe|gone 1.4|is 404 Not there
4 1000 sell 2 100 0 24 Globe|\
with 1.4 user dan 4444444444444444 aac88105b1a750037a118a942d283caace2a2aaf675a891e28935bcc3f3c1dc4 0 1 4294967295|\
is 409 No more numbers
4 1000 sell 2 100 0 24 Globe|with 5.2 bytes 00|is 500 Bad row 5 2
4 1000 sell 2 100 0 24 Globe|with 3.2 bytes 00|is 500 Bad row 3 2
4 1000 sell 2 100 0 24 Globe|with 3.4294967298 bytes 00|is 500 Bad row 3 4294967298
4 1000 sell 2 100 0 24 Globe|with 1.4 bytes 00|is 500 Bad row 1 4
4 1000 sell 2 100 99 24 Globe|with 5.2 bytes 00|is 400 Bad field buy_now";

#[test]
fn items_are_offered_or_refused(rt: HostRuntime) {
    expect_table(&rt, rt.alloc(), SHOP, OFFERED);
    expect_table(&rt, rt.alloc(), SHOP, REFUSED);
}
