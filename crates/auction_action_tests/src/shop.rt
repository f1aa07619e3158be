//! A small shop.

/// Four users, two categories and seven items. The digests are of the passwords `pw1`, `secret`, `lion` and `tea`,
/// each behind its salt.
///
/// The bids of item 2 stand from 2 * 2^20 + 1 = 2097153 on, and that of item 6 at 6 * 2^20 + 1 = 6291457. The counter
/// and the entries of category 1 stand behind 2^32 = 4294967296, those of category 2 behind 2^33 = 8589934592, as the
/// own items of user 2 do, and those of user 3 behind 3 * 2^32 = 12884901888.
pub const SHOP: &str = "\
1.1 user ann 1111111111111111 ab9d38107ea2f4866b535ce5692636b3135bae02f3ac22506edcd1ebada67c88 0 0 0
1.2 user bob 2222222222222222 eaf91caada6d287903772c44cad4af15ff67445affc73b6006f018cdc15aeb2e 3 1 5
1.3 user cat 3333333333333333 b63bf330c84cced86b6db00555b7ee7c50418aecc6be36c97e1ea884e043c92e 0 0 2
1.4 user dan 4444444444444444 aac88105b1a750037a118a942d283caace2a2aaf675a891e28935bcc3f3c1dc4 0 1 0
2.5301121648421453870 name ann 1
2.9346719481748178650 name bob 2
2.8624243251692164259 name cat 3
2.17027878998284435605 name dan 4
3.1 counter 4
3.2 counter 7
3.3 counter 2
3.4294967297 counter 5
3.4294967298 counter 2
4.1 item running 2 1 100 500 0 0 0 5000 0 none Atlas
4.2 item running 2 1 100 500 250 3 2 5000 0 none Novel
4.3 item closed 2 1 100 0 0 0 0 5000 0 none Map
4.4 item sold 2 1 100 500 0 0 0 5000 3 none Diary
4.5 item running 2 1 200 0 0 0 0 5000 0 none Poems
4.6 item sold 3 2 100 0 120 4 1 5000 4 both Lantern
4.7 item running 3 2 300 300 0 0 0 5000 0 none Torch
5.1 category Books
5.2 category Lamps
6.2097153 bid 4 120 400
6.2097154 bid 3 250 600
6.6291457 bid 4 120 300
7.4294967297 entry 1
7.4294967298 entry 2
7.4294967299 entry 3
7.4294967300 entry 4
7.4294967301 entry 5
7.8589934593 entry 6
7.8589934594 entry 7
9.8589934593 own 1
9.8589934594 own 2
9.8589934595 own 3
9.8589934596 own 4
9.8589934597 own 5
9.12884901889 own 6
9.12884901890 own 7";
