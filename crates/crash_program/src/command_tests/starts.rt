//! How the boots of a scenario start over the rows of its keeper, and when they do not.

use crate::command_tests::keepers::{BackwardKeeper, ForwardKeeper};
use crate::command_tests::table::{expect_driven, expect_rows};
use crate::command_tests::words::times;
use std::alloc::Global;
use std::process::Abort;

/// The first lines of many scenarios: A needs B, so both are of group 0, and C is of group 2.
const PAIR: &str = "component A;component B;component C;hard A B;owns A 40;owns C 41;";

/// Rows in which `TEXT` is for each of these texts, which are between bars.
fn expect_each(rt: &impl Abort, alloc: Global, first: &str, rows: &str, texts: &str) {
    for text in texts.split('|') {
        let rows = rows.replace(alloc, "TEXT", text).expect(rt, text);
        expect_driven(rt, alloc, first, &rows);
    }
}

/// The boot has the number after the last one, and the current rows are those of the keeper, but for the number's own.
const GIVEN: &str = "|0|2|0 0 00000001;|0|||table
0 0 00000000;|0|2|0 0 00000001;|0|||table
0 0 00000001;40 7 61;|0|2|0 0 00000002;40 7 61;|0||40 7 61;|table
40 7 61;|0|2|0 0 00000001;40 7 61;|0||40 7 61;|table
0 0 0000ffff;|0|2|0 0 00010000;|0|||table
0 0 01020304;|0|2|0 0 01020305;|0|||table
0 0 fffffffe;|0|2|0 0 ffffffff;|0|||table
3 9 -;255 18446744073709551615 00ff;|0|2|0 0 00000001;3 9 -;255 18446744073709551615 00ff;|\
0||3 9 -;255 18446744073709551615 00ff;|table
0 0 00000004;40 7 61;40 9 -;|0|3|0 0 00000005;40 7 62;40 9 -;|\
0||c1 row 61;c1 list 2 7=61 9=-;c1 committed 0;0 commit 5:9223372036854775809 writes 1;|\
component A;owns A 40;begin c1;enter c1 A;read c1 40 7;list c1 40;put c1 40 7 62;commit c1;journal
0 0 fffffffe;|0|2|0 0 ffffffff;|0||c1 committed 0;0 commit 4294967295:9223372036854775809 writes 0;|\
begin c1;commit c1;journal";

/// The service's own table has one row of 4 bytes, the number of the boot. The first other one is told.
const BAD: &str = "0 1 -;|0|1|0 1 -;|7|bad row 0 1;||table
0 0 -;|0|1|0 0 -;|7|bad row 0 0;||table
0 0 000001;|0|1|0 0 000001;|7|bad row 0 0;||table
0 0 0000000001;|0|1|0 0 0000000001;|7|bad row 0 0;||table
0 0 00000001;0 1 00000001;40 7 61;|0|1|0 0 00000001;0 1 00000001;40 7 61;|7|bad row 0 1;||table
0 18446744073709551615 61;|0|1|0 18446744073709551615 61;|7|bad row 0 18446744073709551615;||table
0 1 -;0 2 -;|0|1|0 1 -;0 2 -;|7|bad row 0 1;||table
0 0 ffffffff;0 1 00;|0|1|0 0 ffffffff;0 1 00;|7|bad row 0 1;||table
0 1 -;|0|0|0 1 -;|0|||component A";

/// No boot comes after the last number.
const SPENT: &str = "0 0 ffffffff;|0|1|0 0 ffffffff;|11|boots spent;||table
0 0 ffffffff;40 7 61;|0|1|0 0 ffffffff;40 7 61;|11|boots spent;||reopen
0 0 fffffffe;|0|3|0 0 ffffffff;|11|boots spent;|c1 committed 0;|begin c1;commit c1;reopen;table
0 0 ffffffff;|0|0|0 0 ffffffff;|0|||component A";

/// A row of 4,096 bytes, and one of a byte more.
const LONGEST: &str = "40 7 TEXT;|0|2|0 0 00000001;40 7 TEXT;|0||40 7 TEXT;|table";

const TOO_LONG: &str = "40 7 TEXT;|0|1|40 7 TEXT;|7|bad row 40 7;||table";

#[test]
fn a_boot_is_over_the_rows_of_its_keeper(rt: HostRuntime) {
    let alloc = rt.alloc();
    expect_driven(&rt, alloc, "", GIVEN);
    expect_driven(&rt, alloc, "", BAD);
    expect_driven(&rt, alloc, "", SPENT);
    expect_each(&rt, alloc, "", LONGEST, &times(&rt, alloc, "61", 4096));
    expect_each(&rt, alloc, "", TOO_LONG, &times(&rt, alloc, "61", 4097));
}

/// Rows in any order, and a keeper that gives an id twice, in the order in which it was told them.
const ANY_ORDER: &str =
    "40 7 61;0 0 00000003;3 9 -;|0|2|0 0 00000004;3 9 -;40 7 61;|0||3 9 -;40 7 61;|table
3 2 62;3 1 61;|0|2|0 0 00000001;3 1 61;3 2 62;|0||3 1 61;3 2 62;|table
40 7 61;40 7 62;|0|1|40 7 62;|7|bad row 40 7;||table
3 1 61;40 7 61;3 2 -;40 7 61;|0|1|3 1 61;3 2 -;40 7 61;|7|bad row 40 7;||table
0 0 00000001;0 0 00000002;|0|1|0 0 00000002;|7|bad row 0 0;||table
40 7 61;0 2 -;0 1 -;|0|1|0 1 -;0 2 -;40 7 61;|7|bad row 0 2;||table
40 7 61;0 0 ffffffff;|0|1|0 0 ffffffff;40 7 61;|11|boots spent;||table
40 7 61;0 0 00000003;|2|2|0 0 00000003;40 7 61;|6|keeper failed;||table";

/// The same from the end to the beginning: another row is the first bad one.
const BACKWARD: &str =
    "3 9 -;0 0 00000003;40 7 61;|0|2|0 0 00000004;3 9 -;40 7 61;|0||3 9 -;40 7 61;|table
40 7 61;0 2 -;0 1 -;|0|1|0 1 -;0 2 -;40 7 61;|7|bad row 0 1;||table
3 1 61;40 7 61;3 1 61;0 1 -;|0|1|0 1 -;3 1 61;40 7 61;|7|bad row 0 1;||table
3 1 61;40 7 61;3 1 61;|0|1|3 1 61;40 7 61;|7|bad row 3 1;||table";

#[test]
fn rows_come_in_any_order(rt: HostRuntime) {
    let alloc = rt.alloc();
    expect_rows::<ForwardKeeper>(&rt, alloc, "drive", "", ANY_ORDER);
    expect_rows::<BackwardKeeper>(&rt, alloc, "drive", "", BACKWARD);
}

/// A keeper whose first or second call fails. Rows that start no boot are told before the second.
const FAILING: &str = "|1|1||6|keeper failed;||table
|2|2||6|keeper failed;||table
40 7 61;|1|1|40 7 61;|6|keeper failed;||table
0 0 00000003;40 7 61;|2|2|0 0 00000003;40 7 61;|6|keeper failed;||table
0 1 -;|1|1|0 1 -;|6|keeper failed;||table
0 1 -;|2|1|0 1 -;|7|bad row 0 1;||table
0 0 ffffffff;|1|1|0 0 ffffffff;|6|keeper failed;||table
0 0 ffffffff;|2|1|0 0 ffffffff;|11|boots spent;||table
|3|2|0 0 00000001;|0|||table;journal;table";

/// Lines that start no boot: those of the head, and comments.
const HEADS: &str = "component A|component A;component B;hard A B;soft B A;owns A 40;limit 1 1||\
# a comment;;;|bricks 3 3 2;key 000102030405060708090a0b0c0d0e0f|component A;fault A 0 raise group;fault A 9 hang app";

/// Lines that are refused without a boot: of the head, and those that spell nothing.
const UNREAD: &str =
    "owns A 40|component app|tables|table |begin c0|reopen c1|bricks 3 3 4|key 61|write k0 61|write k1 6|\
write k65536 61|fetch 1|cookie c1|free 1 bogus|now|present|sweep 1 0 0|now 18446744073709551616|\
fault A 0 raise group|fault A 0 raise human";

/// The same after a line that is read.
const UNREAD_SECOND: &str = "|1|0||3|line 2;||component A;component A
|1|0||3|line 2;||component A;reboot";

#[test]
fn other_lines_start_no_boot(rt: HostRuntime) {
    let alloc = rt.alloc();
    expect_driven(&rt, alloc, "", FAILING);
    expect_each(&rt, alloc, "", "|1|0||0|||TEXT\n|2|0||0|||TEXT", HEADS);
    expect_each(&rt, alloc, "", "|1|0||3|line 1;||TEXT", UNREAD);
    expect_driven(&rt, alloc, "", UNREAD_SECOND);
    let long = times(&rt, alloc, "#", 8193);
    expect_each(
        &rt,
        alloc,
        "",
        "|1|0||8|line 1 too long;||TEXT;table",
        &long,
    );
}

/// Event lines that a boot refuses which was just started, those that it does, and those about sessions, most of which
/// the state would refuse.
const REFUSED: &str =
    "enter c1 A|exit c1|read c1 40 7|list c1 40|put c1 40 7 61|commit c1|drop c1|down D|up A|up app|reboot D|\
down @A|up a-b|reboot -";

const DONE: &str = "begin c1|down A|reboot app|table|journal|reopen";

const OF_SESSIONS: &str =
    "now 0|now 4611686018427387904|write k1 61|fetch k1|cookie k1|present a|lose 1 1|mute 1 1|\
repeat 1 1|crash 1|sweep 1|sweep 1 4611686018427387904|values 1|windows|hold 1|free 1 answered|free 1 silent";

/// What comes of a line over a keeper whose first or second call fails, that has a row that starts no boot, and after
/// the last boot.
const UNSTARTED: &str = "|1|1||6|keeper failed;||TEXT
|2|2||6|keeper failed;||TEXT
0 0 00000000;|2|2|0 0 00000000;|6|keeper failed;||TEXT;now 1
0 1 -;|0|1|0 1 -;|7|bad row 0 1;||TEXT
0 0 ffffffff;|0|1|0 0 ffffffff;|11|boots spent;||TEXT";

/// The boot is started before the line is judged.
#[test]
fn each_event_line_starts_the_boot(rt: HostRuntime) {
    let alloc = rt.alloc();
    expect_each(&rt, alloc, PAIR, UNSTARTED, REFUSED);
    expect_each(&rt, alloc, PAIR, UNSTARTED, DONE);
    expect_each(&rt, alloc, "", UNSTARTED, OF_SESSIONS);
    expect_each(&rt, alloc, "bricks 3 3 2;", UNSTARTED, OF_SESSIONS);
    expect_each(
        &rt,
        alloc,
        PAIR,
        "|0|2|0 0 00000001;|3|line 7;||TEXT",
        REFUSED,
    );
}

/// The first event line alone starts it.
const ONCE: &str = "|0|2|0 0 00000001;|0|||begin c1
|0|2|0 0 00000001;|0|||begin c1;begin c2;enter c1 A;enter c1 B;exit c1;drop c2;table;journal
|0|2|0 0 00000001;|0||down 0;up 1;down 2;up 3;|down A;up A;reboot app;table
|0|2|0 0 00000001;|3|line 8;||table;component D";

/// What is stored, held and swept is no row: a keeper whose later calls fail is not asked, until the next boot.
const UNASKED: &str =
    "0 0 00000000;|3|2|0 0 00000001;|0||k1 version 0 bricks 1 2;k1 found 61;held 1 1;windows 1:5/1 2:5/0 3:5/0;\
cookie form;k1 lost 1:crashed/2 2:swept/1860001;|bricks 3 3 2;write k1 61;fetch k1;hold 1;windows;present AA;\
crash 1;sweep 2 1860001;now 5;fetch k1
0 0 00000000;|3|3|0 0 00000001;|6|keeper failed;|k1 version 0 bricks 1 2;|bricks 3 3 2;write k1 61;reopen;\
fetch k1
0 0 00000000;|4|4|0 0 00000001;|6|keeper failed;|k1 version 0 bricks 1 2;|bricks 3 3 2;write k1 61;reopen;\
fetch k1
0 0 00000000;|5|4|0 0 00000002;|0||k1 version 0 bricks 1 2;boot 2;k1 found 61;|bricks 3 3 2;write k1 61;\
reopen;fetch k1";

/// The number of the boot is in the version of a cookie. The texts were made with another program's HMAC-SHA-256.
const NUMBERS: &str = "0 0 01020304;|0|4|0 0 01020306;|0||k1 version 0 bricks 1 2;\
k1 cookie AQAAAAAAAAAAAAAAAAAAAAEAAQECAwUAAAAAAAAAAAAAAAAAG3dAAgABAAAAAAAAAAEAAgAAAAAAAAABUq9ThbOw5HpAZiN9Iyiyd2noO3YC9B8X4pAdYtqiILI;\
boot 16909062;k2 version 0 bricks 1 2;k1 version 1 bricks 2 3;k1 found 63;|bricks 3 3 2;write k1 61;cookie k1;\
reopen;write k2 62;write k1 63;fetch k1
0 0 01020305;|0|2|0 0 01020306;|0||k1 version 0 bricks 1 2;\
k1 cookie AQAAAAAAAAAAAAAAAAAAAAEAAQECAwYAAAAAAAAAAAAAAAAAG3dAAgABAAAAAAAAAAEAAgAAAAAAAAABTtaLSJ_vYkww-jvEkRrQhfokiD0QglcGYzNIzxHUuQs;\
|bricks 3 3 2;write k1 61;cookie k1
0 0 fffffffe;|0|3|0 0 ffffffff;|11|boots spent;|k1 version 0 bricks 1 2;\
k1 cookie AQAAAAAAAAAAAAAAAAAAAAEAAf____8AAAAAAAAAAAAAAAAAG3dAAgABAAAAAAAAAAEAAgAAAAAAAAABHNW3GTC0qiD95OeVTeF-j8tXJ8YX9mtsveiW6XPys2Y;\
|bricks 3 3 2;write k1 61;cookie k1;reopen;fetch k1";

#[test]
fn one_line_starts_the_boot(rt: HostRuntime) {
    let alloc = rt.alloc();
    expect_driven(&rt, alloc, PAIR, ONCE);
    expect_driven(&rt, alloc, "", UNASKED);
    expect_driven(&rt, alloc, "", NUMBERS);
}

/// The program's stored run, and the next boot after it.
const STORED: &str =
    "|0|5|0 0 00000002;40 7 6162;|0||c1 committed 0;40 7 6162;boot 2;c1 committed 0;40 7 6162;|\
component A;owns A 40;begin c1;enter c1 A;put c1 40 7 6162;commit c1;table;reopen;begin c1;commit c1;table";

/// As the first event line it starts a boot, and then the next one.
const FIRST: &str = "|0|4|0 0 00000002;|0||boot 2;|reopen
|0|8|0 0 00000004;|0||boot 2;boot 3;boot 4;|reopen;reopen;reopen
0 0 00000009;40 7 61;|0|4|0 0 0000000b;40 7 61;|0||boot 11;40 7 61;|reopen;table
|0|4|0 0 00000002;|0||boot 2;|component D;reopen
0 0 fffffffd;|0|4|0 0 ffffffff;|0||boot 4294967295;|reopen";

/// Calls read what earlier boots committed, lay their own puts over it, and meet no conflict with it.
const EARLIER_ROWS: &str =
    "|0|7|0 0 00000002;40 7 63;40 8 62;41 1 -;|0||c1 committed 0;c2 committed 1;boot 2;\
c2 row 61;c2 row none;c2 list 3 7=61 8=62 9=64;c2 row -;c1 committed 0;40 7 63;40 8 62;41 1 -;|\
begin c1;enter c1 A;put c1 40 7 61;put c1 40 8 62;commit c1;begin c2;enter c2 C;put c2 41 1 -;commit c2;reopen;\
begin c2;enter c2 A;read c2 40 7;read c2 40 9;put c2 40 9 64;list c2 40;exit c2;enter c2 C;read c2 41 1;drop c2;\
begin c1;enter c1 A;put c1 40 7 63;commit c1;table
|0|7|0 0 00000003;40 7 61;|0||c1 committed 0;boot 2;boot 3;c1 list 1 7=61;c1 committed 0;|\
begin c1;enter c1 A;put c1 40 7 61;commit c1;reopen;reopen;begin c1;enter c1 A;list c1 40;commit c1";

/// A component that fails hands the keeper nothing. The next boot is started as any other, and cures it.
const FAILING_COMPONENT: &str = "|3|2|0 0 00000001;|0||c1 raised 0 fault 0;c1 committed 0;|\
fault A 0 raise group;begin c1;enter c1 A;commit c1
|0|3|0 0 00000001;41 1 62;|0||c1 hung 0 fault 0;c1 committed 0;41 1 62;|\
fault A 0 hang app;begin c1;enter c1 C;put c1 41 1 62;exit c1;enter c1 A;commit c1;table
|0|5|0 0 00000002;40 7 61;|0||c1 raised 0 fault 0;boot 2;c1 committed 0;|\
fault A 0 raise process;begin c1;enter c1 A;reopen;begin c1;enter c1 A;put c1 40 7 61;commit c1
|4|4|0 0 00000001;|6|keeper failed;|c1 hung 0 fault 0;|fault A 0 hang process;begin c1;enter c1 A;reopen;table";

/// A keeper that fails at a start after the first: it holds the rows of the commits, and the last boot's number.
const FAILING_LATER: &str = "|4|4|0 0 00000001;40 7 61;|6|keeper failed;|c1 committed 0;|\
begin c1;enter c1 A;put c1 40 7 61;commit c1;reopen;table
|5|5|0 0 00000001;40 7 61;|6|keeper failed;|c1 committed 0;|\
begin c1;enter c1 A;put c1 40 7 61;commit c1;reopen;table
|3|3|0 0 00000001;|6|keeper failed;||reopen
|4|4|0 0 00000001;|6|keeper failed;||reopen
|5|5|0 0 00000002;|6|keeper failed;|boot 2;|reopen;table;reopen;begin c0
|6|6|0 0 00000002;|6|keeper failed;|boot 2;|reopen;table;reopen;begin c0
0 0 00000007;40 7 61;|3|3|0 0 00000008;40 7 61;|6|keeper failed;|40 7 61;c1 committed 0;|\
table;begin c1;commit c1;reopen";

#[test]
fn a_next_boot_calls_the_keeper_twice(rt: HostRuntime) {
    let alloc = rt.alloc();
    expect_driven(&rt, alloc, "", STORED);
    expect_rows::<ForwardKeeper>(&rt, alloc, "drive", "", STORED);
    expect_rows::<BackwardKeeper>(&rt, alloc, "drive", "", STORED);
    expect_driven(&rt, alloc, "", FIRST);
    expect_driven(&rt, alloc, PAIR, EARLIER_ROWS);
    expect_driven(&rt, alloc, PAIR, FAILING_COMPONENT);
    expect_driven(&rt, alloc, PAIR, FAILING_LATER);
}
