//! Users: who they are, and how they sign in and out.

use crate::shop::SHOP;
use crate::tables::expect_table;

/// Users register. The digest of `open sesame` is SHA-256 of 01 02 03 04 05 06 07 08 and that text, and a name's key
/// the first eight bytes of its own, both worked out by another program. A session's value is the user and the
/// moment: 1000 is 3e8. `Ann` is another name than `ann`, and the last of 24 letters counts.
const REGISTERED: &str = "\
0 1000 register eve open sesame|is 200 Welcome eve|put 3.1 counter 5|\
put 1.5 user eve 0102030405060708 2c885c68d28aa10e4fbefb6375880cf01dfd3838e6ec245736d5aa7b8ff36243 0 0 0|\
put 2.9594403195376995259 name eve 5|session 000000000000000500000000000003e8
0 1000 register abc secret|is 200 Welcome abc|put 3.1 counter 5|\
put 1.5 user abc 0102030405060708 fcf85edc0c0fdca589c280076265df7efa0e7cdccf7d689522b76cac1de13d62 0 0 0|\
put 2.13436514500253700074 name abc 5|session 000000000000000500000000000003e8
3 4611686018427387903 register zoe secret|is 200 Welcome zoe|put 3.1 counter 5|\
put 1.5 user zoe 0102030405060708 fcf85edc0c0fdca589c280076265df7efa0e7cdccf7d689522b76cac1de13d62 0 0 0|\
put 2.11313462442781569815 name zoe 5|session 00000000000000053fffffffffffffff
0 1000 register zoe secret|gone 3.1|is 200 Welcome zoe|put 3.1 counter 1|\
put 1.1 user zoe 0102030405060708 fcf85edc0c0fdca589c280076265df7efa0e7cdccf7d689522b76cac1de13d62 0 0 0|\
put 2.11313462442781569815 name zoe 1|session 000000000000000100000000000003e8
0 1000 register zoe secret|with 3.1 counter 4294967294|is 200 Welcome zoe|put 3.1 counter 4294967295|\
put 1.4294967295 user zoe 0102030405060708 fcf85edc0c0fdca589c280076265df7efa0e7cdccf7d689522b76cac1de13d62 0 0 0|\
put 2.11313462442781569815 name zoe 4294967295|session 00000000ffffffff00000000000003e8
0 1000 register Ann secret|is 200 Welcome Ann|put 3.1 counter 5|\
put 1.5 user Ann 0102030405060708 fcf85edc0c0fdca589c280076265df7efa0e7cdccf7d689522b76cac1de13d62 0 0 0|\
put 2.1667347184426750003 name Ann 5|session 000000000000000500000000000003e8
0 1000 register abcdefghijklmnopqrstuvwx secret|is 200 Welcome abcdefghijklmnopqrstuvwx|put 3.1 counter 5|\
put 1.5 user abcdefghijklmnopqrstuvwx 0102030405060708 \
fcf85edc0c0fdca589c280076265df7efa0e7cdccf7d689522b76cac1de13d62 0 0 0|\
put 2.10642228843419066565 name abcdefghijklmnopqrstuvwx 5|session 000000000000000500000000000003e8
0 1000 register abcdefghijklmnopqrstuvwy secret|with 2.10642228843419066565 name abcdefghijklmnopqrstuvwx 4|\
is 200 Welcome abcdefghijklmnopqrstuvwy|put 3.1 counter 5|\
put 1.5 user abcdefghijklmnopqrstuvwy 0102030405060708 \
fcf85edc0c0fdca589c280076265df7efa0e7cdccf7d689522b76cac1de13d62 0 0 0|\
put 2.12377881005817517325 name abcdefghijklmnopqrstuvwy 5|session 000000000000000500000000000003e8";

/// Names are taken once. A name is taken also where another name stands at its key.
const NOT_REGISTERED: &str = "\
0 1000 register bob open sesame|is 409 Name taken
0 1000 register zoe open sesame|with 2.11313462442781569815 name bob 2|is 409 Name taken
0 1000 register abcdefghijklmnopqrstuvwx open sesame|with 2.10642228843419066565 name abcdefghijklmnopqrstuvwx 4|\
is 409 Name taken
0 1000 register bob open sesame|with 3.1 counter 4294967295|is 409 Name taken
0 1000 register zoe open sesame|with 3.1 counter 4294967295|is 409 No more numbers
0 1000 register zoe open sesame|with 3.1 counter 18446744073709551615|is 409 No more numbers
0 1000 register zoe open sesame|with 2.11313462442781569815 bytes 00|is 500 Bad row 2 11313462442781569815
0 1000 register zoe open sesame|with 3.1 bytes 00000000000000|is 500 Bad row 3 1";

/// Users sign in and out. A user signs in by name and password, whoever is signed in.
const SIGNED_IN: &str = "\
0 1000 signin bob secret|is 200 Welcome bob|session 000000000000000200000000000003e8
3 256 signin ann pw1|is 200 Welcome ann|session 00000000000000010000000000000100
0 1000 signin abcdefghijklmnopqrstuvwx tea|with 2.10642228843419066565 name abcdefghijklmnopqrstuvwx 4|\
is 200 Welcome abcdefghijklmnopqrstuvwx|session 000000000000000400000000000003e8
0 1000 signin bob tea|with 2.9346719481748178650 name bob 4|is 200 Welcome bob|session 000000000000000400000000000003e8
0 1000 signin eve secret|is 403 Wrong name or password
0 1000 signin Ann pw1|is 403 Wrong name or password
0 1000 signin Ann pw1|with 2.1667347184426750003 name ann 1|is 403 Wrong name or password
0 1000 signin abcdefghijklmnopqrstuvwy tea|with 2.10642228843419066565 name abcdefghijklmnopqrstuvwx 4|\
is 403 Wrong name or password
0 1000 signin abcdefghijklmnopqrstuvwy tea|with 2.12377881005817517325 name abcdefghijklmnopqrstuvwx 4|\
is 403 Wrong name or password
0 1000 signin zoe secret|with 2.11313462442781569815 name bob 2|is 403 Wrong name or password
0 1000 signin bob secret|gone 1.2|is 403 Wrong name or password
0 1000 signin bob Secret|is 403 Wrong name or password
0 1000 signin bob pw1|is 403 Wrong name or password
0 1000 signin bob secret|\
with 1.2 user bob 2222222222222223 eaf91caada6d287903772c44cad4af15ff67445affc73b6006f018cdc15aeb2e 3 1 5|\
is 403 Wrong name or password
0 1000 signin zoe secret|with 2.11313462442781569815 name bob 2|with 1.2 bytes 00|is 403 Wrong name or password
0 1000 signin bob secret|with 2.9346719481748178650 bytes 0003626f620000000100000000|\
is 500 Bad row 2 9346719481748178650
0 1000 signin bob secret|with 1.2 bytes 00|is 500 Bad row 1 2";

/// Signing out sets the session of no user.
const SIGNED_OUT: &str = "\
2 1000 signout|is 200 Signed out|session 000000000000000000000000000003e8
0 1000 signout|is 200 Signed out|session 000000000000000000000000000003e8";

/// Users are shown. The first page says who is signed in.
const HOME: &str = "\
0 1000 home|is 200 Auctions|line <p>Signed out</p>|line <p><a href=\"/categories\">Categories</a></p>
4294967295 1000 home|is 200 Auctions|line <p>User 4294967295</p>|line <p><a href=\"/categories\">Categories</a></p>";

/// What was said about a user.
const USERS: &str = "\
0 1000 user 2|is 200 bob|line <p>Good 3</p>|line <p>Bad 1</p>
3 1000 user 4|is 200 dan|line <p>Good 0</p>|line <p>Bad 1</p>
0 1000 user 2|\
with 1.2 user <b>\"&' 2222222222222222 eaf91caada6d287903772c44cad4af15ff67445affc73b6006f018cdc15aeb2e 4294967295 \
4294967295 5|is 200 &lt;b&gt;&quot;&amp;&#39;|line <p>Good 4294967295</p>|line <p>Bad 4294967295</p>
0 1000 user 99|is 404 Not there
0 1000 user 2|with 1.2 bytes 00|is 500 Bad row 1 2";

#[test]
fn users_register_sign_in_and_are_shown(rt: HostRuntime) {
    expect_table(&rt, rt.alloc(), SHOP, REGISTERED);
    expect_table(&rt, rt.alloc(), SHOP, NOT_REGISTERED);
    expect_table(&rt, rt.alloc(), SHOP, SIGNED_IN);
    expect_table(&rt, rt.alloc(), SHOP, SIGNED_OUT);
    expect_table(&rt, rt.alloc(), SHOP, HOME);
    expect_table(&rt, rt.alloc(), SHOP, USERS);
}
