//! Feedback.

use crate::shop::SHOP;
use crate::tables::expect_table;

/// Feedback is given. The buyer and the seller each give feedback once about the other. That about user 2, who has 4,
/// is the fifth, at 2 * 2^20 + 5; the first about user 3 stands at 3 * 2^20 + 1.
const GIVEN: &str = "\
3 1000 feedback 4 good Fine|is 200 Thanks|put 8.2097157 feedback 3 4 good Fine|\
put 1.2 user bob 2222222222222222 eaf91caada6d287903772c44cad4af15ff67445affc73b6006f018cdc15aeb2e 4 1 5|\
put 4.4 item sold 2 1 100 500 0 0 0 5000 3 buyer Diary
3 9000 feedback 4 bad|is 200 Thanks|put 8.2097157 feedback 3 4 bad -|\
put 1.2 user bob 2222222222222222 eaf91caada6d287903772c44cad4af15ff67445affc73b6006f018cdc15aeb2e 3 2 5|\
put 4.4 item sold 2 1 100 500 0 0 0 5000 3 buyer Diary
2 1000 feedback 4 bad Paid late & <little>|is 200 Thanks|put 8.3145729 feedback 2 4 bad Paid late & <little>|\
put 1.3 user cat 3333333333333333 b63bf330c84cced86b6db00555b7ee7c50418aecc6be36c97e1ea884e043c92e 0 1 2|\
put 4.4 item sold 2 1 100 500 0 0 0 5000 3 seller Diary
2 1000 feedback 4 good Paid|with 4.4 item sold 2 1 100 500 0 0 0 5000 3 buyer Diary|is 200 Thanks|\
put 8.3145729 feedback 2 4 good Paid|\
put 1.3 user cat 3333333333333333 b63bf330c84cced86b6db00555b7ee7c50418aecc6be36c97e1ea884e043c92e 1 0 2|\
put 4.4 item sold 2 1 100 500 0 0 0 5000 3 both Diary
3 1000 feedback 4 good Fine|with 4.4 item sold 2 1 100 500 0 0 0 5000 3 seller Diary|is 200 Thanks|\
put 8.2097157 feedback 3 4 good Fine|\
put 1.2 user bob 2222222222222222 eaf91caada6d287903772c44cad4af15ff67445affc73b6006f018cdc15aeb2e 4 1 5|\
put 4.4 item sold 2 1 100 500 0 0 0 5000 3 both Diary";

/// Who is both counts as the buyer. Who bought the own item counts as its buyer, and gives feedback once, about
/// himself.
const BOTH: &str = "\
2 1000 feedback 4 good Mine|with 4.4 item sold 2 1 100 500 0 0 0 5000 2 none Diary|is 200 Thanks|\
put 8.2097157 feedback 2 4 good Mine|\
put 1.2 user bob 2222222222222222 eaf91caada6d287903772c44cad4af15ff67445affc73b6006f018cdc15aeb2e 4 1 5|\
put 4.4 item sold 2 1 100 500 0 0 0 5000 2 buyer Diary
2 1000 feedback 4 bad Mine|with 4.4 item sold 2 1 100 500 0 0 0 5000 2 seller Diary|is 200 Thanks|\
put 8.2097157 feedback 2 4 bad Mine|\
put 1.2 user bob 2222222222222222 eaf91caada6d287903772c44cad4af15ff67445affc73b6006f018cdc15aeb2e 3 2 5|\
put 4.4 item sold 2 1 100 500 0 0 0 5000 2 both Diary
2 1000 feedback 4 good Mine|with 4.4 item sold 2 1 100 500 0 0 0 5000 2 buyer Diary|is 409 Already given";

/// Feedback has a last number. The last feedback about a user has number 2^20 - 1.
const LAST: &str = "\
3 1000 feedback 4 good Fine|\
with 1.2 user bob 2222222222222222 eaf91caada6d287903772c44cad4af15ff67445affc73b6006f018cdc15aeb2e 1000000 48574 5|\
is 200 Thanks|put 8.3145727 feedback 3 4 good Fine|\
put 1.2 user bob 2222222222222222 eaf91caada6d287903772c44cad4af15ff67445affc73b6006f018cdc15aeb2e 1000001 48574 5|\
put 4.4 item sold 2 1 100 500 0 0 0 5000 3 buyer Diary
3 1000 feedback 4 good Fine|\
with 1.2 user bob 2222222222222222 eaf91caada6d287903772c44cad4af15ff67445affc73b6006f018cdc15aeb2e 1000000 48575 5|\
is 409 No more numbers
3 1000 feedback 4 good Fine|\
with 1.2 user bob 2222222222222222 eaf91caada6d287903772c44cad4af15ff67445affc73b6006f018cdc15aeb2e 0 1048575 5|\
is 409 No more numbers
3 1000 feedback 4 bad Fine|\
with 1.2 user bob 2222222222222222 eaf91caada6d287903772c44cad4af15ff67445affc73b6006f018cdc15aeb2e 1048575 0 5|\
is 409 No more numbers
3 1000 feedback 4 good Fine|\
with 1.2 user bob 2222222222222222 eaf91caada6d287903772c44cad4af15ff67445affc73b6006f018cdc15aeb2e 4294967295 \
4294967295 5|is 409 No more numbers";

/// Feedback is refused. The first refusal that holds is answered.
const REFUSED: &str = "\
0 1000 feedback 4 good Fine|is 403 Sign in first
3 1000 feedback 99 good Fine|is 404 Not there
3 1000 feedback 1 good Fine|is 409 Not sold
2 1000 feedback 3 good Fine|is 409 Not sold
4 9000 feedback 1 good Fine|is 409 Not sold
4 1000 feedback 4 good Fine|is 403 Not allowed
3 1000 feedback 6 good Fine|is 409 Already given
4 1000 feedback 6 good Fine|is 409 Already given
2 1000 feedback 6 good Fine|is 403 Not allowed
3 1000 feedback 4 good Fine|with 4.4 item sold 2 1 100 500 0 0 0 5000 3 buyer Diary|is 409 Already given
2 1000 feedback 4 good Fine|with 4.4 item sold 2 1 100 500 0 0 0 5000 3 seller Diary|is 409 Already given
4 1000 feedback 6 good Fine|gone 1.3|is 409 Already given
3 1000 feedback 4 good Fine|gone 1.2|is 404 Not there
2 1000 feedback 4 good Fine|gone 1.3|is 404 Not there
3 1000 feedback 4 good Fine|with 4.4 bytes 02|is 500 Bad row 4 4
3 1000 feedback 4 good Fine|with 1.2 bytes 0001ff|is 500 Bad row 1 2";

#[test]
fn feedback_is_given_or_refused(rt: HostRuntime) {
    expect_table(&rt, rt.alloc(), SHOP, GIVEN);
    expect_table(&rt, rt.alloc(), SHOP, BOTH);
    expect_table(&rt, rt.alloc(), SHOP, LAST);
    expect_table(&rt, rt.alloc(), SHOP, REFUSED);
}
