//! Forms.

use crate::shop::SHOP;
use crate::tables::expect_table;

/// The form of each kind, with the token of the call and the fields of its action.
const FORMS: &str = "\
3 1000 form register|is 200 Form register|line <form method=\"post\" action=\"/register\">|\
line <input type=\"hidden\" name=\"token\" value=\"0123456789abcdefghijklmnopqrstuvwxyzABCDEFGHIJKLMNOPQRST\">|\
line <label>name <input name=\"name\"></label>|line <label>password <input name=\"password\"></label>|\
line <button>Send</button>|line </form>
3 1000 form signin|is 200 Form signin|line <form method=\"post\" action=\"/signin\">|\
line <input type=\"hidden\" name=\"token\" value=\"0123456789abcdefghijklmnopqrstuvwxyzABCDEFGHIJKLMNOPQRST\">|\
line <label>name <input name=\"name\"></label>|line <label>password <input name=\"password\"></label>|\
line <button>Send</button>|line </form>
3 1000 form signout|is 200 Form signout|line <form method=\"post\" action=\"/signout\">|\
line <input type=\"hidden\" name=\"token\" value=\"0123456789abcdefghijklmnopqrstuvwxyzABCDEFGHIJKLMNOPQRST\">|\
line <button>Send</button>|line </form>
3 1000 form category|is 200 Form category|line <form method=\"post\" action=\"/categories\">|\
line <input type=\"hidden\" name=\"token\" value=\"0123456789abcdefghijklmnopqrstuvwxyzABCDEFGHIJKLMNOPQRST\">|\
line <label>name <input name=\"name\"></label>|line <button>Send</button>|line </form>
3 1000 form sell|is 200 Form sell|line <form method=\"post\" action=\"/sell\">|\
line <input type=\"hidden\" name=\"token\" value=\"0123456789abcdefghijklmnopqrstuvwxyzABCDEFGHIJKLMNOPQRST\">|\
line <label>title <input name=\"title\"></label>|line <label>category <input name=\"category\"></label>|\
line <label>start <input name=\"start\"></label>|line <label>buy_now <input name=\"buy_now\"></label>|\
line <label>hours <input name=\"hours\"></label>|line <button>Send</button>|line </form>
3 1000 form bid|is 200 Form bid|line <form method=\"post\" action=\"/bid\">|\
line <input type=\"hidden\" name=\"token\" value=\"0123456789abcdefghijklmnopqrstuvwxyzABCDEFGHIJKLMNOPQRST\">|\
line <label>item <input name=\"item\"></label>|line <label>amount <input name=\"amount\"></label>|\
line <button>Send</button>|line </form>
3 1000 form buy|is 200 Form buy|line <form method=\"post\" action=\"/buy\">|\
line <input type=\"hidden\" name=\"token\" value=\"0123456789abcdefghijklmnopqrstuvwxyzABCDEFGHIJKLMNOPQRST\">|\
line <label>item <input name=\"item\"></label>|line <button>Send</button>|line </form>
3 1000 form close|is 200 Form close|line <form method=\"post\" action=\"/close\">|\
line <input type=\"hidden\" name=\"token\" value=\"0123456789abcdefghijklmnopqrstuvwxyzABCDEFGHIJKLMNOPQRST\">|\
line <label>item <input name=\"item\"></label>|line <button>Send</button>|line </form>
3 1000 form feedback|is 200 Form feedback|line <form method=\"post\" action=\"/feedback\">|\
line <input type=\"hidden\" name=\"token\" value=\"0123456789abcdefghijklmnopqrstuvwxyzABCDEFGHIJKLMNOPQRST\">|\
line <label>item <input name=\"item\"></label>|line <label>good <input name=\"good\"></label>|\
line <label>text <input name=\"text\"></label>|line <button>Send</button>|line </form>";

/// Who is not signed in gets the session of no user.
const WITHOUT_A_USER: &str = "\
0 1000 form register|is 200 Form register|line <form method=\"post\" action=\"/register\">|\
line <input type=\"hidden\" name=\"token\" value=\"0123456789abcdefghijklmnopqrstuvwxyzABCDEFGHIJKLMNOPQRST\">|\
line <label>name <input name=\"name\"></label>|line <label>password <input name=\"password\"></label>|\
line <button>Send</button>|line </form>|session 000000000000000000000000000003e8
0 1000 form bid|is 200 Form bid|line <form method=\"post\" action=\"/bid\">|\
line <input type=\"hidden\" name=\"token\" value=\"0123456789abcdefghijklmnopqrstuvwxyzABCDEFGHIJKLMNOPQRST\">|\
line <label>item <input name=\"item\"></label>|line <label>amount <input name=\"amount\"></label>|\
line <button>Send</button>|line </form>|session 000000000000000000000000000003e8";

#[test]
fn forms_are_shown(rt: HostRuntime) {
    expect_table(&rt, rt.alloc(), SHOP, FORMS);
    expect_table(&rt, rt.alloc(), SHOP, WITHOUT_A_USER);
}
