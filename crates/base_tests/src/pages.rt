//! Pages, whose bytes and sizes were written by hand.

use crate::words::{cut, expect_bytes, expect_so};
use crash_base::FieldText;
use page_text::{FieldNameList, PageLine, PageLineList, page};
use std::alloc::Global;
use std::process::Abort;

fn field(rt: &impl Abort, alloc: Global, text: &str) -> FieldText {
    FieldText::copied(alloc, text.as_bytes()).expect(rt, text)
}

/// The names that the words of a text are.
fn names(rt: &impl Abort, alloc: Global, text: &str) -> FieldNameList {
    let mut names = FieldNameList::new(alloc);
    for word in text.split(' ') {
        if !word.is_empty() {
            names.push(field(rt, alloc, word)).expect(rt, text);
        }
    }
    names
}

/// The line that a text spells: `p TEXT`, `a ADDRESS TEXT`, or `form ADDRESS TOKEN NAMES`.
fn line(rt: &impl Abort, alloc: Global, text: &str) -> PageLine {
    let (kind, rest) = cut(rt, text, ' ');
    if kind == "p" {
        return PageLine::Para {
            text: field(rt, alloc, rest),
        };
    }
    let (address, rest) = cut(rt, rest, ' ');
    if kind == "a" {
        return PageLine::Link {
            address: field(rt, alloc, address),
            text: field(rt, alloc, rest),
        };
    }
    let (token, rest) = cut(rt, rest, ' ');
    PageLine::Form {
        address: field(rt, alloc, address),
        token: field(rt, alloc, token),
        fields: names(rt, alloc, rest),
    }
}

/// The lines that a text spells, with a `|` behind each.
fn lines(rt: &impl Abort, alloc: Global, text: &str) -> PageLineList {
    let mut lines = PageLineList::new(alloc);
    for spelled in text.split('|') {
        if !spelled.is_empty() {
            lines.push(line(rt, alloc, spelled)).expect(rt, text);
        }
    }
    lines
}

/// Asserts that a page of this heading and of the lines that a text spells has these bytes.
fn expect_page(rt: &impl Abort, alloc: Global, heading: &str, text: &str, size: usize, want: &str) {
    let lines = lines(rt, alloc, text);
    let page = page(alloc, heading.as_bytes(), &lines).expect(rt, heading);
    expect_bytes(rt, page.as_slice(), want.as_bytes(), heading);
    expect_so(rt, page.len() == size, heading);
}

/// 16 + 24 + 18 + 18 + 44.
const HOME: &str = "<!doctype html>
<title>Auctions</title>
<h1>Auctions</h1>
<p>Signed out</p>
<p><a href=\"/categories\">Categories</a></p>
";

/// A page without lines has 42 bytes and twice those of its heading.
const NOT_THERE: &str = "<!doctype html>
<title>Not there</title>
<h1>Not there</h1>
";

const BAD_REQUEST: &str = "<!doctype html>
<title>Bad request</title>
<h1>Bad request</h1>
";

/// 58 + 35 + 48 + 40 + 44 + 22 + 8.
const FORM: &str = "<!doctype html>
<title>Form bid</title>
<h1>Form bid</h1>
<form method=\"post\" action=\"/bid\">
<input type=\"hidden\" name=\"token\" value=\"0a1b\">
<label>item <input name=\"item\"></label>
<label>amount <input name=\"amount\"></label>
<button>Send</button>
</form>
";

/// The escaped text has 24 bytes, and stands 9 times: 90 + 32 + 71 + 55 + 68 + 80 + 22 + 8.
const ESCAPED: &str = "<!doctype html>
<title>&amp;&lt;&gt;&quot;&#39;</title>
<h1>&amp;&lt;&gt;&quot;&#39;</h1>
<p>&amp;&lt;&gt;&quot;&#39;</p>
<p><a href=\"&amp;&lt;&gt;&quot;&#39;\">&amp;&lt;&gt;&quot;&#39;</a></p>
<form method=\"post\" action=\"&amp;&lt;&gt;&quot;&#39;\">
<input type=\"hidden\" name=\"token\" value=\"&amp;&lt;&gt;&quot;&#39;\">
<label>&amp;&lt;&gt;&quot;&#39; <input name=\"&amp;&lt;&gt;&quot;&#39;\"></label>
<button>Send</button>
</form>
";

/// 42 + 8 + 23 + 31 + 44 + 22 + 8.
const EMPTY: &str = "<!doctype html>
<title></title>
<h1></h1>
<p></p>
<p><a href=\"\"></a></p>
<form method=\"post\" action=\"\">
<input type=\"hidden\" name=\"token\" value=\"\">
<button>Send</button>
</form>
";

/// A page has paragraphs and links, or no lines; a form has its token and its fields; markup is escaped in each text;
/// and texts may be empty.
#[test]
fn pages_have_their_bytes(rt: HostRuntime) {
    let home = "p Signed out|a /categories Categories|";
    let form = "form /bid 0a1b item amount|";
    let escaped = "p &<>\"'|a &<>\"' &<>\"'|form &<>\"' &<>\"' &<>\"'|";
    let empty = "p |a  |form   |";
    expect_page(&rt, rt.alloc(), "Auctions", home, 120, HOME);
    expect_page(&rt, rt.alloc(), "Not there", "", 60, NOT_THERE);
    expect_page(&rt, rt.alloc(), "Bad request", "", 64, BAD_REQUEST);
    expect_page(&rt, rt.alloc(), "Form bid", form, 255, FORM);
    expect_page(&rt, rt.alloc(), "&<>\"'", escaped, 426, ESCAPED);
    expect_page(&rt, rt.alloc(), "", empty, 178, EMPTY);
}
