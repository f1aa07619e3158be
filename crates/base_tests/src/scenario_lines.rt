//! Lines that are read, and lines that are not.

use crate::lines::{expect_lengths, expect_lines, expect_refused};
use crate::words::{bytes, cut, expect_bytes, expect_so, expect_words};
use scenario_text::{HexBytes, ended_line, write_hex};
use std::alloc::Global;
use std::process::Abort;

/// Each form: what is read of a line, and after a bar the line.
const FORMS: &str = "pass|
pass|#
pass|# put c0  X 
pass|# !\"$%&'()*+,-./:;<=>?@[\\]^`{|}~\t\x00\x7f
component Az_09|component Az_09
hard Az_09 b|hard Az_09 b
hard a a|hard a a
soft b Az_09|soft b Az_09
owns a 0|owns a 0
owns _ 18446744073709551615|owns _ 18446744073709551615
fault Az_09 0 raise group|fault Az_09 0 raise group
fault a 18446744073709551615 hang app|fault a 18446744073709551615 hang app
fault b 7 raise process|fault b 7 raise process
limit 0 18446744073709551615|limit 0 18446744073709551615
limit 18446744073709551615 1|limit 18446744073709551615 1
event begin 1|begin c1
event begin 65535|begin c65535
event enter 10 9|enter c10 9
event exit 1|exit c1
event exit 65535|exit c65535
event read 7 10 18446744073709551615|read c7 10 18446744073709551615
event read 65535 0 0|read c65535 0 0
event list 7 18446744073709551615|list c7 18446744073709551615
event list 65535 0|list c65535 0
event put 7 10 18446744073709551615|put c7 10 18446744073709551615 -
event put 7 0 9 0 255 26|put c7 0 9 00ff1a
event put 7 1 2 1 35 69 103 137 171 205 239|put c7 1 2 0123456789abcdef
event commit 42|commit c42
event drop 1|drop c1
event drop 65535|drop c65535
event down Az_09|down Az_09
event down app|down app
event up Az_09|up Az_09
event up app|up app
event reboot Az_09|reboot Az_09
event reboot app|reboot app
event down @NAME|down @NAME
event down a-b|down a-b
event up a.b|up a.b
event up -|up -
event reboot app!|reboot app!
event reboot !\"#$%&'()*,:;<=>?@[\\]^`{}~\t\x00\x7f|reboot !\"#$%&'()*,:;<=>?@[\\]^`{}~\t\x00\x7f
event table|table
event journal|journal
event report Az_09|report Az_09
event report a a|report a a
event report b Az_09 app|report b Az_09 app
event report a b c d e f g h i j k l m n o p|report a b c d e f g h i j k l m n o p
event report a b c d e f g h i j k l m n o p q|report a b c d e f g h i j k l m n o p q
event reopen|reopen";

/// Refused lines: more than single spaces.
const SPACES: &str =
    " /begin  c1/begin c1 / begin c1/ # comment/hard  a b/hard a  b/hard a b /soft  a b/soft a  b/soft a b /fault  a 1 raise app/fault a  1 raise app/fault a 1  raise app/fault a 1 raise  app/fault a 1 raise app /limit  1 2/limit 1  2/limit 1 2 /exit  c1/exit c1 /read  c1 2 3/read c1  2 3/read c1 2  3/read c1 2 3 /list  c1 2/list c1  2/list c1 2 /drop  c1/drop c1 /down  a/down a /up  a/up a /reboot  a/reboot a / table/ journal/journal / report a/report  a/report a /report a  b/report a b / reopen/reopen ";

/// Refused lines: other bytes.
const OTHER_BYTES: &str =
    "begin\tc1/begin c1\r/begin c1\n/\r/# comment\r/#\rcomment/# caf\u{e9}/component caf\u{e9}";

/// Refused lines: other first words.
const OTHER_FORMS: &str =
    "Begin c1/BEGIN c1/begi c1/begins c1/Hard a b/hards a b/Soft a b/Fault a 1 raise app/FAULT a 1 raise app/faul a 1 raise app/faults a 1 raise app/LIMIT 1 2/limits 1 2/Exit c1/exits c1/Read c1 2 3/READ c1 2 3/rea c1 2 3/reads c1 2 3/List c1 2/LIST c1 2/lis c1 2/lists c1 2/DROP c1/Down a/downs a/Up a/UP a/ups a/u a/Reboot a/rebootapp/Journal/journals/Report a/REPORT a/repor a/reports a/Reopen/REOPEN/reope/reopens";

/// Refused lines: other numbers.
const NUMBERS: &str =
    "owns a 00/owns a 01/put c1 02 3 -/put c1 2 03 -/owns a 18446744073709551616/owns a 18446744073709551620/owns a 28446744073709551615/put c1 18446744073709551616 3 -/put c1 2 99999999999999999999999 -/read c1 02 3/read c1 2 03/read c1 00 3/read c1 18446744073709551616 3/read c1 2 18446744073709551616/read c1 -2 3/read c1 2 +3/read c1 a 3/read c1 2 3a/list c1 02/list c1 00/list c1 18446744073709551616/list c1 -2/list c1 a/owns a -1/owns a +1/owns a 1a/fault a 00 hang app/fault a 01 hang app/fault a 18446744073709551616 hang app/fault a -1 hang app/fault a +1 hang app/fault a 1a hang app/limit 00 1/limit 01 1/limit 1 00/limit 1 01/limit 18446744073709551616 1/limit 1 18446744073709551616/limit -1 1/limit 1 +1/limit a 1/limit 1 1a/limit c1 1";

/// Refused lines: other callers.
const CALLERS: &str =
    "begin c0/begin c01/begin c65536/begin c18446744073709551617/begin c/begin C1/begin 1/begin cc1/enter c0 a/commit c01/put c65536 1 2 -/exit c0/exit c01/exit c65536/exit c18446744073709551617/exit C1/exit 1/read c0 2 3/read c01 2 3/read c65536 2 3/read c18446744073709551617 2 3/read C1 2 3/read 1 2 3/list c0 2/list c01 2/list c65536 2/list c18446744073709551617 2/list C1 2/list 1 2/drop c0/drop c01/drop c65536/drop c18446744073709551617/drop C1/drop 1";

/// Refused lines: other hexadecimal.
const HEX: &str =
    "put c1 2 3 0/put c1 2 3 000/put c1 2 3 AB/put c1 2 3 aB/put c1 2 3 0g/put c1 2 3 --/put c1 2 3 -00/put c1 2 3 00-/put c1 2 3 ";

/// Refused lines: other names.
const NAMES: &str =
    "component /component a-b/component a.b/enter c1 /owns  1/hard a-b c/hard a b.c/soft a. b/soft a b-/fault a-b 1 raise app/report /report a-b/report a b.c/report a- b/report a caf\u{e9}/report a b\r/down /up /reboot /down \u{e9}/up a\r/reboot \r/hard ZZZZZZZZZZZZZZZZZZZZZZZZZZZZZZZZZ b/soft ZZZZZZZZZZZZZZZZZZZZZZZZZZZZZZZZZ b/owns ZZZZZZZZZZZZZZZZZZZZZZZZZZZZZZZZZ 1/report ZZZZZZZZZZZZZZZZZZZZZZZZZZZZZZZZZ/report a ZZZZZZZZZZZZZZZZZZZZZZZZZZZZZZZZZ b";

/// Refused lines: other words for what a component does that fails, and for what cures it.
const FAULTS: &str =
    "fault a 1 leak app/fault a 1 Raise app/fault a 1 rais app/fault a 1 raises app/fault a 1 Hang app/fault a 1 hangs app/fault a 1 - app/fault a 1 app raise/fault a 1 raise Group/fault a 1 raise groups/fault a 1 raise App/fault a 1 raise ap/fault a 1 raise proces/fault a 1 raise process2/fault a 1 hang human/fault a 1 hang none/fault a 1 hang a/fault a 1 hang 1";

/// Refused lines: missing words.
const MISSING: &str =
    "component/hard/hard a/soft/soft a/owns/owns a/fault/fault a/fault a 1/fault a 1 raise/limit/limit 1/begin/enter/enter c1/put/put c1/put c1 2/put c1 2 3/exit/read/read c1/read c1 2/list/list c1/commit/drop/down/up/reboot/report";

/// Refused lines: further words.
const FURTHER: &str =
    "component a b/hard a b c/soft a b c/owns a 1 2/fault a 1 raise app app/fault a b 1 raise app/limit 1 2 3/begin c1 c2/enter c1 a b/put c1 2 3 - -/exit c1 c1/read c1 2 3 4/list c1 2 3/commit c1 c1/drop c1 c1/down a b/up a b/reboot a b/table 1/table /journal 1/reopen 1/reopen c1";

/// Names up to the limit, and over it. A name has at most 32 bytes. What goes down or comes up is any word. A report
/// gives names.
const NAME_LENGTHS: &str = "component |Z|32|0
component |Z|33|refused
enter c1 |Z|33|refused
hard a |Z|32|0
hard a |Z|33|refused
soft a |Z|32|0
soft a |Z|33|refused
report a |Z|32|2
report a |Z|33|refused
down |Z|33|33
up |Z|33|33
reboot |Z|33|33";

/// Bytes up to the limit, and over it.
const HEX_LENGTHS: &str = "put c65535 1 2 |0|8000|4000
put c65535 1 2 |0|8002|refused
put c65535 1 2 |0|7999|refused";

/// Lines up to the limit, and over it. A report has as many names as its line holds.
const LINE_LENGTHS: &str = "#|#|8191|0
#|#|8192|refused
begin c1| |8185|refused
down |@|8187|8187
down |@|8188|refused
up |@|8189|8189
up |@|8190|refused
reboot |@|8185|8185
reboot |@|8186|refused
report| a|4093|4093
report| a|4094|refused";

#[test]
fn lines_are_read_or_refused(rt: HostRuntime) {
    let alloc = rt.alloc();
    expect_lines(&rt, alloc, FORMS);
    expect_refused(&rt, alloc, SPACES);
    expect_refused(&rt, alloc, OTHER_BYTES);
    expect_refused(&rt, alloc, OTHER_FORMS);
    expect_refused(&rt, alloc, NUMBERS);
    expect_refused(&rt, alloc, CALLERS);
    expect_refused(&rt, alloc, HEX);
    expect_refused(&rt, alloc, NAMES);
    expect_refused(&rt, alloc, FAULTS);
    expect_refused(&rt, alloc, MISSING);
    expect_refused(&rt, alloc, FURTHER);
    expect_lengths(&rt, alloc, NAME_LENGTHS);
    expect_lengths(&rt, alloc, HEX_LENGTHS);
    expect_lengths(&rt, alloc, LINE_LENGTHS);
}

/// Texts, each with its first line that has ended and what is left. Commas are between them.
const CUTS: &str = "\n||,a\nb|a|b,\n\na\n||\na\n,ab\r\n\nc|ab\r|\nc";

fn expect_cut(rt: &impl Abort, row: &str) {
    let (text, rest) = cut(rt, row, '|');
    let (first, left) = cut(rt, rest, '|');
    let found = ended_line(text.as_bytes()).expect(rt, row);
    expect_bytes(rt, found.0, first.as_bytes(), row);
    expect_bytes(rt, found.1, left.as_bytes(), row);
}

fn expect_unended(rt: &impl Abort, row: &str) {
    expect_so(rt, ended_line(row.as_bytes()).is_none(), row);
}

/// Bytes, and what is written of them after an `x`.
const HEXADECIMAL: &str = "|x-
0|x00
9 10 15 16 159 160 255|x090a0f109fa0ff";

fn expect_hex(rt: &impl Abort, alloc: Global, row: &str) {
    let (text, want) = cut(rt, row, '|');
    let bytes = bytes(rt, alloc, text);
    let mut words = String::from_str(alloc, "x").expect(rt, row);
    write_hex(&mut words, &bytes).expect(rt, row);
    expect_words(rt, &words, want, row);
}

/// Bytes of a line are a vector.
fn expect_vector(rt: &impl Abort, alloc: Global) {
    let bytes = Vec::from_slice(alloc, &[1, 2]).expect(rt, "two bytes");
    let bytes = HexBytes::from_vec(bytes);
    expect_bytes(rt, bytes.as_slice(), &[1, 2], "lent");
}

/// The first line that has ended is cut off, which a line feed alone ends. Bytes are written in hexadecimal.
#[test]
fn texts_are_cut_and_bytes_are_written(rt: HostRuntime) {
    for row in CUTS.split(',') {
        expect_cut(&rt, row);
    }
    for row in ",a,ab\r,a\x0bb".split(',') {
        expect_unended(&rt, row);
    }
    for row in HEXADECIMAL.split('\n') {
        expect_hex(&rt, rt.alloc(), row);
    }
    expect_vector(&rt, rt.alloc());
}
