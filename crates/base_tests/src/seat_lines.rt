//! Lines about connections that are read, and lines that are not.

use crate::lines::{expect_lengths, expect_lines, expect_refused};

/// Each form: what is read of a line, and after a bar the line.
const FORMS: &str = "site|site
event conn 1|conn s1
event conn 64|conn s64
event bytes 1|bytes s1 -
event bytes 64 0 255 26|bytes s64 00ff1a
event end 1|end s1
event end 64|end s64
event step 1|step s1
event step 64|step s64
event run 1|run s1
event run 64|run s64";

/// Refused lines: more than single spaces.
const SPACES: &str =
    " site/site / conn s1/conn  s1/conn s1 / bytes s1 00/bytes  s1 00/bytes s1  00/bytes s1 00 / end s1/end  s1/end s1 / step s1/step  s1/step s1 / run s1/run  s1/run s1 ";

/// Refused lines: other first words.
const OTHER_FORMS: &str =
    "Site/SITE/sit/sites/Conn s1/con s1/conns s1/Bytes s1 00/byte s1 00/bytess s1 00/End s1/en s1/ends s1/Step s1/ste s1/steps s1/Run s1/ru s1/runs s1";

/// Refused lines: other connections.
const SEATS: &str =
    "conn s0/conn s01/conn s65/conn s065/conn s18446744073709551617/conn s/conn S1/conn 1/conn c1/conn k1/conn ss1/conn s1a/conn s-1/conn /bytes s0 00/bytes s01 00/bytes s65 00/bytes s 00/bytes S1 00/bytes 1 00/bytes c1 00/bytes 00 s1/end s0/end s01/end s65/end s/end S1/end 1/end c1/end /step s0/step s01/step s65/step s/step S1/step 1/step c1/step /run s0/run s01/run s65/run s/run S1/run 1/run c1/run /begin s1/fetch s1";

/// Refused lines: other hexadecimal.
const HEX: &str =
    "bytes s1 0/bytes s1 000/bytes s1 AB/bytes s1 aB/bytes s1 0g/bytes s1 --/bytes s1 -00/bytes s1 00-/bytes s1 ";

/// Refused lines: missing words.
const MISSING: &str = "conn/bytes/bytes s1/bytes 00/end/step/run";

/// Refused lines: further words.
const FURTHER: &str =
    "site 1/site s1/conn s1 s1/conn s1 1/bytes s1 00 00/bytes s1 - -/end s1 1/step s1 1/run s1 1";

/// Bytes up to the limit, and over it.
const LENGTHS: &str = "bytes s64 |0|8000|4000
bytes s64 |0|8002|refused
bytes s64 |0|7999|refused";

#[test]
fn lines_are_read_or_refused(rt: HostRuntime) {
    let alloc = rt.alloc();
    expect_lines(&rt, alloc, FORMS);
    expect_refused(&rt, alloc, SPACES);
    expect_refused(&rt, alloc, OTHER_FORMS);
    expect_refused(&rt, alloc, SEATS);
    expect_refused(&rt, alloc, HEX);
    expect_refused(&rt, alloc, MISSING);
    expect_refused(&rt, alloc, FURTHER);
    expect_lengths(&rt, alloc, LENGTHS);
}
