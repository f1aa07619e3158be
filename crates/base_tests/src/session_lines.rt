//! Lines about sessions that are read, and lines that are not.

use crate::lines::{expect_lengths, expect_lines, expect_refused};

/// Each form: what is read of a line, and after a bar the line.
const FORMS: &str = "bricks 3 2 1|bricks 3 2 1
bricks 0 18446744073709551615 10|bricks 0 18446744073709551615 10
bricks 18446744073709551615 0 0|bricks 18446744073709551615 0 0
bricks 1 0 18446744073709551615|bricks 1 0 18446744073709551615
key|key -
key 0|key 00
key 0 255 26 1 35|key 00ff1a0123
event now 0|now 0
event now 18446744073709551615|now 18446744073709551615
event write 1 97|write k1 61
event write 65535|write k65535 -
event write 42 0 255 26|write k42 00ff1a
event fetch 1|fetch k1
event fetch 65535|fetch k65535
event cookie 1|cookie k1
event cookie 65535|cookie k65535
event present a|present a
event present -|present -
event present #|present #
event present present|present present
event present k1.AZ_az+/=09|present k1.AZ_az+/=09
event present !\"$%&'()*,:;<>?@[\\]^`{}~\t\x00\x7f|present !\"$%&'()*,:;<>?@[\\]^`{}~\t\x00\x7f
event lose 2 5|lose 2 5
event lose 1 18446744073709551615|lose 1 18446744073709551615
event lose 18446744073709551615 0|lose 18446744073709551615 0
event mute 2 5|mute 2 5
event mute 1 18446744073709551615|mute 1 18446744073709551615
event mute 18446744073709551615 0|mute 18446744073709551615 0
event repeat 2 5|repeat 2 5
event repeat 1 18446744073709551615|repeat 1 18446744073709551615
event repeat 18446744073709551615 0|repeat 18446744073709551615 0
event crash 1|crash 1
event crash 18446744073709551615|crash 18446744073709551615
event sweep 1|sweep 1
event sweep 18446744073709551615|sweep 18446744073709551615
event sweep 2 5|sweep 2 5
event sweep 1 18446744073709551615|sweep 1 18446744073709551615
event sweep 18446744073709551615 0|sweep 18446744073709551615 0
event values 1|values 1
event values 18446744073709551615|values 18446744073709551615
event windows|windows
event hold 1|hold 1
event hold 18446744073709551615|hold 18446744073709551615
event free 1 answered|free 1 answered
event free 1 silent|free 1 silent
event free 18446744073709551615 silent|free 18446744073709551615 silent";

/// Refused lines: more than single spaces.
const SPACES: &str =
    " bricks 3 2 1/bricks  3 2 1/bricks 3  2 1/bricks 3 2  1/bricks 3 2 1 / key 00/key  00/key 00 / now 1/now  1/now 1 / write k1 61/write  k1 61/write k1  61/write k1 61 / fetch k1/fetch  k1/fetch k1 / cookie k1/cookie  k1/cookie k1 / present a/present  a/present a / lose 1 2/lose  1 2/lose 1  2/lose 1 2 / mute 1 2/mute  1 2/mute 1  2/mute 1 2 / repeat 1 2/repeat  1 2/repeat 1  2/repeat 1 2 / crash 1/crash  1/crash 1 / sweep 1/sweep  1/sweep 1 / sweep 1 2/sweep  1 2/sweep 1  2/sweep 1 2 / values 1/values  1/values 1 / windows/windows / hold 1/hold  1/hold 1 / free 1 silent/free  1 silent/free 1  silent/free 1 silent ";

/// Refused lines: other first words.
const OTHER_FORMS: &str =
    "Bricks 3 2 1/brick 3 2 1/brickss 3 2 1/Key 00/keys 00/ke 00/Now 1/nows 1/no 1/Write k1 61/writes k1 61/writ k1 61/Fetch k1/fetchs k1/fetc k1/Cookie k1/cookies k1/cooki k1/Present a/presents a/presen a/Lose 1 2/loses 1 2/los 1 2/Mute 1 2/mutes 1 2/mut 1 2/Repeat 1 2/repeats 1 2/repea 1 2/Crash 1/crashs 1/cras 1/Sweep 1/sweeps 1/swee 1/Sweep 1 2/sweep_at 1 2/Values 1/value 1/valuess 1/Windows/window/windowss/Hold 1/holds 1/hol 1/Free 1 silent/frees 1 silent/fre 1 silent";

/// Refused lines: other numbers.
const NUMBERS: &str =
    "bricks 03 2 1/bricks 3 02 1/bricks 3 2 01/bricks 18446744073709551616 2 1/bricks 3 18446744073709551616 1/bricks 3 2 18446744073709551616/bricks a 2 1/bricks 3 -2 1/bricks 3 2 +1/now 00/now 01/now 18446744073709551616/now -1/now +1/now 1a/now k1/now /lose 01 2/lose 1 02/lose 18446744073709551616 2/lose 1 18446744073709551616/lose -1 2/lose 1 a/mute 01 2/mute 1 02/mute 18446744073709551616 2/mute 1 18446744073709551616/mute -1 2/mute 1 a/repeat 01 2/repeat 1 02/repeat 18446744073709551616 2/repeat 1 18446744073709551616/repeat -1 2/repeat 1 a/crash 01/crash 18446744073709551616/crash -1/crash k1/crash /sweep 01/sweep 18446744073709551616/sweep -1/sweep a/sweep /sweep 01 2/sweep 1 02/sweep 18446744073709551616 2/sweep 1 18446744073709551616/sweep a 2/sweep 1 a/values 01/values 18446744073709551616/values -1/values k1/values /hold 01/hold 18446744073709551616/hold -1/hold a/hold /free 01 silent/free 18446744073709551616 silent/free -1 silent/free a silent/free  silent";

/// Refused lines: brick 0. Bricks are numbered from 1 on.
const BRICKS: &str =
    "lose 0 1/mute 0 1/repeat 0 1/crash 0/sweep 0/sweep 0 1/values 0/hold 0/free 0 answered/free 0 silent";

/// Refused lines: other session keys.
const KEYS: &str =
    "write k0 61/write k01 61/write k65536 61/write k18446744073709551617 61/write k 61/write K1 61/write 1 61/write c1 61/write kk1 61/write k1a 61/write 61 k1/fetch k0/fetch k01/fetch k65536/fetch k18446744073709551617/fetch k/fetch K1/fetch 1/fetch c1/fetch kk1/fetch /cookie k0/cookie k01/cookie k65536/cookie k18446744073709551617/cookie k/cookie K1/cookie 1/cookie c1/cookie kk1/cookie /begin k1";

/// Refused lines: other hexadecimal.
const HEX: &str =
    "key 0/key 000/key AB/key aB/key 0g/key --/key -00/key 00-/key /write k1 0/write k1 000/write k1 AB/write k1 aB/write k1 0g/write k1 --/write k1 -00/write k1 00-/write k1 ";

/// Refused lines: other texts.
const TEXTS: &str =
    "present /present\ta/present caf\u{e9}/present \u{80}/present a\r/present \r/present a\rb/present k1\r";

/// Refused lines: other outcomes.
const OUTCOMES: &str =
    "free 1 bogus/free 1 Answered/free 1 ANSWERED/free 1 answere/free 1 answereds/free 1 Silent/free 1 silen/free 1 silents/free 1 silence/free 1 /free 1 -/free 1 1/free answered 1/free silent silent";

/// Refused lines: missing words.
const MISSING: &str =
    "bricks/bricks 3/bricks 3 2/key/now/write/write k1/write 61/fetch/cookie/present/lose/lose 1/mute/mute 1/repeat/repeat 1/crash/sweep/values/hold/free/free 1/free silent";

/// Refused lines: further words.
const FURTHER: &str =
    "bricks 3 2 1 0/key 00 00/key - -/now 1 2/write k1 61 62/fetch k1 k1/fetch k1 1/cookie k1 k1/present a b/lose 1 2 3/mute 1 2 3/repeat 1 2 3/crash 1 2/sweep 1 2 3/values 1 2/windows 1/windows windows/hold 1 2/free 1 silent 2/free 1 answered silent";

/// Bytes and texts up to the limit, and over it.
const LENGTHS: &str = "key |0|32|16
key |0|8000|4000
key |0|8002|refused
key |0|7999|refused
write k65535 |0|8000|4000
write k65535 |0|8002|refused
write k65535 |0|7999|refused
present |a|8184|8184
present |a|8185|refused";

#[test]
fn lines_are_read_or_refused(rt: HostRuntime) {
    let alloc = rt.alloc();
    expect_lines(&rt, alloc, FORMS);
    expect_refused(&rt, alloc, SPACES);
    expect_refused(&rt, alloc, OTHER_FORMS);
    expect_refused(&rt, alloc, NUMBERS);
    expect_refused(&rt, alloc, BRICKS);
    expect_refused(&rt, alloc, KEYS);
    expect_refused(&rt, alloc, HEX);
    expect_refused(&rt, alloc, TEXTS);
    expect_refused(&rt, alloc, OUTCOMES);
    expect_refused(&rt, alloc, MISSING);
    expect_refused(&rt, alloc, FURTHER);
    expect_lengths(&rt, alloc, LENGTHS);
}
