//! The kinds in memory at values, and each adapter over a stream that fails in its midst.

use crate::keeper_words::{add_fault, add_load, add_rows};
use crate::words::{add_number, add_text, add_word, cut, expect_words, number, rows};
use crash_base::{InputBytes, Moment};
use outside::{
    BytesSink, BytesSource, CallList, Clock, Failed, InputRefusal, InputSource, Keeper, MapKeeper,
    OutputSink, PlainClock, PlainRandom, PlainSerials, Random, Serials, Sink, SizeList, Source,
    SureKeeper, SureSink, SureSource, SystemClock, SystemRandom, read_to_end, write_all,
};
use std::alloc::Global;
use std::cell::Cell;
use std::io::{ErrorKind, Read, Write};
use std::process::Abort;
use std::random::RandomSource;
use std::time::Duration;
use std::{io, time};

/// The numbers that words spell.
fn numbers(rt: &impl Abort, alloc: Global, text: &str) -> CallList {
    let mut numbers = CallList::new(alloc);
    for word in text.split(' ') {
        numbers.push(number(rt, word)).expect(rt, text);
    }
    numbers
}

fn input(rt: &impl Abort, alloc: Global, text: &str) -> InputBytes {
    InputBytes::copied(alloc, text.as_bytes()).expect(rt, text)
}

/// Adds all that a source gives, or why it was not read to its end.
fn add_input<S: Source>(
    rt: &impl Abort,
    alloc: Global,
    words: &mut String,
    source: &mut S,
    limit: u64,
) {
    match read_to_end(alloc, source, limit as usize) {
        Ok(bytes) => add_text(rt, words, " ", bytes.as_slice()),
        Err(InputRefusal::Failed) => add_word(rt, words, "failed"),
        Err(InputRefusal::TooLong) => add_word(rt, words, "too_long"),
        Err(InputRefusal::OutOfMemory) => add_word(rt, words, "out_of_memory"),
    }
}

fn add_pieces(rt: &impl Abort, alloc: Global, words: &mut String, source: &mut SureSource) {
    add_input(rt, alloc, words, source, 10);
    add_number(rt, words, source.left().len() as u64);
}

fn expect_pieces(rt: &impl Abort, alloc: Global, size: &str) {
    let pieces = vec![in alloc; number(rt, size); 12].expect(rt, size);
    let bytes = input(rt, alloc, "crash-only");
    let mut source = SureSource::new(alloc, bytes, SizeList::from_vec(pieces));
    let mut words = String::new(alloc);
    add_pieces(rt, alloc, &mut words, &mut source);
    expect_words(rt, &words, "crash-only 0", size);
}

#[test]
fn pieces_of_every_size_give_the_same_bytes(rt: HostRuntime) {
    for size in "0 1 2 3 4 5 6 7 8 9 10".split(' ') {
        expect_pieces(&rt, rt.alloc(), size);
    }
}

/// Adds the bytes that one read into a room of four gives, `end` where it gives none, or `failed`.
fn add_read<S: Source>(rt: &impl Abort, words: &mut String, source: &mut S) {
    let mut room = [0u8; 4];
    match source.read(&mut room) {
        Err(Failed) => add_word(rt, words, "failed"),
        Ok(0) => add_word(rt, words, "end"),
        Ok(n) => add_text(rt, words, " ", &room[..n]),
    }
}

fn add_reads(rt: &impl Abort, words: &mut String, source: &mut BytesSource) {
    for _ in 0..7 {
        add_read(rt, words, source);
    }
    add_number(rt, words, source.faults());
}

#[test]
fn reads_fail_by_their_numbers(rt: HostRuntime) {
    let bytes = input(&rt, rt.alloc(), "abcdefgh");
    let pieces = numbers(&rt, rt.alloc(), "3 0 5");
    let mut source = BytesSource::new(bytes, pieces, numbers(&rt, rt.alloc(), "3 6"));
    let mut words = String::new(rt.alloc());
    add_reads(&rt, &mut words, &mut source);
    expect_words(
        &rt,
        &words,
        "abc d failed efgh end failed end 2",
        "seven reads",
    );
}

/// The limit, the number of the read that fails, and what is read of the text `inputs`.
const INPUTS: &str = "6|9|inputs
5|9|too_long
6|2|failed
6|0|inputs";

fn expect_input(rt: &impl Abort, alloc: Global, row: &str) {
    let (limit, rest) = cut(rt, row, '|');
    let (failing, want) = cut(rt, rest, '|');
    let bytes = input(rt, alloc, "inputs");
    let pieces = numbers(rt, alloc, "4");
    let mut source = BytesSource::new(bytes, pieces, numbers(rt, alloc, failing));
    let mut words = String::new(alloc);
    add_input(rt, alloc, &mut words, &mut source, number(rt, limit));
    expect_words(rt, &words, want, row);
}

#[test]
fn inputs_end_or_are_refused(rt: HostRuntime) {
    for row in INPUTS.split('\n') {
        expect_input(&rt, rt.alloc(), row);
    }
}

/// Adds how many bytes one write takes, or `failed`.
fn add_write<T: Sink>(rt: &impl Abort, words: &mut String, sink: &mut T, bytes: &[u8]) {
    match sink.write(bytes) {
        Err(Failed) => add_word(rt, words, "failed"),
        Ok(n) => add_number(rt, words, n as u64),
    }
}

/// Adds whether all bytes were written.
fn add_whole<T: Sink>(rt: &impl Abort, words: &mut String, sink: &mut T, bytes: &[u8]) {
    match write_all(sink, bytes) {
        Err(Failed) => add_word(rt, words, "failed"),
        Ok(()) => add_word(rt, words, "whole"),
    }
}

fn add_writes(rt: &impl Abort, words: &mut String, sink: &mut BytesSink) {
    for piece in "abc d def de  f".split(' ') {
        add_write(rt, words, sink, piece.as_bytes());
    }
    add_whole(rt, words, sink, b"g");
    add_text(rt, words, " ", sink.as_slice());
    add_number(rt, words, sink.faults());
}

#[test]
fn writes_stop_at_the_room(rt: HostRuntime) {
    let failing = numbers(&rt, rt.alloc(), "2");
    let mut sink = BytesSink::new(rt.alloc(), 5, failing).expect(&rt, "a room of five");
    let mut words = String::new(rt.alloc());
    add_writes(&rt, &mut words, &mut sink);
    let want = "3 failed failed 2 0 failed failed abcde 4";
    expect_words(&rt, &words, want, "a room of five");
}

#[test]
fn a_sure_sink_takes_everything(rt: HostRuntime) {
    let mut sink = SureSink::new();
    let mut words = String::new(rt.alloc());
    for piece in "abc  defg".split(' ') {
        add_whole(&rt, &mut words, &mut sink, piece.as_bytes());
    }
    add_number(&rt, &mut words, sink.taken());
    expect_words(&rt, &words, "whole whole whole 7", "three pieces");
}

fn add_apply<K: Keeper>(
    rt: &impl Abort,
    alloc: Global,
    words: &mut String,
    keeper: &mut K,
    writes: &str,
) {
    match keeper.apply(alloc, &rows(rt, alloc, writes)) {
        Ok(()) => add_word(rt, words, "done"),
        Err(fault) => add_fault(rt, words, fault),
    }
}

/// Adds what a keeper answers to calls with a `;` between each two: `load` is a load, and other words
/// are the writes of an apply.
fn add_calls<K: Keeper>(
    rt: &impl Abort,
    alloc: Global,
    words: &mut String,
    keeper: &mut K,
    calls: &str,
) {
    for call in calls.split(';') {
        if call == "load" {
            add_load(rt, alloc, words, keeper);
        } else {
            add_apply(rt, alloc, words, keeper, call);
        }
    }
}

#[test]
fn a_sure_keeper_gives_the_last_writes_in_order(rt: HostRuntime) {
    let mut keeper = SureKeeper::new(rows(&rt, rt.alloc(), "2.1=a 1.9=b 2.1=c"));
    let mut words = String::new(rt.alloc());
    let calls = "load;1.9=d 0.5=e 1.9=f;load";
    add_calls(&rt, rt.alloc(), &mut words, &mut keeper, calls);
    add_number(&rt, &mut words, keeper.calls());
    let want = "1.9=b 2.1=c done 0.5=e 1.9=f 2.1=c 3";
    expect_words(&rt, &words, want, calls);
}

/// The numbers of the calls that fail, the first rows, the calls, and what they answer; after that
/// how many calls and faults the keeper has counted, and its rows.
const KEPT: &str =
    "0|2.1=a 1.9=b 2.1=c|load;2.1=d 1.10=e 0.300=f 2.1=g;load|1.9=b 2.1=c done 0.300=f 1.9=b 1.10=e 2.1=g 3 0 0.300=f 1.9=b 1.10=e 2.1=g
1 3|1.1=a|load;load;1.2=b 1.1=c;load;1.2=b;load|failed 1.1=a failed 1.1=a done 1.1=a 1.2=b 6 2 1.1=a 1.2=b
2|1.1=a|1.1=;1.1=b;load|done failed 1.1= 3 1 1.1=";

fn add_kept(rt: &impl Abort, alloc: Global, words: &mut String, keeper: &MapKeeper) {
    add_number(rt, words, keeper.calls());
    add_number(rt, words, keeper.faults());
    let rows = keeper.rows(alloc).expect(rt, "the rows of a keeper");
    add_rows(rt, words, rows.as_slice());
}

fn expect_kept(rt: &impl Abort, alloc: Global, row: &str) {
    let (failing, rest) = cut(rt, row, '|');
    let (first, rest) = cut(rt, rest, '|');
    let (calls, want) = cut(rt, rest, '|');
    let failing = numbers(rt, alloc, failing);
    let mut keeper = MapKeeper::new(alloc, rows(rt, alloc, first), failing).expect(rt, row);
    let mut words = String::new(alloc);
    add_calls(rt, alloc, &mut words, &mut keeper, calls);
    add_kept(rt, alloc, &mut words, &keeper);
    expect_words(rt, &words, want, row);
}

#[test]
fn a_map_keeper_fails_by_the_numbers_of_its_calls(rt: HostRuntime) {
    for row in KEPT.split('\n') {
        expect_kept(&rt, rt.alloc(), row);
    }
}

/// Gives two bytes a call; the second call is interrupted, the third fails, the fifth is the end.
#[derive(Drop)]
struct Reader {
    calls: u8,
}

impl Read for Reader {
    fn read(&mut self, buf: &mut [u8]) -> io::Result<usize> {
        self.calls = self.calls.saturating_add(1);
        match self.calls {
            2 => Err(io::Error::from(ErrorKind::Interrupted)),
            3 => Err(io::Error::from(ErrorKind::UnexpectedEof)),
            5 => Ok(0),
            _ => {
                if buf.len() < 2 {
                    return Ok(0);
                }
                buf[0] = b'o';
                buf[1] = b'k';
                Ok(2)
            }
        }
    }
}

#[test]
fn a_reader_fails_in_mid_stream(rt: HostRuntime) {
    let mut source = InputSource::new(Reader { calls: 0 });
    let mut words = String::new(rt.alloc());
    for _ in 0..4 {
        add_read(&rt, &mut words, &mut source);
        add_number(&rt, &mut words, source.faults());
    }
    expect_words(&rt, &words, "ok 0 failed 1 ok 1 end 1", "reads and faults");
}

/// Takes two bytes a call into a buffer, and counts them when it is flushed; the second call is
/// interrupted, the fourth fails, and the fifth takes nothing.
#[derive(Drop)]
struct Writer<'a> {
    calls: u8,
    held: usize,
    flushed: &'a Cell<usize>,
}

impl Write for Writer<'_> {
    fn write(&mut self, buf: &[u8]) -> io::Result<usize> {
        self.calls = self.calls.saturating_add(1);
        match self.calls {
            2 => Err(io::Error::from(ErrorKind::Interrupted)),
            4 => Err(io::Error::from(ErrorKind::BrokenPipe)),
            5 => Ok(0),
            _ => {
                let n = buf.len().min(2);
                self.held = self.held.saturating_add(n);
                Ok(n)
            }
        }
    }

    fn flush(&mut self) -> io::Result<()> {
        self.flushed
            .set(self.flushed.get().saturating_add(self.held));
        self.held = 0;
        Ok(())
    }
}

#[test]
fn a_writer_fails_in_mid_stream(rt: HostRuntime) {
    let flushed = Cell::new(0);
    let mut sink = OutputSink::new(Writer {
        calls: 0,
        held: 0,
        flushed: &flushed,
    });
    let mut words = String::new(rt.alloc());
    for _ in 0..5 {
        add_write(&rt, &mut words, &mut sink, b"text");
        add_number(&rt, &mut words, flushed.get() as u64);
        add_number(&rt, &mut words, sink.faults());
    }
    let want = "2 2 0 2 4 0 failed 4 1 failed 4 2 2 6 2";
    expect_words(&rt, &words, want, "writes, bytes flushed, faults");
}

fn add_draws<S: Serials>(rt: &impl Abort, words: &mut String, serials: &mut S) {
    for _ in 0..3 {
        match serials.draw() {
            Ok(serial) => add_number(rt, words, serial),
            Err(spent) => {
                add_word(rt, words, "spent");
                add_number(rt, words, spent.seen);
            }
        }
    }
}

/// The serial number that comes next, and after a colon what three draws answer.
const SERIALS: &str = "0:0 1 2
9:9 10 11
4611686018427387902:4611686018427387902 4611686018427387903 spent 4611686018427387904
18446744073709551615:spent 18446744073709551615 spent 18446744073709551615 spent 18446744073709551615";

fn expect_serials(rt: &impl Abort, alloc: Global, row: &str) {
    let (next, want) = cut(rt, row, ':');
    let mut words = String::new(alloc);
    add_draws(rt, &mut words, &mut PlainSerials::new(number(rt, next)));
    expect_words(rt, &words, want, row);
}

#[test]
fn serials_are_counted_until_they_are_spent(rt: HostRuntime) {
    for row in SERIALS.split('\n') {
        expect_serials(&rt, rt.alloc(), row);
    }
}

fn add_moment<C: Clock>(rt: &impl Abort, words: &mut String, clock: &mut C) {
    add_number(rt, words, clock.now().0);
}

#[test]
fn a_clock_stands_until_it_is_set(rt: HostRuntime) {
    let mut words = String::new(rt.alloc());
    let mut clock = PlainClock::new(Moment(5));
    let first = clock.now();
    clock.set(Moment(5));
    let second = clock.now();
    clock.set(Moment(9));
    let third = clock.now();
    for moment in [first, second, third] {
        add_number(&rt, &mut words, moment.0);
    }
    add_moment(&rt, &mut words, &mut clock);
    expect_words(&rt, &words, "5 5 9 9", "moments");
}

/// Tells moments, the third of which it fails to tell.
#[derive(Drop)]
struct Readings {
    calls: Cell<usize>,
}

impl time::Clock for Readings {
    fn monotonic(&self) -> io::Result<Duration> {
        Ok(Duration::from_millis(1))
    }

    fn since_1970(&self) -> io::Result<Duration> {
        let calls = self.calls.get();
        self.calls.set(calls.saturating_add(1));
        match calls {
            0 => Ok(Duration::from_micros(7_999)),
            1 => Ok(Duration::from_millis(5)),
            2 => Err(io::Error::from(ErrorKind::Other)),
            3 => Ok(Duration::from_millis(8)),
            _ => Ok(Duration::from_secs(1 << 62)),
        }
    }
}

#[test]
fn a_system_clock_goes_back_and_fails(rt: HostRuntime) {
    let mut clock = SystemClock::new(Readings {
        calls: Cell::new(0),
    });
    let mut words = String::new(rt.alloc());
    for _ in 0..5 {
        add_moment(&rt, &mut words, &mut clock);
        add_number(&rt, &mut words, clock.faults());
    }
    let want = "7 0 7 0 7 1 8 1 4611686018427387903 1";
    expect_words(&rt, &words, want, "moments and faults");
}

/// Gives bytes that are all 1, but for the calls that fail.
#[derive(Drop)]
struct Ones {
    calls: Cell<usize>,
    failing: usize,
}

impl RandomSource for Ones {
    fn fill_bytes(&self, buf: &mut [u8]) -> io::Result<()> {
        let calls = self.calls.get();
        self.calls.set(calls.saturating_add(1));
        if calls == self.failing {
            return Err(io::Error::from(ErrorKind::Other));
        }
        buf.fill(1);
        Ok(())
    }
}

fn add_draw<R: Random>(rt: &impl Abort, words: &mut String, random: &mut R) {
    add_number(rt, words, random.word());
}

#[test]
fn words_are_counted_or_the_systems(rt: HostRuntime) {
    let mut words = String::new(rt.alloc());
    let mut counted = PlainRandom::new(u64::MAX);
    add_draw(&rt, &mut words, &mut counted);
    add_draw(&rt, &mut words, &mut counted);
    for failing in 0..3 {
        match SystemRandom::new(Ones {
            calls: Cell::new(0),
            failing,
        }) {
            Ok(mut random) => {
                add_draw(&rt, &mut words, &mut random);
                add_number(&rt, &mut words, random.faults());
            }
            Err(Failed) => add_word(&rt, &mut words, "failed"),
        }
    }
    let want = "18446744073709551615 0 failed 8272389604347480059 1 72340172838076673 0";
    expect_words(&rt, &words, want, "words and faults");
}
