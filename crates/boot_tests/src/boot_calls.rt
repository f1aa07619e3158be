//! What calls read and list, and which commits are refused for it.

ghost use Rattle.boot_core.specs.Boot.{HasGrown};
ghost use Rattle.boot_core.specs.Fits.{FitsIn};

use crate::boot_fixtures::boot_over_rows;
use crate::boot_steps::{add_marks, begin, call, commit, do_steps};
use crate::words::{cut, expect_words, number};
use boot_core::{Boot, Ticket, calls_go_on_fitting};
use std::alloc::Global;
use std::process::Abort;

/// Makes a call of its own where a text spells the number of its request and its steps.
fn call_other(rt: &impl Abort, alloc: Global, words: &mut String, boot: &mut Boot, text: &str)
    ensures { HasGrown boot.old boot.new }
{
    if let Some((serial, steps)) = text.split_once(':') {
        call(rt, alloc, words, boot, number(rt, serial), 5, steps);
    }
}

/// Makes another call while this one goes on.
fn call_meanwhile(
    rt: &impl Abort,
    alloc: Global,
    words: &mut String,
    boot: &mut Boot,
    ticket: &Ticket,
    text: &str,
)
    requires { FitsIn boot.old ticket.now.call }
    ensures { FitsIn boot.new ticket.now.call }
{
    calls_go_on_fitting();
    call_other(rt, alloc, words, boot, text);
}

/// Goes through a row: another call before this one, the first steps of this one, another call in
/// between, the rest of the steps, and after a bar what all of this answers. Between brackets is
/// what the call has read.
fn expect_call(rt: &impl Abort, alloc: Global, row: &str) {
    let (text, want) = cut(rt, row, '|');
    let (before, text) = cut(rt, text, ';');
    let (first, text) = cut(rt, text, ';');
    let (meanwhile, last) = cut(rt, text, ';');
    let mut boot = boot_over_rows(rt, alloc);
    let mut words = String::new(alloc);
    call_other(rt, alloc, &mut words, &mut boot, before);
    let mut ticket = begin(rt, alloc, &mut boot, 70, 4);
    do_steps(rt, alloc, &mut words, &mut boot, &mut ticket, first);
    call_meanwhile(rt, alloc, &mut words, &mut boot, &ticket, meanwhile);
    do_steps(rt, alloc, &mut words, &mut boot, &mut ticket, last);
    add_marks(rt, &mut words, ticket.marks());
    commit(rt, alloc, &mut words, &mut boot, ticket);
    drop(boot);
    expect_words(rt, &words, want, row);
}

/// A call reads its puts and the rows of its begin. Over the rows 3.7, 3.2 and 4.1.
///
/// A commit is refused for what was written since. The last words are the place, or what refuses the commit: where the
/// request has committed, or what was written since, with the length of the journal at the begin and after that commit.
///
/// A call has 64 marks: after these the row of a mark and an own put are read, and no other row and no table.
const CALLS: &str = ";e1 r3.7 r3.7 r3.9 r4.1;;|a a none z [ 3.7=a 3.9 4.1=z ] 0
;e1 l3 l3 l4;;|( 3.2=b 3.7=a ) ( 3.2=b 3.7=a ) ( 4.1=z ) [ t3 t4 ] 0
;e1 p3.7=x r3.7 p3.9=y r3.9;;|x y [ ] 0
;e1 r3.7 p3.7=x r3.7;;|a x [ 3.7=a ] 0
;e1 p3.5=x p3.2=y p4.9=w p3.1= l3;;|( 3.1= 3.2=y 3.5=x 3.7=a ) [ t3 ] 0
;e1 r3.7 p3.7= r3.7;;|a  [ 3.7=a ] 0
71:e1 p3.7=m p3.3=n;e1 r3.7 l3;;|0 m ( 3.2=b 3.3=n 3.7=m ) [ 3.7=m t3 ] 1
;e1;71:e1 p3.7=m p3.3=n;r3.7 r3.3 l3|0 a none ( 3.2=b 3.7=a ) [ 3.7=a 3.3 t3 ] 3.7 0<1
;e1 p3.4=x;71:e1 p3.7=m p3.3=n;l3 r3.4|0 ( 3.2=b 3.4=x 3.7=a ) x [ t3 ] t3 0<1
;e1 p3.7=x;70:e1 p3.8=y;|0 [ ] already 0
;e1 r3.7 p3.7=x;70:e1 p3.7=y;|a 0 [ 3.7=a ] already 0
70:e1 p3.8=y;e1;;|0 [ ] already 0
;e1 r3.7;71:e1 p3.7=y;|a 0 [ 3.7=a ] 3.7 0<1
;e1 r3.7;71:e1 p3.7=a;|a 0 [ 3.7=a ] 3.7 0<1
;e1 r3.9;71:e1 p3.9=y;|none 0 [ 3.9 ] 3.9 0<1
;e1 r3.7;71:e1 p3.8=y;|a 0 [ 3.7=a ] 1
;e1 r3.1;71:e1 p4.1=y;|none 0 [ 3.1 ] 1
;e1 l3;71:e1 p3.8=y;|( 3.2=b 3.7=a ) 0 [ t3 ] t3 0<1
;e1 l3;71:e1 p4.8=y;|( 3.2=b 3.7=a ) 0 [ t3 ] 1
;e1 p3.7=x;71:e1 p3.7=y;|0 [ ] 3.7 0<1
;e1 p3.9=x;71:e1 p3.9=y;|0 [ ] 3.9 0<1
;e1 p3.7=x;71:e1 r3.7 l3;|a ( 3.2=b 3.7=a ) 0 [ ] 1
;e1 p3.8=x l4 r3.7;71:e1 p3.7=y p3.8=y;|( 4.1=z ) a 0 [ t4 3.7=a ] 3.7 0<1
;e1 p3.8=x r3.2 l4;71:e1 p3.8=y p4.8=y;|b ( 4.1=z ) 0 [ 3.2=b t4 ] t4 0<1
;e1 l3 r3.7;71:e1 p3.7=y;|( 3.2=b 3.7=a ) a 0 [ t3 3.7=a ] t3 0<1
;e1 r3.7 l3;71:e1 p3.7=y;|a ( 3.2=b 3.7=a ) 0 [ 3.7=a t3 ] 3.7 0<1
;e1 p3.9=x p3.8=x;71:e1 p3.8=y p3.9=y;|0 [ ] 3.9 0<1
71:e1 p3.7=m p3.9=n;e1 r3.7 l3 p3.9=x;;|0 m ( 3.2=b 3.7=m 3.9=n ) [ 3.7=m t3 ] 1
71:e1 p3.7=m;e1 r3.7;72:e1 p3.7=n;|0 m 1 [ 3.7=m ] 3.7 1<2
;e1 l4 \
r3.100 r3.101 r3.102 r3.103 r3.104 r3.105 r3.106 r3.107 r3.108 r3.109 r3.110 r3.111 \
r3.112 r3.113 r3.114 r3.115 r3.116 r3.117 r3.118 r3.119 r3.120 r3.121 r3.122 r3.123 \
r3.124 r3.125 r3.126 r3.127 r3.128 r3.129 r3.130 r3.131 r3.132 r3.133 r3.134 r3.135 \
r3.136 r3.137 r3.138 r3.139 r3.140 r3.141 r3.142 r3.143 r3.144 r3.145 r3.146 r3.147 \
r3.148 r3.149 r3.150 r3.151 r3.152 r3.153 r3.154 r3.155 r3.156 r3.157 r3.158 r3.159 \
r3.160 r3.161 r3.162;;r3.163 r3.7 l3 p3.7=x r3.7 r3.100 r3.162 l4 r3.163|( 4.1=z ) \
none none none none none none none none none none none none none none none none none none none none none \
none none none none none none none none none none none none none none none none none none none none none \
none none none none none none none none none none none none none none none none none none none none none \
reads reads reads x none none ( 4.1=z ) reads [ t4 \
3.100 3.101 3.102 3.103 3.104 3.105 3.106 3.107 3.108 3.109 3.110 3.111 \
3.112 3.113 3.114 3.115 3.116 3.117 3.118 3.119 3.120 3.121 3.122 3.123 \
3.124 3.125 3.126 3.127 3.128 3.129 3.130 3.131 3.132 3.133 3.134 3.135 \
3.136 3.137 3.138 3.139 3.140 3.141 3.142 3.143 3.144 3.145 3.146 3.147 \
3.148 3.149 3.150 3.151 3.152 3.153 3.154 3.155 3.156 3.157 3.158 3.159 \
3.160 3.161 3.162 ] 0";

#[test]
fn calls_read_and_commit(rt: HostRuntime) {
    for row in CALLS.split('\n') {
        expect_call(&rt, rt.alloc(), row);
    }
}
