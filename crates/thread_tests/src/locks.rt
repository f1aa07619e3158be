//! Tests of the lock.

use crate::hands::{DRAWS, HOLDS, Shared, eight};

#[test]
fn two_seats_note_and_the_history_has_both(rt: HostRuntime) {
    let (shared, mut hand) = Shared::new(rt.alloc(), 2).expect(&rt, "a lock and words");
    let mut other = shared.split(rt.alloc(), &mut hand, 1);
    shared.hold(&rt, &mut hand, 1);
    shared.hold(&rt, &mut other, 2);
    shared.join(&mut hand, other);
    let (notes, _) = shared.close(hand);
    assert_eq!(rt; notes.count(), 2);
    assert_eq!(rt; notes.as_slice(), [1, 2].as_slice());
}

#[test]
fn eight_threads_hold_and_draw(rt: HostRuntime) {
    let (shared, hand) = Shared::new(rt.alloc(), 8).expect(&rt, "a lock and words");
    let hand = eight(&rt, rt.alloc(), &shared, hand);
    let (notes, mut numbers) = shared.close(hand);
    assert_eq!(rt; notes.count(), 8 * HOLDS as u64);
    for who in 0..8 {
        assert_eq!(rt; notes.times(who), HOLDS as usize);
    }
    numbers.sort().expect(&rt, "room to sort");
    assert_eq!(rt; numbers.len(), 8 * DRAWS as usize);
    for (index, number) in numbers.iter().enumerate() {
        assert_eq!(rt; *number, index as u64);
    }
}
