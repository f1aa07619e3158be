//! Tests of the words.

use crash_base::GroupNo;
use shared_words::Words;

#[test]
fn words_answer(rt: HostRuntime) {
    let (words, mut seat) = Words::new(rt.alloc(), 4, 2).expect(&rt, "words");
    let mut other = words.split(&mut seat, 1);
    assert_eq!(rt; words.draw(&mut seat), Ok(0));
    assert_eq!(rt; words.draw(&mut other), Ok(1));
    assert_eq!(rt; words.draw(&mut seat), Ok(2));
    words.raise(&mut seat, GroupNo(3), 7);
    assert_eq!(rt; words.look(&mut other, GroupNo(3)), 7);
    words.raise(&mut other, GroupNo(3), 5);
    assert_eq!(rt; words.look(&mut seat, GroupNo(3)), 7);
    assert_eq!(rt; words.look(&mut seat, GroupNo(2)), 0);
    words.join(&mut seat, other);
    assert_eq!(rt; words.draw(&mut seat), Ok(3));
}
