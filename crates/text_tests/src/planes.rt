//! Planes of bits at each length: words are put together by fours and one by one, and letters are
//! matched by 64 and one by one.

use lane_planes::{and_into, any_bit, equal_into, first_bit, matching, not_into, or_into};
use std::process::Abort;
use std::test::Fail;

/// Each word of a plane is this one.
fn is_all(rt: &impl Abort, plane: &[u64], expected: u64) {
    for word in plane {
        assert_eq!(rt; *word, expected);
    }
}

#[test]
fn planes_of_each_length_up_to_nine_words_are_put_together(rt: HostRuntime) -> Result<(), Fail> {
    let alloc = rt.alloc();
    for words in 0..10 {
        let mut out: Vec<u64> = vec![in alloc; 12; words]?;
        let other: Vec<u64> = vec![in alloc; 10; words]?;
        and_into(&mut out, &other);
        is_all(&rt, &out, 8);
        or_into(&mut out, &other);
        is_all(&rt, &out, 10);
        equal_into(&mut out, &other);
        is_all(&rt, &out, u64::MAX);
        not_into(&mut out);
        assert!(rt; !any_bit(&out));
    }
    Ok(())
}

#[test]
fn the_last_of_so_many_letters_matches(rt: HostRuntime) -> Result<(), Fail> {
    let alloc = rt.alloc();
    for length in 0..131 {
        let mut letters: Vec<u64> = vec![in alloc; 5; length]?;
        let mut out: Vec<u64> = vec![in alloc; 1; (letters.len() + 63) / 64]?;
        if let Some(last) = letters.last_mut() {
            *last = 7;
        }
        matching(&letters, 3, 3, &mut out);
        let expected = if length == 0 {
            None
        } else {
            Some(length as u64 - 1)
        };
        assert_eq!(rt; first_bit(&out), expected);
        assert_eq!(rt; any_bit(&out), length != 0);
    }
    Ok(())
}
