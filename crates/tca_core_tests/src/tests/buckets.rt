//! Intervals and buckets, by numbers that were found by hand.
use std::test::*;
use tca_buckets::{Bucket, fill_spilling, ticks};

#[test]
fn a_token_comes_at_the_first_millisecond_that_has_it(rt: HostRuntime) {
    for (rate, from, to, want) in [
        (3, 0, 333, 0),
        (3, 0, 334, 1),
        (3, 0, 666, 1),
        (3, 0, 667, 2),
        (3, 0, 1000, 3),
        (3, 334, 667, 1),
        (0, 0, 281_474_976_710_655, 0),
        (1000, 0, 1_700_000_000_000, 1_700_000_000_000),
        (1001, 999, 1000, 2),
        (
            1_000_000_000_000,
            0,
            281_474_976_710_655,
            281_474_976_710_655_000_000_000,
        ),
    ] {
        assert!(rt; rate <= 1_000_000_000_000 && from <= to && to < 1 << 48);
        assert!(rt; ticks(rate, from, to) == want);
    }
}

#[test]
fn a_bucket_is_filled_and_spent(rt: HostRuntime) {
    assert!(rt; Bucket::new(4, 3) == None);
    let Some(mut bucket) = Bucket::new(2, 10) else {
        panic!(rt; "within its size");
    };
    bucket.fill(3);
    assert!(rt; (bucket.level(), bucket.cap()) == (5, 10));
    assert!(rt; (bucket.fits(5, true), bucket.fits(6, true)) == (true, false));
    assert!(rt; (bucket.fits(4, false), bucket.fits(5, false)) == (true, false));
    assert!(rt; bucket.fits(5, true));
    bucket.spend(5);
    assert!(rt; bucket.level() == 0);
    bucket.fill(u128::MAX);
    assert!(rt; bucket == Bucket::full(10));
}

#[test]
fn a_full_bucket_passes_tokens_on(rt: HostRuntime) {
    let Some(mut first) = Bucket::new(500, 2000) else {
        panic!(rt; "within its size");
    };
    let Some(mut second) = Bucket::new(10, 1000) else {
        panic!(rt; "within its size");
    };
    fill_spilling(&mut first, &mut second, 1600);
    assert!(rt; (first.level(), second.level()) == (2000, 110));
    fill_spilling(&mut first, &mut second, 2000);
    assert!(rt; (first, second) == (Bucket::full(2000), Bucket::full(1000)));
}
