//! The system's clock, and one that is set by hand in its place.
use crate::system_clock::SystemClock;
use ig_store::Clock;
use std::cell::Cell;
use std::io;
use std::io::ErrorKind;
use std::test::Fail;
use std::time::{Clock as Source, Duration};

/// A clock that is set by hand; at 0 it can't be read.
#[derive(Drop)]
struct Hand<'a>(&'a Cell<u64>);

impl Source for Hand<'_> {
    fn monotonic(&self) -> io::Result<Duration> {
        Err(io::Error::from(ErrorKind::Unsupported))
    }

    fn since_1970(&self) -> io::Result<Duration> {
        match self.0.get() {
            0 => Err(io::Error::from(ErrorKind::Other)),
            seconds => Ok(Duration::from_secs(seconds)),
        }
    }
}

#[test]
fn tells_the_systems_time(rt: HostRuntime) -> Result<(), Fail> {
    let mut clock = SystemClock::new(rt.clone()?);
    let first = clock.now();
    let second = clock.now();
    assert!(rt; first > 1_700_000_000);
    assert!(rt; second >= first);
    Ok(())
}

#[test]
fn never_goes_back(rt: HostRuntime) {
    let hand = Cell::new(100);
    let mut clock = SystemClock::new(Hand(&hand));
    assert_eq!(rt; clock.now(), 100);
    hand.set(50);
    assert_eq!(rt; clock.now(), 100);
    hand.set(0);
    assert_eq!(rt; clock.now(), 100);
    hand.set(101);
    assert_eq!(rt; clock.now(), 101);
    hand.set(20_000_000_000);
    assert_eq!(rt; clock.now(), 9_999_999_999);
}
