//! A gate by which two jobs wait for each other, and the wait that all gates of the tests use. Each wait has a limit, so that the tests
//! end where it is not so.
use std::sync::atomic::{AtomicU64, Ordering};
use std::thread;
use std::time::{Clock, Duration};
use tca_ingest::Gate;

// Waits until a count comes to this, for at most 10,000 turns of a millisecond. Whether it came.
pub(super) fn reaches<R: Clock>(rt: &R, count: &AtomicU64, least: u64) -> bool {
    for _ in 0..10_000 {
        if count.load(Ordering::SeqCst) >= least {
            return true;
        }
        thread::sleep(rt, Duration::from_millis(1));
    }
    false
}

// The first job waits for the second, and the second for the first.
#[derive(Drop)]
pub(super) struct Meeting<'a, R: Clock> {
    rt: &'a R,
    first: AtomicU64,
    second: AtomicU64,
    // how many of the two saw the other
    met: AtomicU64,
}

impl<'a, R: Clock> Meeting<'a, R> {
    pub(super) fn new(rt: &'a R) -> Meeting<'a, R> {
        Meeting {
            rt,
            first: AtomicU64::new(0),
            second: AtomicU64::new(0),
            met: AtomicU64::new(0),
        }
    }

    // Whether each of the two saw the other.
    pub(super) fn came_about(&self) -> bool {
        self.met.load(Ordering::SeqCst) == 2
    }
}

impl<'a, R: Clock + Sync> Gate for Meeting<'a, R> {
    fn before(&self, job: u32) {
        let (mine, theirs) = match job {
            0 => (&self.first, &self.second),
            1 => (&self.second, &self.first),
            _ => return,
        };
        mine.store(1, Ordering::SeqCst);
        if reaches(self.rt, theirs, 1) {
            self.met.fetch_add(1, Ordering::SeqCst);
        }
    }

    fn inside(&self, _job: u32) {}

    fn after(&self, _job: u32) {}
}
