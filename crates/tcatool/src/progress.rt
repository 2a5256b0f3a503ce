//! How far a long command is, told on standard error.

use std::io;
use std::rt::Clock;
use std::time::{Duration, Instant};
use tca_report::Write;

// Octets of a mebibyte.
const MEBIBYTE: u64 = 1_048_576;

// The most octets that a watched writer takes at once: a longer write would be told of at its end alone.
const PIECE: usize = 1_048_576;

/// Hears how much is done.
pub trait Watch {
    /// So many octets there are in all.
    fn expect(&mut self, octets: u64);

    /// So many octets are done.
    fn done(&mut self, octets: u64);
}

/// Tells nothing.
#[derive(Drop)]
pub(crate) struct Silent;

impl Watch for Silent {
    fn expect(&mut self, _octets: u64) {}

    fn done(&mut self, _octets: u64) {}
}

/// Tells at most once a second how many MiB of all are done, first after a second. What can't be timed or written is left out.
#[derive(Drop)]
pub(crate) struct Progress<'r, R, V> {
    rt: &'r R,
    errors: &'r mut V,
    command: &'static str,
    all: u64,
    told: Option<Instant>,
}

impl<'r, R: Clock, V: io::Write> Progress<'r, R, V> {
    /// Of a command that starts now, with so many octets in all, or 0 where it learns that on its way.
    pub(crate) fn new(
        rt: &'r R,
        errors: &'r mut V,
        command: &'static str,
        all: u64,
    ) -> Progress<'r, R, V> {
        Progress {
            rt,
            errors,
            command,
            all,
            told: Instant::now(rt).ok(),
        }
    }

    // Whether a second has gone since it was told last.
    fn is_due(&self, now: Instant) -> bool {
        match self.told {
            None => true,
            Some(told) => match now.checked_duration_since(told) {
                Some(gone) => gone >= Duration::from_secs(1),
                None => false,
            },
        }
    }
}

impl<'r, R, V: io::Write> Progress<'r, R, V> {
    // Prints how many MiB of all are done.
    fn tell(&mut self, done: u64) {
        let command = self.command;
        let all = self.all / MEBIBYTE;
        let _unwritten = write!(self.errors, "tcatool: {command}: {done} of {all} MiB\n");
    }
}

impl<'r, R: Clock, V: io::Write> Watch for Progress<'r, R, V> {
    fn expect(&mut self, octets: u64) {
        self.all = octets;
    }

    fn done(&mut self, octets: u64) {
        let Ok(now) = Instant::now(self.rt) else {
            return;
        };
        if self.is_due(now) {
            self.tell(octets / MEBIBYTE);
            self.told = Some(now);
        }
    }
}

/// A writer that takes a piece at most at once, and tells how many octets it has taken, of those and what it is asked to write besides.
#[derive(Drop)]
pub(crate) struct WatchedWriter<'w, D, T> {
    writer: D,
    taken: u64,
    watch: &'w mut T,
}

impl<'w, D, T> WatchedWriter<'w, D, T> {
    /// The writer, of which no octet is counted yet.
    pub(crate) fn new(writer: D, watch: &'w mut T) -> WatchedWriter<'w, D, T> {
        WatchedWriter {
            writer,
            taken: 0,
            watch,
        }
    }
}

impl<'w, D: Write, T: Watch> Write for WatchedWriter<'w, D, T> {
    ghost written = { λ w. D.written w.writer };

    ghost failures = { λ w. D.failures w.writer };

    fn write(&mut self, octets: &[u8]) -> io::Result<usize> {
        self.watch
            .expect(self.taken.saturating_add(octets.len() as u64));
        let piece = &octets[..octets.len().min(PIECE)];
        match self.writer.write(piece) {
            Ok(n) => {
                self.taken = self.taken.saturating_add(n as u64);
                self.watch.done(self.taken);
                Ok(n)
            }
            Err(error) => Err(error),
        }
    }
}
