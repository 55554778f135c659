//! A reader that tells how much it has read.
ghost use Rattle.std.specs.Prelude.{◌≡◌};

use std::io::{self, Eprint, Read};
use std::time::{Clock, Instant};

/// How many seconds it is silent.
const PAUSE: u64 = 1;

/// How many bytes are one MB, as it counts them.
const MEGABYTE: u64 = 1_000_000;

/// A reader that prints on standard error how many bytes it has read, and how many a second.
///
/// It reads what the reader in it reads. It prints when a read returns, at most once a second, and not within the first
/// one. So it is silent while it waits for input.
#[derive(Drop)]
pub struct Watched<T, R> {
    inner: T,
    rt: R,
    name: &'static str,
    /// When it began, and when it is to print next. `None`: it is silent.
    times: Option<(Instant, Instant)>,
    bytes: u64,
}

impl<T: Read, R: Clock + Eprint> Watched<T, R> {
    /// Returns a reader that prints under this name, or never if it is `quiet` or its clock fails.
    pub fn new(inner: T, rt: R, name: &'static str, quiet: bool) -> Watched<T, R>
        ensures { ⟦<Watched<T, R> as Read>⟧.remaining result ≡ T.remaining inner }
    {
        let times = match Instant::now(&rt) {
            Ok(now) if !quiet => Some((now, now)),
            _ => None,
        };
        Watched {
            inner,
            rt,
            name,
            times,
            bytes: 0,
        }
    }

    // Counts the bytes of a read, and prints if it is time to.
    fn count(&mut self, bytes: usize)
        ensures { self.new.inner ≡ self.old.inner }
    {
        self.bytes = self.bytes.saturating_add(bytes as u64);
        let Some((start, last)) = self.times else {
            return;
        };
        let Ok(now) = Instant::now(&self.rt) else {
            self.times = None;
            return;
        };
        if now.duration_since(last).as_secs() >= PAUSE {
            self.times = Some((start, now));
            self.print(now.duration_since(start).as_secs());
        }
    }

    // Prints how many bytes were read in so many seconds. An error of standard error is ignored.
    fn print(&self, seconds: u64) {
        let (name, read) = (self.name, self.bytes / MEGABYTE);
        let rate = if seconds > 0 { read / seconds } else { read };
        let _ = eprintln!(self.rt; "{name}: {read} MB read, {rate} MB/s");
    }
}

impl<T: Read, R: Clock + Eprint> Read for Watched<T, R> {
    ghost remaining = { λ w. T.remaining w.inner };

    fn read(&mut self, buf: &mut [u8]) -> io::Result<usize> {
        let count = self.inner.read(buf)?;
        self.count(count);
        Ok(count)
    }
}
