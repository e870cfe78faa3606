use crate::expect::{holds, same};
use progress::{Line, Step, Tally, Watcher};
use std::alloc::Global;
use std::io::Write;
use std::sync::atomic::{AtomicU64, Ordering};
use std::thread::Threads;
use std::time::{Clock, Duration};
use std::{io, thread};

/// A clock that goes on by so many milliseconds at each reading, from 0 on. One that goes on by 0 cannot be read.
#[derive(Drop)]
struct Ticking {
    now: AtomicU64,
    step: u64,
}

impl Clock for Ticking {
    fn monotonic(&self) -> io::Result<Duration> {
        if self.step == 0 {
            return Err(io::Error::from(io::ErrorKind::Other));
        }
        Ok(Duration::from_millis(self.now.fetch_add(self.step, Ordering::SeqCst)))
    }

    fn since_1970(&self) -> io::Result<Duration> {
        self.monotonic()
    }
}

fn clock_by(step: u64) -> Ticking {
    Ticking {
        now: AtomicU64::new(0),
        step,
    }
}

/// A writer that takes so many bytes, and then fails.
#[derive(Drop)]
struct Failing(usize);

impl Write for Failing {
    fn write(&mut self, buf: &[u8]) -> io::Result<usize> {
        let taken = buf.len().min(self.0);
        if taken == 0 {
            return Err(io::Error::from(io::ErrorKind::StorageFull));
        }
        self.0 -= taken;
        Ok(taken)
    }

    fn flush(&mut self) -> io::Result<()> {
        Ok(())
    }
}

fn moved(files: u64, bytes: u64) -> Step {
    Step::Moved(Tally { files, bytes })
}

fn at_group(phase: u8, group: u32) -> Step {
    Step::Group { phase, group }
}

/// Tells a line these steps, and ends it.
fn tell_all<W: Write + Drop>(line: Option<Line<'_, Ticking, W>>, told: &[Step]) {
    for step in told {
        line.sees(*step);
    }
    if let Some(line) = line {
        line.end();
    }
}

/// What a line shows that is told these steps, by a clock that goes on by so many milliseconds from one to the next.
fn shown(alloc: Global, millis: u64, told: &[Step]) -> Vec<u8> {
    let clock = clock_by(millis);
    let mut text = Vec::new(alloc);
    tell_all(Line::new(&clock, alloc, &mut text), told);
    text
}

#[test]
fn a_text_stands_for_a_tenth_of_a_second(rt: HostRuntime) {
    let told = [
        at_group(1, 0),
        at_group(1, 1),
        at_group(2, 0),
        at_group(2, 1),
        at_group(3, 0),
        at_group(3, 1),
    ];
    let wanted = b"\rphase 2 group 0\rphase 3 group 1\rphase 3 group 1\n".as_slice();
    same(
        &rt,
        "six steps",
        shown(rt.alloc(), 40, told.as_slice()).as_slice(),
        wanted,
    );
}

#[test]
fn short_work_shows_nothing(rt: HostRuntime) {
    let told = [moved(1, 9), moved(2, 12)];
    holds(
        &rt,
        "two steps",
        shown(rt.alloc(), 49, told.as_slice()).is_empty(),
    );
    holds(
        &rt,
        "no step",
        shown(rt.alloc(), 100, [].as_slice()).is_empty(),
    );
}

#[test]
fn blanks_cover_what_was_longer(rt: HostRuntime) {
    let told = [moved(10, 4_096), at_group(1, 2)];
    let wanted = b"\rfiles 10 bytes 4096\rphase 1 group 2    \rphase 1 group 2\n".as_slice();
    same(
        &rt,
        "two texts",
        shown(rt.alloc(), 100, told.as_slice()).as_slice(),
        wanted,
    );
}

#[test]
fn a_clock_or_a_stream_that_fails_changes_nothing(rt: HostRuntime) {
    holds(
        &rt,
        "no clock",
        shown(rt.alloc(), 0, [moved(1, 1)].as_slice()).is_empty(),
    );
    let clock = clock_by(100);
    for taken in 0..20 {
        let told = [moved(1, 1), moved(2, 2)];
        tell_all(
            Line::new(&clock, rt.alloc(), Failing(taken)),
            told.as_slice(),
        );
    }
}

/// Tells a hundred steps.
fn tell_hundred(watcher: &impl Watcher) {
    for files in 0..100 {
        watcher.sees(moved(files, 0));
    }
}

/// Tells a line a hundred steps by each of two workers, and ends it.
fn tell_by_two<W: Write + Send + Drop>(rt: &(impl Threads + Sync), line: Line<'_, Ticking, W>) {
    thread::join(rt, || tell_hundred(&line), || tell_hundred(&line));
    line.end();
}

#[test]
fn two_workers_tell_at_once(rt: HostRuntime) {
    let clock = clock_by(1);
    let mut text = Vec::new(rt.alloc());
    if let Some(line) = Line::new(&clock, rt.alloc(), &mut text) {
        tell_by_two(&rt, line);
    }
    let texts = text.iter().filter(|byte| **byte == b'\r').count();
    holds(&rt, "two workers", texts <= 3);
}
