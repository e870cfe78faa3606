use crate::shown::Shown;
use crate::step::Step;
use crate::watcher::Watcher;
use std::alloc::Global;
use std::io::Write;
use std::sync::Mutex;
use std::time::{Clock, Instant};

/// A line of a stream that shows how far long work has come. What is told while a text is written, or less than a tenth of a
/// second after one, is not written. A clock or a stream that fails is as if nobody watched.
#[derive(Drop)]
pub struct Line<'a, C, W> {
    clock: &'a C,
    shown: Mutex<Shown<W>>,
}

impl<'a, C: Clock, W: Write + Drop> Line<'a, C, W> {
    /// A line that is begun a tenth of a second from now on: work that is done before shows nothing. There is none where the
    /// clock cannot be read.
    pub fn new(clock: &'a C, alloc: Global, to: W) -> Option<Line<'a, C, W>> {
        let now = Instant::now(clock).ok()?;
        Some(Line {
            clock,
            shown: Mutex::new(Shown::new(alloc, to, now)?),
        })
    }

    /// Ends the line, if it was begun, with what was told last and a line feed.
    pub fn end(self) {
        let Line { clock: _, shown } = self;
        let _ = shown.into_inner().end();
    }
}

impl<C: Clock, W: Write + Drop> Watcher for Line<'_, C, W> {
    fn sees(&self, step: Step) {
        let Ok(now) = Instant::now(self.clock) else {
            return;
        };
        if let Some(mut shown) = self.shown.try_lock() {
            let _ = shown.tell(now, step);
        }
    }
}
