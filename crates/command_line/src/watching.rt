//! Who watches a line while it is carried out.
use progress::{Line, Step, Watcher};
use std::alloc::Global;
use std::io::Write;
use std::time::Clock;
use workers::Gate;

/// The stream on which a line shows how far it has come: standard error, apart from what is told there at the end.
#[derive(Drop)]
pub struct Screen<P> {
    pub to: P,
    /// Whether it is a terminal. There each line shows how far it has come, also where its words do not ask for that.
    pub is_terminal: bool,
}

impl<P: Write + Drop> Screen<P> {
    /// The line that shows how far the work has come, if the words ask for it or the stream is a terminal.
    pub fn line<C: Clock>(self, clock: &C, alloc: Global, asked: bool) -> Option<Line<'_, C, P>> {
        let Screen { to, is_terminal } = self;
        if asked || is_terminal {
            Line::new(clock, alloc, to)
        } else {
            None
        }
    }
}

/// A gate that holds nobody, and tells a watcher who passes.
#[derive(Drop)]
pub struct Watched<'a, T> {
    pub watcher: &'a T,
}

impl<T: Watcher + Sync> Gate for Watched<'_, T> {
    fn pass(&self, phase: u8, unit: u32) {
        self.watcher.sees(Step::Group { phase, group: unit });
    }
}
