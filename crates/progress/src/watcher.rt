use crate::step::Step;

/// One who watches long work. Several workers may tell one that is `Sync` at once.
pub trait Watcher {
    /// Is told how far the work has come. It holds no worker, and nothing comes of it.
    fn sees(&self, step: Step);
}

/// Where there is none, nobody watches.
impl<T: Watcher> Watcher for Option<T> {
    fn sees(&self, step: Step) {
        if let Some(watcher) = self {
            watcher.sees(step);
        }
    }
}
