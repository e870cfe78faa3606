//! How far long work has come: what it tells whoever watches it, and a line of a stream that shows this, and is renewed at
//! most ten times a second.
#![tactic(auto)]

mod line;
mod shown;
mod step;
mod tally;
mod watcher;

pub use line::Line;
pub use step::Step;
pub use tally::Tally;
pub use watcher::Watcher;
