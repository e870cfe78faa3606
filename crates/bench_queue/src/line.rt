//! What the words of a line ask for.
use crate::files::Spread;
use anyhow::{Context, Result, bail};

/// What is measured.
#[derive(Clone, Copy, PartialEq, Eq)]
pub enum Mode {
    /// The updates are issued.
    Issue,
    /// The contents of the same updates are kept, and nothing else: what `issue` is compared with for its memory.
    Hold,
    /// They are issued and synced.
    Sync,
    /// They are issued, and then block after block is flushed in the order of the addresses, until nothing is pending.
    Upward,
    /// The same in the reverse order.
    Downward,
    /// The blocks that a sync writes are written, each as often as the sync does and in its order.
    Again,
    /// The blocks that a sync writes are written once each, in the order of the addresses.
    Once,
    /// The updates are issued, and blocks are flushed all along, so that there is always something pending.
    Steady,
}

/// What a line asks for.
#[derive(Clone, Copy, PartialEq, Eq)]
pub struct Line {
    pub mode: Mode,
    /// How many updates.
    pub updates: usize,
    pub spread: Spread,
}

/// Reads the words of a line, the program's name first.
pub fn parse(words: &[String]) -> Result<Line> {
    let [_, mode, updates, spread] = words else {
        bail!("the words are MODE UPDATES SPREAD");
    };
    Ok(Line {
        mode: mode_of(mode.as_str()).context("no such mode")?,
        updates: updates.as_str().parse::<u32>()? as usize,
        spread: Spread::of_name(spread.as_str()).context("the spread is few, medium or many")?,
    })
}

/// The mode of this name.
fn mode_of(name: &str) -> Option<Mode> {
    match name {
        "issue" => Some(Mode::Issue),
        "hold" => Some(Mode::Hold),
        "sync" => Some(Mode::Sync),
        "upward" => Some(Mode::Upward),
        "downward" => Some(Mode::Downward),
        "again" => Some(Mode::Again),
        "once" => Some(Mode::Once),
        "steady" => Some(Mode::Steady),
        _ => None,
    }
}
