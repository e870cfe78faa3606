//! The updates made and issued, how long that takes, and what they are.
use crate::command::{Command, home_of};
use crate::files::{Lives, Spread};
use anyhow::Result;
use layout::{Block, Geometry, Refusal};
use softdep::{Change, Queue, Update};
use std::alloc::Global;
use std::sync::Arc;
use std::time::{Clock, Duration, Instant};

/// What was issued.
#[derive(Drop)]
pub struct Issued {
    geometry: Geometry,
    /// How many updates.
    pub updates: usize,
    /// How many of them are the bytes of a whole block.
    pub contents: usize,
    /// For each address whether a cell of them stands there.
    pub homes: Vec<bool>,
    /// How long it took.
    pub time: Duration,
}

impl Issued {
    /// Nothing.
    pub fn new(alloc: Global, geometry: Geometry) -> Result<Issued, Refusal> {
        Ok(Issued {
            geometry,
            updates: 0,
            contents: 0,
            homes: vec![in alloc; false; geometry.blocks() as usize]?,
            time: Duration::ZERO,
        })
    }

    /// In how many blocks their cells stand.
    pub fn blocks(&self) -> usize {
        self.homes.iter().filter(|home| **home).count()
    }

    /// Counts the updates of a command.
    fn count(&mut self, command: &Command) {
        for update in command.updates() {
            self.updates = self.updates.saturating_add(1);
            if matches!(&update.change, Change::SetBytes(_, _)) {
                self.contents = self.contents.saturating_add(1);
            }
            if let Some(home) = home_of(&self.geometry, update)
                && let Some(seen) = self.homes.get_mut(home as usize)
            {
                *seen = true;
            }
        }
    }

    /// Counts the updates of these commands.
    fn count_all(&mut self, commands: &[Command]) {
        for command in commands {
            self.count(command);
        }
    }
}

/// Issues so many updates, or few more.
pub fn issue(
    clock: &impl Clock,
    alloc: Global,
    queue: &mut Queue,
    spread: Spread,
    updates: usize,
) -> Result<Issued> {
    let mut lives = Lives::new(spread)?;
    let mut issued = Issued::new(alloc, lives.geometry())?;
    for _ in 0..updates {
        if issued.updates >= updates {
            break;
        }
        issue_life(clock, alloc, queue, &mut lives, &mut issued)?;
    }
    Ok(issued)
}

/// Issues the updates of the next file's life.
pub fn issue_life(
    clock: &impl Clock,
    alloc: Global,
    queue: &mut Queue,
    lives: &mut Lives,
    issued: &mut Issued,
) -> Result<()> {
    let commands = lives.next(alloc)?;
    issued.count_all(commands.as_slice());
    let start = Instant::now(clock)?;
    issue_all(queue, commands)?;
    issued.time = issued.time.saturating_add(start.elapsed(clock)?);
    Ok(())
}

/// Issues these commands.
fn issue_all(queue: &mut Queue, commands: Vec<Command>) -> Result<(), Refusal> {
    for command in commands {
        command.issue(queue)?;
    }
    Ok(())
}

/// Makes the updates that `issue` issues, and keeps their contents and nothing else.
pub fn hold(alloc: Global, spread: Spread, updates: usize) -> Result<Issued> {
    let mut lives = Lives::new(spread)?;
    let mut issued = Issued::new(alloc, lives.geometry())?;
    let mut held = Vec::new(alloc);
    for _ in 0..updates {
        if issued.updates >= updates {
            break;
        }
        let commands = lives.next(alloc)?;
        issued.count_all(commands.as_slice());
        hold_all(&mut held, commands)?;
    }
    Ok(issued)
}

/// Keeps the contents of these commands.
fn hold_all(held: &mut Vec<Arc<Block>>, commands: Vec<Command>) -> Result<(), Refusal> {
    for command in commands {
        for update in command.into_updates() {
            let Update { change, .. } = update;
            if let Change::SetBytes(_, bytes) = change {
                held.push(bytes)?;
            }
        }
    }
    Ok(())
}
