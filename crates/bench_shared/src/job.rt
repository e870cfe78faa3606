//! What the words of the line ask for, and the volume of an image.
ghost use Rattle.std.specs.Prelude.{◌≤◌};

use anyhow::{Result, bail};
use device::MemDevice;
use layout::Refusal;
use snapshot::{Live, NotMounted, Volume};
use std::alloc::Global;
use std::fs;
use std::rt::Files;
use workers::Workers;

/// How many users' threads there may be.
const MOST_USERS: u32 = 61;

/// What runs on a volume.
#[derive(Clone, Copy)]
pub struct Load {
    /// Whether the volume is checked beside the users.
    pub beside: bool,
    /// How many users there are: 1 to 61.
    pub users: u32,
    /// How many rounds each carries out.
    pub rounds: u32,
    /// How many workers check.
    pub workers: Workers,
    ghost few: { users ≤ 61 },
}

/// What the line asks for.
#[derive(Clone, Copy)]
pub struct Job<'a> {
    pub image: &'a str,
    pub load: Load,
}

/// Reads the words of a line, the program's name first.
pub fn parse(words: &[String]) -> Result<Job<'_>> {
    let [_, mode, image, users, rounds, workers] = words else {
        bail!("the words are MODE IMAGE USERS ROUNDS WORKERS");
    };
    let beside = match mode.as_str() {
        "alone" => false,
        "beside" => true,
        _ => bail!("no such mode"),
    };
    let users = users.as_str().parse()?;
    if users > MOST_USERS {
        bail!("too many users");
    }
    Ok(Job {
        image: image.as_str(),
        load: Load {
            beside,
            users,
            rounds: rounds.as_str().parse()?,
            workers: Workers::new(workers.as_str().parse()?)?,
        },
    })
}

/// Mounts the volume of an image, on a device in memory.
pub fn mounted(rt: &(impl Files + AllocGlobal), image: &str) -> Result<Volume<MemDevice>> {
    let bytes = fs::read(rt, image)?;
    Ok(mounted_of(rt.alloc(), bytes.as_slice())?)
}

/// Mounts the volume of an image's bytes.
fn mounted_of(alloc: Global, bytes: &[u8]) -> Result<Volume<MemDevice>, Refusal> {
    match Live::mount(alloc, MemDevice::from_bytes(alloc, bytes)?) {
        Ok(live) => Ok(Volume::new(live)),
        Err(NotMounted { device: _, cause }) => Err(cause),
    }
}
