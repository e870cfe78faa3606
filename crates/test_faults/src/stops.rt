//! A stop after each number of the writes of a trial.
use crate::plain::Plain;
use crate::running::kept;
use crate::tally::Tally;
use anyhow::Result;
use device::MemDevice;
use recording::Recording;
use std::io::Eprint;
use std::thread::Threads;
use test_trials::fault_of;

/// Looks at what a stop leaves after each number of writes, from none on: it has to be mounted, to obey the rules, not to be
/// damaged, and to be clean once it is mended.
pub fn stop_each<R: Threads + Eprint + Sync + AllocGlobal>(
    rt: &R,
    name: (&str, &str),
    plain: &Plain<Recording<MemDevice>>,
) -> Result<Tally> {
    let mut tally = Tally::new();
    let mut held = plain.image.image_after(rt.alloc(), 0)?;
    look_at(rt, name, &held, &mut tally)?;
    for written in kept(&plain.volume).writes() {
        written.repeat_on(&mut held)?;
        look_at(rt, name, &held, &mut tally)?;
    }
    Ok(tally)
}

/// Looks at what a device holds.
fn look_at<R: Threads + Eprint + Sync + AllocGlobal>(
    rt: &R,
    name: (&str, &str),
    held: &MemDevice,
    tally: &mut Tally,
) -> Result<()> {
    let writes = held.writes();
    let fault = fault_of(rt, rt.alloc(), held.image_after(rt.alloc(), writes)?)?;
    tally.count(fault.is_some());
    if let Some(fault) = fault {
        let (name, behind) = name;
        eprintln!(rt; "{name}{behind}: a stop after {writes} writes leaves {fault:?}")?;
    }
    Ok(())
}
