use crate::expect::same;
use frozen::{Frozen, load};
use layout::{Refusal, SINGLE};
use snapshot::Volume;
use std::alloc::Global;
use std::thread::Threads;
use test_trials::{Fault, Files, Stays, Trial, beginning_of, look_at, mount};

/// A fresh volume.
const FRESH: Trial = Trial {
    name: "fresh",
    versions: &[SINGLE],
    numbers: [1, 16, 16],
    puts: &[],
    before: &[],
    lines: &[],
};

/// One with a file.
const WITH_A_FILE: Trial = Trial {
    before: &["create /a"],
    ..FRESH
};

/// One with a file of three bytes.
const WITH_BYTES: Trial = Trial {
    before: &["create /a", "open /a", "write 0 0 abc"],
    ..FRESH
};

/// The same with one of these bytes otherwise.
const WITH_OTHER_BYTES: Trial = Trial {
    before: &["create /a", "open /a", "write 0 0 abd"],
    ..FRESH
};

/// The metadata of the image with which a trial begins.
fn view_of(rt: &(impl Threads + Sync), alloc: Global, trial: &Trial) -> Result<Frozen, Refusal> {
    let mut image = beginning_of(rt, alloc, trial, SINGLE)?;
    load(alloc, &mut image)
}

/// What users see of files of the volume with which a trial begins.
fn files_of(rt: &(impl Threads + Sync), alloc: Global, trial: &Trial) -> Result<Files, Refusal> {
    let image = beginning_of(rt, alloc, trial, SINGLE)?;
    Files::of(alloc, &mut Volume::new(mount(alloc, image)?))
}

/// What is wrong with the image with which a trial begins, where this stays.
fn told(
    rt: &(impl Threads + Sync),
    alloc: Global,
    trial: &Trial,
    stays: &Stays,
) -> Result<Option<Fault>, Refusal> {
    let image = beginning_of(rt, alloc, trial, SINGLE)?;
    Ok(look_at(rt, alloc, image, stays)?.fault)
}

#[test]
fn what_is_synced_and_not_there_is_told(rt: HostRuntime) -> Result<(), Refusal> {
    let alloc = rt.alloc();
    let view = view_of(&rt, alloc, &WITH_A_FILE)?;
    let mut stays = Stays::of(alloc, &view, Files::none(alloc))?;
    same(
        &rt,
        "it is there",
        told(&rt, alloc, &WITH_A_FILE, &stays)?,
        None,
    );
    same(
        &rt,
        "it is lost",
        told(&rt, alloc, &FRESH, &stays)?,
        Some(Fault::LosesSynced),
    );
    // Once users see it no more, it may be lost.
    stays.leave_out(alloc, &view_of(&rt, alloc, &FRESH)?, &Files::none(alloc))?;
    same(
        &rt,
        "it may be lost",
        told(&rt, alloc, &FRESH, &stays)?,
        None,
    );
    Ok(())
}

#[test]
fn bytes_that_are_synced_and_not_there_are_told(rt: HostRuntime) -> Result<(), Refusal> {
    let alloc = rt.alloc();
    let view = view_of(&rt, alloc, &WITH_BYTES)?;
    let mut stays = Stays::of(alloc, &view, files_of(&rt, alloc, &WITH_BYTES)?)?;
    same(&rt, "its bytes", stays.files().count(), (1, 3));
    same(
        &rt,
        "they are there",
        told(&rt, alloc, &WITH_BYTES, &stays)?,
        None,
    );
    same(
        &rt,
        "they are lost",
        told(&rt, alloc, &WITH_OTHER_BYTES, &stays)?,
        Some(Fault::LosesSynced),
    );
    // Once users see others, these may be lost.
    stays.leave_out(alloc, &view, &files_of(&rt, alloc, &WITH_OTHER_BYTES)?)?;
    same(
        &rt,
        "they may be lost",
        told(&rt, alloc, &WITH_OTHER_BYTES, &stays)?,
        None,
    );
    Ok(())
}
