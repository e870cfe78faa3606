//! `test_losses LISTS SEED MOST KIND..` carries out so many random lists of commands of each kind on a device with a write cache, the
//! first from this seed and each further one from the next, and looks at what a loss of power may leave at each moment: all choices of
//! the writes since the device's last sync where they are at most `MOST`, or else so many. Nothing may be damaged, and what users saw
//! when the last sync was answered, and at each step since, has to be in each image. Without these words there are 500 lists from
//! seed 1, at most 64 choices, and the kind is `single`.
//!
//! - `single`: on a volume of version 1 of the layout, of two groups
//! - `double`: on one of version 2, with a file that each list makes longer than 268 blocks
//! - `fault`: as `single`, but of 16 writes and syncs of the device one is lost, which the looks have to find in some list
//!
//! It prints a line for each kind: how many lists and steps there were, how many of these were not refused, how many moments and images
//! there were, how many of these a check finds soft, how many names and bytes of files were looked for as synced, and how much was
//! wrong. Each list in which something was wrong stands on standard error: its seed, the first of what was wrong, and its lines, where
//! nothing was to be. The status is 1 where something was wrong that was not to be, or nothing that was. `bench/power_cuts` runs it.
#![tactic(auto)]

mod kinds;
mod random_lists;
mod total;

use anyhow::{Result, bail};
use device::MemDevice;
use kinds::{KINDS, Kind};
use random_lists::list_of;
use std::env;
use std::io::{Eprint, Print};
use std::process::ExitCode;
use std::thread::Threads;
use test_trials::{Fault, beginning_of, power_cuts_of_steps, steps_in};
use total::Total;

/// Which lists are tried: how many, from which seed on, and with how many choices at each moment.
#[derive(Clone, Copy)]
struct Asked {
    lists: u64,
    seed: u64,
    most: u32,
}

fn main(rt: HostRuntime) -> Result<ExitCode> {
    let words: Vec<String> = env::args(&rt)?.collect(rt.alloc())?;
    let asked = Asked {
        lists: number_or(words.as_slice(), 1, 500)?,
        seed: number_or(words.as_slice(), 2, 1)?,
        most: u32::try_from(number_or(words.as_slice(), 3, 64)?).unwrap_or(u32::MAX),
    };
    let is_right = match words.get(4..) {
        Some(names) if !names.is_empty() => try_kinds(&rt, asked, names)?,
        _ => try_kind(&rt, asked, "single")?,
    };
    Ok(ExitCode::from(if is_right { 0 } else { 1 }))
}

/// The number that the word of this place is, or this one where there are not so many words.
fn number_or(words: &[String], place: usize, default: u64) -> Result<u64> {
    match words.get(place) {
        Some(word) => Ok(word.as_str().parse()?),
        None => Ok(default),
    }
}

/// Tries lists of each kind of these names, and tells whether all came out as they have to.
fn try_kinds<R: Threads + Print + Eprint + Sync + AllocGlobal>(
    rt: &R,
    asked: Asked,
    names: &[String],
) -> Result<bool> {
    let mut is_right = true;
    for name in names {
        is_right &= try_kind(rt, asked, name.as_str())?;
    }
    Ok(is_right)
}

/// Tries lists of the kind of this name, prints its line, and tells whether they came out as they have to.
fn try_kind<R: Threads + Print + Eprint + Sync + AllocGlobal>(
    rt: &R,
    asked: Asked,
    name: &str,
) -> Result<bool> {
    let Some(kind) = KINDS.iter().find(|kind| kind.name == name) else {
        bail!("there is no kind {name}");
    };
    let total = total_of(rt, asked, kind)?;
    let Total {
        lists,
        steps,
        answered,
        moments,
        images,
        soft,
        names,
        bytes,
        wrong,
    } = total;
    println!(rt;
        "{name}: lists {lists}, steps {steps}, answered {answered}, moments {moments}, images {images}, soft {soft}, \
        names {names}, bytes {bytes}, wrong {wrong}"
    )?;
    Ok((wrong > 0) == (kind.losing > 0))
}

/// Tries lists of a kind.
fn total_of<R: Threads + Eprint + Sync + AllocGlobal>(
    rt: &R,
    asked: Asked,
    kind: &Kind,
) -> Result<Total> {
    let image = beginning_of(rt, rt.alloc(), &kind.trial, kind.version)?;
    let mut total = Total::new();
    for number in 0..asked.lists {
        try_list(
            rt,
            asked.seed.wrapping_add(number),
            asked.most,
            kind,
            &image,
            &mut total,
        )?;
    }
    Ok(total)
}

/// Tries the list of a seed.
fn try_list<R: Threads + Eprint + Sync + AllocGlobal>(
    rt: &R,
    seed: u64,
    most: u32,
    kind: &Kind,
    image: &MemDevice,
    total: &mut Total,
) -> Result<()> {
    let alloc = rt.alloc();
    let text = list_of(alloc, seed, kind)?;
    let steps = steps_in(alloc, text.as_bytes())?;
    let image = image.image_after(alloc, image.writes())?;
    let cuts = power_cuts_of_steps(rt, alloc, image, steps.as_slice(), most, kind.losing)?;
    total.add(steps.len(), &cuts);
    match cuts.fault {
        Some(fault) => tell(rt, seed, kind, fault, text.as_str()),
        None => Ok(()),
    }
}

/// Tells of a list in which something was wrong.
fn tell(rt: &impl Eprint, seed: u64, kind: &Kind, fault: Fault, text: &str) -> Result<()> {
    let name = kind.name;
    eprintln!(rt; "{name}: of the list of seed {seed} a loss of power leaves {fault:?}")?;
    if kind.losing == 0 {
        eprint!(rt; "{text}")?;
    }
    Ok(())
}
