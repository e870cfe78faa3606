//! One round of mending.
ghost use Rattle.std.specs.Prelude.{◌≡◌, ◌∷◌, ◌++◌, [], List, Ok, IfErr, IfNone, IfOk, IfSome, IsFalse, IsTrue};
ghost use Rattle.std.specs.Arc.{arc_value};
ghost use Rattle.snapshot.specs.declared.command.Command.TheVariants.{Freeze as FreezeCommand};
ghost use Rattle.snapshot.specs.declared.answer.Answer.TheVariants.{Image as ImageAnswer};
ghost use Rattle.upkeep.specs.Calls.{AsksRepairs, Call, EndsItsSnapshot, HasMended, HasRepaired, Inner, Installed, IsForeign, WasForeign};

use crate::Asked;
use frozen::Frozen;
use fsck::{Checked, check};
use layout::Refusal;
use snapshot::{Answer, Command};
use std::alloc::Global;
use std::sync::Arc;
use std::thread::Threads;
use workers::{Gate, Workers};

/// The check of a snapshot, and how many of its repairs were carried out.
#[derive(Drop)]
pub struct Mended {
    pub checked: Arc<Checked>,
    pub repaired: u32,
}

/// Mends a volume while it is used: freezes it, checks the snapshot with several workers, which pass the gate as in `fsck::check`,
/// installs the check, carries out each of its repairs, and ends the snapshot. One that was carried out already is passed over. If
/// another one froze the volume before the check was installed, there is none; if one did later, the repairs that are left are dropped.
/// Refused by the first call that is refused otherwise, and with `NoMemory`. A snapshot that
/// was taken is ended in any case.
pub fn mend<A: Asked, G: Gate>(
    rt: &(impl Threads + Sync),
    alloc: Global,
    asked: &mut A,
    workers: Workers,
    gate: &G,
) -> Result<Option<Mended>, Refusal>
    // Between a freeze and a release the check of the snapshot was installed and its repairs were asked, of which so many were carried out.
    ensures mended { IfOk result (λ found. IfSome found (λ mended. HasMended (A.calls asked.old) (A.calls asked.new) (arc_value mended.checked) mended.repaired)) }
    // Where there is none, the check was none of the latest snapshot any more.
    ensures foreign { IfOk result (λ found. IfNone found (WasForeign (A.calls asked.old) (A.calls asked.new))) }
    // Whatever came of it, the snapshot that was taken was ended, if one was, and nothing else was asked.
    ensures ended { EndsItsSnapshot (A.calls asked.old) (A.calls asked.new) }
{
    let (number, frozen) = freeze(asked)?;
    let mended = mend_frozen(rt, alloc, asked, &frozen, workers, gate);
    asked.ask(&Command::Release(number))?;
    mended
}

/// Freezes the volume, and gives the snapshot's number and its metadata.
fn freeze<A: Asked>(asked: &mut A) -> Result<(u64, Arc<Frozen>), Refusal>
    ensures frozen { IfOk result (λ snapshot. A.calls asked.new ≡ A.calls asked.old ++ (FreezeCommand, Ok (ImageAnswer snapshot.0 snapshot.1)) ∷ []) }
    ensures refused { IfErr result (λ _. EndsItsSnapshot (A.calls asked.old) (A.calls asked.new)) }
{
    match asked.ask(&Command::Freeze)? {
        Answer::Image(number, frozen) => Ok((number, frozen)),
        // No volume answers a freeze otherwise.
        _ => Err(Refusal::NoSnapshot),
    }
}

/// Checks a snapshot, installs the check, and carries out each of its repairs. There is none if the snapshot is not that of the latest
/// freeze any more.
fn mend_frozen<A: Asked, G: Gate>(
    rt: &(impl Threads + Sync),
    alloc: Global,
    asked: &mut A,
    frozen: &Arc<Frozen>,
    workers: Workers,
    gate: &G,
) -> Result<Option<Mended>, Refusal>
    ensures repaired { IfOk result (λ found. IfSome found (λ mended.
        HasRepaired (A.calls asked.old) (A.calls asked.new) (arc_value frozen.now) (arc_value mended.checked) mended.repaired)) }
    ensures foreign { IfOk result (λ found. IfNone found (IsForeign (A.calls asked.old) (A.calls asked.new))) }
    ensures inner { Inner (A.calls asked.old) (A.calls asked.new) }
{
    let checked = Arc::new(alloc, check(rt, alloc, frozen, workers, gate)?)?;
    if !install(asked, &checked)? {
        return Ok(None);
    }
    let repaired = repair_all(asked, checked.repairs().len())?;
    Ok(Some(Mended { checked, repaired }))
}

/// Installs a check, and tells whether it is one of the latest freeze.
fn install<A: Asked>(asked: &mut A, checked: &Arc<Checked>) -> Result<bool, Refusal>
    ensures installed { IfOk result (λ is_installed. IsTrue is_installed → Installed (A.calls asked.old) (A.calls asked.new) (arc_value checked.now)) }
    ensures foreign { IfOk result (λ is_installed. IsFalse is_installed → IsForeign (A.calls asked.old) (A.calls asked.new)) }
    ensures inner { Inner (A.calls asked.old) (A.calls asked.new) }
{
    let install = Command::Install(Arc::try_clone(checked)?);
    match asked.ask(&install) {
        Ok(_) => Ok(true),
        Err(Refusal::NoSnapshot | Refusal::ForeignPlan) => Ok(false),
        Err(refusal) => Err(refusal),
    }
}

/// Carries out the repairs of so many places, in order, and counts those that were not carried out already. They end where no check
/// is installed any more.
fn repair_all<A: Asked>(asked: &mut A, places: usize) -> Result<u32, Refusal>
    ensures repaired { IfOk result (AsksRepairs (A.calls asked.old) (A.calls asked.new) places) }
    ensures inner { Inner (A.calls asked.old) (A.calls asked.new) }
{
    let Ok(places) = u32::try_from(places) else {
        // No list has more places; one that had would be refused as one that finds no memory.
        return Err(Refusal::NoMemory);
    };
    let mut done = 0;
    for place in 0..places {
        match asked.ask(&Command::Repair(place)) {
            Ok(_) => done += 1,
            Err(Refusal::AlreadyDone) => {}
            Err(Refusal::NoPlan) => return Ok(done),
            Err(refusal) => return Err(refusal),
        }
    }
    Ok(done)
}
