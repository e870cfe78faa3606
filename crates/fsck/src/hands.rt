//! Who makes the parts of a phase: one worker, or several at once.
ghost use Rattle.std.specs.Prelude.{◌≡◌, All, IfOk, vec_len};
ghost use Rattle.fsck.specs.Parts.{MakesItsOwn, MakesParts};

use crate::works::Look;
use layout::Refusal;
use std::alloc::{AllocError, Global};
use std::thread::Threads;
use workers::{Gate, Workers, each_group, in_turn};

/// The parts of so many units, in their order, made by one worker on the calling thread, which passes no gate. Only
/// `NoMemory` is refused.
pub(crate) fn parts_of_one<W: Look>(
    alloc: Global,
    units: u32,
    work: W,
) -> Result<Vec<W::Part>, Refusal>
    requires { MakesItsOwn W.gives W.is_of }
    ensures { MakesParts (W.is_of work) units result }
{
    let (parts, _work) = in_turn(alloc, units, work)?;
    Ok(parts)
}

/// The same, made by so many workers that are like this one, each in a thread of its own where one can be made. They
/// pass the gate with the phase's number.
pub(crate) fn parts_of_crew<R: Threads + Sync, G: Gate, W: Look>(
    rt: &R,
    workers: Workers,
    gate: &G,
    alloc: Global,
    units: u32,
    work: W,
) -> Result<Vec<W::Part>, Refusal>
    requires { MakesItsOwn W.gives W.is_of }
    ensures { MakesParts (W.is_of work) units result }
{
    let works = copies(alloc, work, workers)?;
    let (parts, _works) = each_group(rt, alloc, work.phase(), units, works, gate)?;
    Ok(parts)
}

/// So many workers that are alike.
fn copies<W: Copy>(alloc: Global, work: W, workers: Workers) -> Result<Vec<W>, AllocError>
    ensures count { IfOk result (λ works. vec_len works ≡ workers.count) }
    ensures alike { IfOk result (λ works. All (λ one. one ≡ work) works.items) }
{
    let mut works = Vec::new(alloc);
    for _worker in 0..workers.count() {
        works.push(work)?;
    }
    Ok(works)
}
