//! Both threads.
ghost use Rattle.std.specs.Prelude.{◌≡◌, ◌⊎◌, [], IfErr, IfNone, IfSome, OnOk};
ghost use Rattle.fuse_daemon.specs.Services.{IsPart, LeavesSome, ServesSome, Went};
ghost use Rattle.fuse_loop.specs.Sessions.{EndsWell};
ghost use Rattle.layout.specs.declared.refusal.Refusal.{Refusal as Refused};
ghost use Rattle.shared.specs.Opened.{opened_of};
ghost use Rattle.softdep.specs.Queued.{unsynced_of};
ghost use Rattle.fuse_writer.specs.Turns.{GoesBy};

use crate::beginning::Beginning;
use crate::behind::Behind;
use crate::flushing::flush_until_end;
use crate::locked::Locked;
use crate::mending::{Between, mend};
use crate::telling::{News, Teller};
use device::Device;
use fuse_channels::Channel;
use fuse_loop::{LeftError, serve};
use fuse_wire::Errno;
use fuse_writer::Desk;
use std::alloc::Global;
use std::fs::OpenFile;
use std::marker::Brand;
use std::sync::{OnceToken, Wait};
use std::thread::{Threads, join_mut};
use std::time::Clock;
use workers::Workers;

/// What is done beside the service.
#[derive(Clone, Copy, Debug, PartialEq, Eq)]
pub struct Plan {
    /// How many workers check the volume once it is mounted; with none it is not checked.
    pub workers: Option<Workers>,
    /// After how many seconds what is pending is on the medium; with 0 it waits for a sync or the end.
    pub seconds: u32,
}

/// What is left of a service.
#[derive(Drop)]
pub struct Ended<D: Device> {
    pub desk: Desk<D>,
    /// Whether it ended as the channel did, or as the volume was unmounted.
    pub served: Result<(), LeftError>,
    /// Whether all files are closed, and all is written.
    pub written: Result<(), Errno>,
}

/// Serves a volume at a channel, until it is unmounted or the channel ends; beside that it is mended and flushed, as the plan
/// says. Then all files are closed, and all is written. The medium is that of the volume's device: it is waited for without the
/// lock, and is let go at the end.
pub fn run<
    D: Device + Drop + Send,
    C: Channel,
    F: OpenFile + Drop + Send,
    T: Teller + Sync,
    R: Threads + Wait + Clock + Sync,
>(
    rt: &R,
    alloc: Global,
    desk: Desk<D>,
    plan: Plan,
    medium: F,
    teller: &T,
    channel: &mut C,
) -> Ended<D>
    // Turns and commands of upkeep led to the desk that is left from one whose volume was as it was to be served, and nothing else was
    // done to the volume.
    ensures went { Went D.honest D.held D.image (λ opened. opened ≡ opened_of D.held D.image desk.volume) result.desk }
    // It ends well only with the channel, or with DESTROY.
    ensures ended { OnOk result.served (EndsWell (C.ended channel.new) (C.taken channel.new)) }
    // Each message that was taken was answered by one turn of a desk of this service, and the channel was given the replies.
    ensures served { OnOk result.served (ServesSome D.honest D.held D.image (λ opened. opened ≡ opened_of D.held D.image desk.volume)
        (C.taken channel.old) (C.given channel.old) (C.taken channel.new) (C.given channel.new)) }
    ensures left { IfErr result.served (λ why. LeavesSome D.honest D.held D.image (λ opened. opened ≡ opened_of D.held D.image desk.volume)
        (C.taken channel.old) (C.given channel.old) (C.taken channel.new) (C.given channel.new) why) }
    // If all is written, all is durable.
    ensures written { OnOk result.written (unsynced_of result.desk.volume.queue ≡ []) }
{
    run_on::<D, Brand, C, F, T, R>(rt, alloc, desk, plan, medium, teller, channel)
}

/// Runs a service that began so.
fn run_on<
    D: Device + Drop + Send,
    B: Beginning + Send + Sync,
    C: Channel,
    F: OpenFile + Drop + Send,
    T: Teller + Sync,
    R: Threads + Wait + Clock + Sync,
>(
    rt: &R,
    alloc: Global,
    desk: Desk<D>,
    plan: Plan,
    medium: F,
    teller: &T,
    channel: &mut C,
) -> Ended<D>
    requires { B.begins (opened_of D.held D.image desk.volume) }
    ensures went { Went D.honest D.held D.image B.begins result.desk }
    ensures ended { OnOk result.served (EndsWell (C.ended channel.new) (C.taken channel.new)) }
    ensures served { OnOk result.served (ServesSome D.honest D.held D.image B.begins
        (C.taken channel.old) (C.given channel.old) (C.taken channel.new) (C.given channel.new)) }
    ensures left { IfErr result.served (λ why. LeavesSome D.honest D.held D.image B.begins
        (C.taken channel.old) (C.given channel.old) (C.taken channel.new) (C.given channel.new) why) }
    ensures written { OnOk result.written (unsynced_of result.desk.volume.queue ≡ []) }
{
    let mut medium = medium;
    let locked: Locked<D, B> = Locked::new(desk);
    let served = serve_beside(rt, alloc, &locked, plan, &mut medium, teller, channel);
    let ended = close(locked.into_desk(), served);
    drop(medium);
    ended
}

/// Closes all files, writes all, and gives what is left.
fn close<D: Device + Drop>(mut desk: Desk<D>, served: Result<(), LeftError>) -> Ended<D>
    ensures part { IsPart desk result.desk }
    ensures goes { GoesBy D.honest D.held D.image desk.volume result.desk.calls result.desk.volume }
    ensures served { result.served ≡ served }
    ensures written { OnOk result.written (unsynced_of result.desk.volume.queue ≡ []) }
{
    let written = desk.end();
    Ended {
        desk,
        served,
        written,
    }
}

/// Runs both threads, and tells how the service ended.
fn serve_beside<
    D: Device + Drop + Send,
    B: Beginning + Send + Sync,
    C: Channel,
    F: OpenFile + Drop + Send,
    T: Teller + Sync,
    R: Threads + Wait + Clock + Sync,
>(
    rt: &R,
    alloc: Global,
    locked: &Locked<D, B>,
    plan: Plan,
    medium: &mut F,
    teller: &T,
    channel: &mut C,
) -> Result<(), LeftError>
    ensures ended { OnOk result (EndsWell (C.ended channel.new) (C.taken channel.new)) }
    ensures served { OnOk result (ServesSome D.honest D.held D.image B.begins
        (C.taken channel.old) (C.given channel.old) (C.taken channel.new) (C.given channel.new)) }
    ensures left { IfErr result (λ why. LeavesSome D.honest D.held D.image B.begins
        (C.taken channel.old) (C.given channel.old) (C.taken channel.new) (C.given channel.new) why) }
{
    // Where no thread can be made the first of two comes last, and has nothing left to do.
    let ((), served) = join_mut(
        rt,
        &mut || {
            let _shown = attend(rt, alloc, locked, plan, medium, teller);
        },
        &mut || serve_locked(rt, alloc, locked, channel),
    );
    served
}

/// Serves the desk behind the lock at a channel, and then tells the thread beside that the service is at its end.
fn serve_locked<D: Device + Drop, B: Beginning, C: Channel, R: Wait + Clock>(
    rt: &R,
    alloc: Global,
    locked: &Locked<D, B>,
    channel: &mut C,
) -> Result<(), LeftError>
    ensures ended { OnOk result (EndsWell (C.ended channel.new) (C.taken channel.new)) }
    ensures served { OnOk result (ServesSome D.honest D.held D.image B.begins
        (C.taken channel.old) (C.given channel.old) (C.taken channel.new) (C.given channel.new)) }
    ensures left { IfErr result (λ why. LeavesSome D.honest D.held D.image B.begins
        (C.taken channel.old) (C.given channel.old) (C.taken channel.new) (C.given channel.new) why) }
{
    let mut behind = Behind::new(rt, locked);
    let served = serve(alloc, &mut behind, channel);
    behind.end();
    served
}

/// What is done beside the service, until that is at its end, which is shown. It ends before only if nothing is to be flushed, or if
/// a refusal was told.
fn attend<
    'a,
    D: Device + Drop + Send,
    B: Beginning,
    F: OpenFile,
    T: Teller,
    R: Threads + Wait + Clock + Sync,
>(
    rt: &R,
    alloc: Global,
    locked: &'a Locked<D, B>,
    plan: Plan,
    medium: &mut F,
    teller: &T,
) -> Option<OnceToken<'a, ()>>
    ensures ended { IfSome result (λ token. token.of ≡ locked.entry.now.ended.id) }
    ensures before { IfNone result ((plan.seconds ≡ 0) ⊎ ((refusal : Refused) × T.told teller.now (News.NotFlushed refusal))) }
{
    let right = match locked.begin(rt) {
        Ok(right) => right,
        Err(token) => return Some(token),
    };
    if let Some(workers) = plan.workers {
        let mut between = Between::new(rt, locked, &right);
        teller.tell(match mend(rt, alloc, &mut between, workers) {
            Ok(mended) => News::Mended(mended),
            Err(refusal) => News::NotMended(refusal),
        });
    }
    locked.links_stay(rt, &right);
    let flushed = flush_until_end(rt, locked, &right, medium, plan.seconds);
    locked.leave(rt, right);
    match flushed {
        Ok(shown) => shown,
        Err(refusal) => {
            teller.tell(News::NotFlushed(refusal));
            None
        }
    }
}
