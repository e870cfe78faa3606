//! The line `serve`: the volume of an image, mounted by Linux, whose connection is standard input and output.
ghost use Rattle.std.specs.Prelude.{◌≡◌, ◌⊎◌, ◌<◌, ◌↔◌, [], IfErr, IfNone, IfOk, IfSome, IsErrOf, IsOkUnless, OnOk};
ghost use Rattle.fuse_loop.specs.Sessions.{EndsWell};
ghost use Rattle.serve_lines.specs.Ends.{MayEndService};

use crate::holding::Holdable;
use crate::owner::{Numbers, numbers_given};
use crate::{viewed, written};
use clap::{Arg, ArgAction, ArgMatches, Command, value_parser};
use command_line::{Answer, Failure, words};
use fuse_channels::Channel;
use fuse_daemon::Plan;
use fuse_loop::LeftError;
use fuse_writer::Rules;
use layout::Refusal;
use std::alloc::{AllocError, Global};
use std::io::Eprint;
use std::os::unix::fs::FileExt;
use std::rt::Files;
use std::sync::Wait;
use std::thread::Threads;
use std::time::Clock;
use workers::Workers;

/// What the line asks for: the volume of this image.
#[derive(Clone, Copy)]
pub struct ServeLine<'a> {
    pub image: &'a str,
    /// Whose the files are of which no owner is kept: the numbers of a user and a group. Without them they are whose the image's file is.
    pub owner: Option<&'a str>,
    pub access: Access,
}

/// What may be done with the volume.
#[derive(Clone, Copy, Debug, PartialEq, Eq)]
pub enum Access {
    /// It is read alone.
    Read,
    /// It is changed by these rules, and mended and flushed beside that.
    Write(Rules, Beside),
}

/// What is to be done beside the service.
#[derive(Clone, Copy, Debug, PartialEq, Eq)]
pub struct Beside {
    /// How many workers check the volume once it is mounted, 1 to 64; with 0 it is not checked.
    pub workers: u32,
    /// After how many seconds what is pending is on the medium; with 0 it waits for a sync or the end.
    pub seconds: u32,
}

impl Beside {
    /// The plan for it. `BadWorkers` is refused where there are more than 64 workers.
    fn plan(self) -> Result<Plan, Refusal>
        ensures unchecked { IfOk result (λ plan. IfNone plan.workers (self.workers ≡ 0)) }
        ensures workers { IfOk result (λ plan. IfSome plan.workers (λ workers. workers.count ≡ self.workers)) }
        ensures seconds { IfOk result (λ plan. plan.seconds ≡ self.seconds) }
        ensures bad_workers { IsErrOf result Refusal.BadWorkers ↔ (64 < self.workers) }
        ensures error { IsOkUnless result Refusal.BadWorkers }
    {
        let workers = match self.workers {
            0 => None,
            count => Some(Workers::new(count)?),
        };
        Ok(Plan {
            workers,
            seconds: self.seconds,
        })
    }
}

/// How many workers check the volume where no number is given, and how many seconds what is pending may wait.
const WORKERS: u32 = 2;

const SECONDS: u32 = 5;

/// The words of the line.
pub fn command<'a>(alloc: Global) -> Result<Command<'a>, AllocError> {
    let line = words::of_image(
        alloc,
        "serve",
        "Answers Linux, which has mounted an image, on standard input and output; started by bin/fsvol-mount",
    )?;
    let line = line.arg(read_only(alloc))?.arg(owner(alloc))?;
    let line = line.arg(check(alloc))?.arg(seconds(alloc))?;
    line.arg(strict(
        alloc,
        "strict-attributes",
        "Refuses to set modes, owners and times, and makes files and directories alone, which have none",
    ))?
    .arg(strict(
        alloc,
        "strict-size",
        "Refuses to write or lengthen a file past its end, which else writes zeroes before",
    ))?
    .arg(strict(
        alloc,
        "strict-names",
        "Refuses to rename to a name that is taken, which else is taken away before",
    ))
}

/// That nothing is changed.
fn read_only<'a>(alloc: Global) -> Arg<'a> {
    Arg::new(alloc, "read-only")
        .long("read-only")
        .action(ArgAction::SetTrue)
        .help("Changes nothing; the words below --owner say nothing then")
}

/// Whose the files are of which no owner is kept.
fn owner<'a>(alloc: Global) -> Arg<'a> {
    Arg::new(alloc, "owner")
        .long("owner")
        .value_name("USER:GROUP")
        .help(
            "Whose the files are that keep no owner, as 1000:1000; without it, the image's owner and group",
        )
}

/// How many workers check the volume.
fn check<'a>(alloc: Global) -> Arg<'a> {
    Arg::new(alloc, "check")
        .long("check")
        .value_name("NUMBER")
        .value_parser(value_parser!(u32))
        .help(
            "How many workers check and mend the volume while it is served, 0 to 64; without it, 2",
        )
}

/// How long what is pending may wait.
fn seconds<'a>(alloc: Global) -> Arg<'a> {
    Arg::new(alloc, "seconds")
        .long("seconds")
        .value_name("NUMBER")
        .value_parser(value_parser!(u32))
        .help(
            "After how many seconds changes are on the medium, with 0 at a sync or the end; without it, 5",
        )
}

/// That something is refused which the volume has no command for.
fn strict<'a>(alloc: Global, name: &'a str, help: &'a str) -> Arg<'a> {
    Arg::new(alloc, name)
        .long(name)
        .action(ArgAction::SetTrue)
        .help(help)
}

/// What these words ask for.
pub fn line_of<'a>(options: &ArgMatches<'a>) -> Option<ServeLine<'a>> {
    Some(ServeLine {
        image: options.get_str("image")?,
        owner: options.get_str("owner"),
        access: access_of(options),
    })
}

/// What these words let be done with the volume.
fn access_of<'a>(options: &ArgMatches<'a>) -> Access {
    if options.get_flag("read-only") {
        return Access::Read;
    }
    let rules = Rules {
        keeps_attributes: !options.get_flag("strict-attributes"),
        fills: !options.get_flag("strict-size"),
        replaces: !options.get_flag("strict-names"),
    };
    let beside = Beside {
        workers: options.get_one("check").unwrap_or(WORKERS),
        seconds: options.get_one("seconds").unwrap_or(SECONDS),
    };
    Access::Write(rules, beside)
}

/// Answers the messages of a channel from a file's image, until its volume is unmounted, and prints nothing. A volume that may be
/// changed is mounted before the first message is taken, and all is written at the end; what is mended and flushed meanwhile is
/// told on standard error alone.
pub fn answer<R: Files + AllocGlobal + Clock + Eprint + Threads + Wait + Sync, C: Channel>(
    rt: &R,
    line: &ServeLine<'_>,
    channel: &mut C,
) -> Result<Answer, Failure>
where
    R::File: FileExt + Holdable + Send,
    ensures status { IfOk result (λ answer. answer.status ≡ 0) }
    ensures silent { IfOk result (λ answer. answer.text.items ≡ []) }
    // What is no image is refused before a message is taken.
    ensures refused { IfErr result (λ failure. MayEndService failure ⊎ (channel.new ≡ channel.old)) }
    // It ends well only with the connection, or with DESTROY.
    ensures ended { OnOk result (EndsWell (C.ended channel.new) (C.taken channel.new)) }
{
    let owner = match line.owner {
        Some(word) => Some(numbers_given(rt.alloc(), word)?),
        None => None,
    };
    match serve_image(rt, line.image, owner, line.access, channel) {
        Ok(()) => Ok(Answer::nothing(rt.alloc())),
        Err(failure) => Err(failure.on_image(rt, line.image)),
    }
}

/// Answers the messages of a channel from a file's image.
fn serve_image<R: Files + AllocGlobal + Clock + Eprint + Threads + Wait + Sync, C: Channel>(
    rt: &R,
    image: &str,
    owner: Option<Numbers>,
    access: Access,
    channel: &mut C,
) -> Result<(), Failure>
where
    R::File: FileExt + Holdable + Send,
    ensures refused { IfErr result (λ failure. MayEndService failure ⊎ (channel.new ≡ channel.old)) }
    ensures ended { OnOk result (EndsWell (C.ended channel.new) (C.taken channel.new)) }
{
    match access {
        Access::Read => viewed::serve_file(rt, image, owner, channel),
        Access::Write(rules, beside) => {
            let plan = beside.plan()?;
            written::serve_file(rt, image, owner, rules, plan, channel)
        }
    }
}

/// Why the line ends where a desk is left before the volume is unmounted.
pub(crate) fn failure_of(alloc: Global, error: LeftError) -> Failure
    ensures { MayEndService result }
{
    match error {
        LeftError::NoMemory => Failure::from(Refusal::NoMemory),
        LeftError::Channel => Failure::from(Refusal::Device).at(alloc, "the connection to Linux"),
        LeftError::NoRequest => no_connection(alloc),
    }
}

/// Something else than Linux writes to standard input.
fn no_connection(alloc: Global) -> Failure
    ensures { MayEndService result }
{
    match String::from_str(
        alloc,
        "error: standard input is no connection to Linux's FUSE; bin/fsvol-mount starts this line\n",
    ) {
        Ok(text) => Failure::Line(text),
        Err(AllocError) => Failure::from(Refusal::NoMemory),
    }
}
