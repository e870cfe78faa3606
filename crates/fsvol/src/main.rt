//! `fsvol`: a file system in an image file. It makes, fills, checks and mends volumes.
#![tactic(auto)]

use command_line::Screen;
use commands::{perform, words_given};
use fuse_channels::DeviceChannel;
use std::io::IsTerminal;
use std::process::ExitCode;

fn main(rt: HostRuntime) -> ExitCode {
    let mut out = rt.stdout();
    let mut err = rt.stderr();
    match words_given(&rt) {
        Ok(words) => {
            let screen = Screen {
                to: rt.stderr(),
                is_terminal: err.is_terminal(),
            };
            let mut channel = DeviceChannel::new(rt.stdin(), rt.stdout());
            ExitCode::from(perform(
                &rt,
                words.as_slice(),
                &mut out,
                &mut err,
                screen,
                &mut channel,
            ))
        }
        Err(failure) => ExitCode::from(failure.report(&mut err)),
    }
}
