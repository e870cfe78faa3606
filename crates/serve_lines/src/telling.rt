//! What is told on standard error while an image is served.
use fuse_daemon::{Mended, News, Teller};
use std::io::Eprint;

/// Standard error, and the image of which it is told.
#[derive(Clone, Copy)]
pub(crate) struct Told<'a, R> {
    pub(crate) rt: &'a R,
    pub(crate) image: &'a str,
}

impl<R: Eprint> Teller for Told<'_, R> {
    // No clause can say what was printed.
    ghost told = { λ _ _. Unit {0} };

    /// Writes a line. Nobody misses it where standard error is closed.
    fn tell(&self, news: News) {
        let Told { rt, image } = self;
        let _ = match news {
            News::Mended(
                Mended {
                    findings: 0,
                    repairs: _,
                },
            ) => eprintln!(rt; "checked {image}: clean"),
            News::Mended(Mended { findings, repairs }) => {
                eprintln!(rt; "checked {image}: {findings} findings, {repairs} repairs carried out")
            }
            News::NotMended(refusal) => eprintln!(rt;
                "checked {image}: not to its end: {refusal:?}"
            ),
            News::NotFlushed(refusal) => eprintln!(rt;
                "{image} is not written any more: {refusal:?}"
            ),
        };
    }
}
