//! What is told of the work beside the service, while it goes on.
ghost use Rattle.fuse_daemon.specs.declared.telling.News.{News as Tidings};

use crate::mending::Mended;
use layout::Refusal;

/// What there is to tell.
#[derive(Clone, Copy, Debug, PartialEq, Eq)]
pub enum News {
    /// The volume was checked and mended.
    Mended(Mended),
    /// That was refused, and is given up.
    NotMended(Refusal),
    /// A flush was refused, and no more is flushed beside the service.
    NotFlushed(Refusal),
}

/// Who is told.
pub trait Teller {
    /// This was told. Whoever serves any teller knows it of what was told alone.
    ghost told: { Self → Tidings → Type 0 };

    /// Takes note.
    fn tell(&self, news: News)
        ensures { told self.now news };
}
