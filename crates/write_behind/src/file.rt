use crate::pusher::Pusher;
use crate::rooms::Span;
use std::fs::{Metadata, OpenFile};
use std::io;
use std::os::unix::fs::FileExt;
use std::sync::Wait;

/// A file whose writes are left to a pusher's second thread, if that is there, and which asks the system for no sync where the
/// pusher's was answered since the last write. What is read is what was written last, wherever that is. In all else it is the file.
#[derive(Drop)]
pub struct Pushed<'a, R, F> {
    rt: &'a R,
    file: F,
    pusher: &'a Pusher,
}

impl<'a, R: Wait, F> Pushed<'a, R, F> {
    /// The file, with this pusher.
    pub fn new(rt: &'a R, file: F, pusher: &'a Pusher) -> Pushed<'a, R, F> {
        Pushed { rt, file, pusher }
    }
}

impl<R: Wait, F: FileExt> FileExt for Pushed<'_, R, F> {
    fn read_at(&self, bytes: &mut [u8], offset: u64) -> io::Result<usize> {
        let span = Span {
            offset,
            count: bytes.len(),
        };
        self.pusher.wait_for_span(self.rt, &span)?;
        self.file.read_at(bytes, offset)
    }

    fn write_at(&self, bytes: &[u8], offset: u64) -> io::Result<usize> {
        if self.pusher.leave(self.rt, bytes, offset)? {
            return Ok(bytes.len());
        }
        self.pusher.wait_for_writes(self.rt)?;
        let count = self.file.write_at(bytes, offset)?;
        self.pusher.count(count);
        Ok(count)
    }
}

impl<R: Wait, F: OpenFile> OpenFile for Pushed<'_, R, F> {
    fn metadata(&self) -> io::Result<Metadata> {
        self.pusher.wait_for_writes(self.rt)?;
        self.file.metadata()
    }

    fn set_len(&self, size: u64) -> io::Result<()> {
        self.pusher.wait_for_writes(self.rt)?;
        self.file.set_len(size)
    }

    fn sync_all(&self) -> io::Result<()> {
        self.pusher.wait_for_writes(self.rt)?;
        self.file.sync_all()
    }

    fn sync_data(&self) -> io::Result<()> {
        if self.pusher.has_all() {
            return Ok(());
        }
        if self.pusher.works() {
            return self.pusher.wait_for_medium(self.rt);
        }
        self.pusher.wait_for_writes(self.rt)?;
        self.file.sync_data()
    }
}
