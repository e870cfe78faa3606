use crate::pusher::Pusher;
use std::fs::OpenFile;
use std::os::unix::fs::FileExt;
use std::sync::Wait;
use std::thread::{Threads, join};

/// Does work, while a second thread carries out the writes of it that are left to this pusher, through a handle of the file of its own,
/// and brings them to the medium. Without a handle the work is done alone.
pub fn push_beside<
    R: Threads + Wait + Sync,
    F: FileExt + OpenFile + Drop + Send,
    A,
    W: FnOnce() -> A,
>(rt: &R, pusher: &Pusher, file: Option<F>, work: W) -> A
    requires { W.pre work }
    ensures { W.post work result }
{
    // Where no thread can be made the first of two comes last, and has nothing left to do.
    let (_pushed, made) = join(
        rt,
        move || push(rt, pusher, file),
        move || -> A
            requires { W.pre work }
            ensures { W.post work result }
        {
            let made = work();
            pusher.end();
            made
        },
    );
    made
}

/// Does what is left to a pusher, if there is a file.
fn push<R: Wait, F: FileExt + OpenFile + Drop>(rt: &R, pusher: &Pusher, file: Option<F>) {
    if let Some(file) = file {
        pusher.push(rt, &file);
    }
}
