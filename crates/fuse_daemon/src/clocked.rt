//! Which time it is.
use attributes::Time;
use std::time::{Clock, SystemTime, UNIX_EPOCH};

/// The time that the clock of the host tells, if it tells one after 1970.
pub(crate) fn time_of<R: Clock>(rt: &R) -> Option<Time> {
    let Ok(now) = SystemTime::now(rt) else {
        return None;
    };
    let Ok(since) = now.duration_since(UNIX_EPOCH) else {
        return None;
    };
    Some(Time {
        seconds: since.as_secs(),
        nanoseconds: since.subsec_nanos(),
    })
}
