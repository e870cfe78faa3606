use crate::expect::{holds, same};
use fuse_channels::{Channel, MemoryChannel, Message, Received, Replied};
use std::test::*;

#[test]
fn messages_come_and_go_whole(rt: HostRuntime) -> Result<(), Fail> {
    let alloc = rt.alloc();
    let mut requests = Vec::new(alloc);
    requests.push(b"one".to_vec(alloc)?)?;
    requests.push(b"three".to_vec(alloc)?)?;
    let mut channel = MemoryChannel::new(alloc, requests);
    let mut message = Message::with_room(alloc, 4)?;
    same(
        &rt,
        "one",
        channel.receive(&mut message)?,
        Received::Message,
    );
    same(&rt, "one", message.as_slice(), b"one".as_slice());
    same(
        &rt,
        "two",
        channel.reply(&b"two".to_vec(alloc)?)?,
        Replied::Given,
    );
    holds(&rt, "too long", channel.receive(&mut message).is_err());
    let mut roomy = Message::with_room(alloc, 8)?;
    same(
        &rt,
        "three",
        channel.receive(&mut roomy)?,
        Received::Message,
    );
    same(&rt, "three", roomy.as_slice(), b"three".as_slice());
    same(&rt, "the end", channel.receive(&mut roomy)?, Received::End);
    same(&rt, "replies", channel.replies().len(), 1);
    Ok(())
}
