//! What the lines of `fsvol` do that put files of the host into an image in a file.
use crate::archived::{entries_in, items_in_archive, items_of_entries, longest};
use crate::filling::{Filled, put, put_on_device};
use crate::items::{Item, allow_items, items_of};
use crate::limits::{Destination, file_bytes};
use device::Device;
use failures::{Failure, path_given};
use file_device::FileDevice;
use frozen::load;
use image_changes::mount;
use layout::Geometry;
use progress::Watcher;
use snapshot::Volume;
use std::alloc::Global;
use std::fs::OpenFile;
use std::marker::Brand;
use std::os::unix::fs::FileExt;
use std::rt::Files;
use std::sync::{OnceLock, Wait};
use std::thread::Threads;
use write_behind::{Pushed, Pusher, push_beside};

/// Puts what stands at a path of the host, and all below it, at a path in a file's image. All names are looked at before anything
/// is written.
pub fn put_into_file<R: Files + AllocGlobal + Threads + Wait + Sync + Clone + Drop>(
    rt: &R,
    image: &str,
    path: &str,
    host: &str,
    watcher: &impl Watcher,
) -> Result<(), Failure>
where
    R::File: FileExt + Send,
{
    let items = items_at(rt, image, path, host)?;
    put_new_items(rt, image, items.as_slice(), watcher)
}

/// Puts what stands in an archive at a path in a file's image. All names are looked at before anything is written.
pub fn put_archive_into_file<R: Files + AllocGlobal + Threads + Wait + Sync>(
    rt: &R,
    image: &str,
    path: &str,
    archive: &[u8],
    watcher: &impl Watcher,
) -> Result<(), Failure>
where
    R::File: FileExt + Send,
{
    let items = entries_at(rt, image, path, archive)?;
    put_new_items(rt, image, items.as_slice(), watcher)
}

/// The items of a line that puts something into an image.
fn items_at<R: Files + AllocGlobal + Clone + Drop>(
    rt: &R,
    image: &str,
    path: &str,
    host: &str,
) -> Result<Vec<Item>, Failure>
where
    R::File: FileExt,
{
    let path = path_given(rt.alloc(), path)?;
    items_of(rt, host, path.as_slice(), Destination::File(image))
}

/// The items of a line that puts an archive into an image.
fn entries_at<R: Files + AllocGlobal>(
    rt: &R,
    image: &str,
    path: &str,
    archive: &[u8],
) -> Result<Vec<Item>, Failure>
where
    R::File: FileExt,
{
    let alloc = rt.alloc();
    let path = path_given(alloc, path)?;
    let entries = entries_in(alloc, archive)?;
    let most = Destination::File(image).most_bytes(rt, longest(entries.as_slice()))?;
    items_of_entries(alloc, path.as_slice(), most, entries)
}

/// The items of a line that puts an archive into the root of a fresh image of this geometry.
pub fn items_of_archive(
    alloc: Global,
    archive: &[u8],
    geometry: &Geometry,
) -> Result<Vec<Item>, Failure> {
    items_in_archive(alloc, archive, b"/", file_bytes(geometry))
}

/// The items of a line that puts what a folder of the host holds into the root of a fresh image of this geometry.
pub fn items_of_folder<R: Files + AllocGlobal + Clone + Drop>(
    rt: &R,
    host: &str,
    geometry: &Geometry,
) -> Result<Vec<Item>, Failure>
where
    R::File: FileExt,
{
    items_of(rt, host, b"/", Destination::Fresh(geometry))
}

/// Puts items into the volume of a device over this file's image. Where one is refused, what went before it is written.
pub fn put_items<R: Files + AllocGlobal + Threads + Wait + Sync>(
    rt: &R,
    image: &str,
    device: FileDevice<R::File, Brand>,
    items: &[Item],
    watcher: &impl Watcher,
) -> Result<(), Failure>
where
    R::File: FileExt + Send,
{
    let pusher = &Pusher::new(rt.alloc());
    let (device, twin) = left_to(rt, device, pusher);
    let put = push_beside(rt, pusher, twin, move || {
        put_on_device(rt, device, items, watcher, pusher)
    });
    match put {
        Ok(holding) => end_of(holding.filled, items.len()),
        Err(refusal) => Err(Failure::from(refusal).on_image(rt, image)),
    }
}

/// Puts items into the volume of a file's image, where none of them may stand yet. Where one is refused, what went before it is
/// written.
fn put_new_items<R: Files + AllocGlobal + Threads + Wait + Sync>(
    rt: &R,
    image: &str,
    items: &[Item],
    watcher: &impl Watcher,
) -> Result<(), Failure>
where
    R::File: FileExt + Send,
{
    match put_new_in_file(rt, image, items, watcher) {
        Ok(filled) => end_of(filled, items.len()),
        Err(failure) => Err(failure.on_image(rt, image)),
    }
}

/// Puts items into the volume of a file's image, where none of them may stand yet, and tells how many went into it.
fn put_new_in_file<R: Files + AllocGlobal + Threads + Wait + Sync>(
    rt: &R,
    image: &str,
    items: &[Item],
    watcher: &impl Watcher,
) -> Result<Filled, Failure>
where
    R::File: FileExt + Send,
{
    let pusher = &Pusher::new(rt.alloc());
    let (device, twin) = match FileDevice::open_to_write(rt, image) {
        Ok(device) => left_to(rt, device, pusher),
        Err(error) => return unless_refused(rt, image, items, Failure::from(error)),
    };
    push_beside(rt, pusher, twin, move || {
        put_on_new_device(rt, image, device, items, watcher, pusher)
    })
}

/// Mounts the volume of a device over this file's image, and puts items into it, where none of them may stand yet.
fn put_on_new_device<R: Files + AllocGlobal, D: Device + Drop>(
    rt: &R,
    image: &str,
    device: D,
    items: &[Item],
    watcher: &impl Watcher,
    pusher: &Pusher,
) -> Result<Filled, Failure>
where
    R::File: FileExt,
{
    match mount(rt.alloc(), device) {
        Ok(mut volume) => put_new_in_volume(rt, &mut volume, items, watcher, pusher),
        Err(refused) => unless_refused(rt, image, items, Failure::from(refused.cause)),
    }
}

/// Why items are not put into a file's image. An item that the image cannot have is told of first.
fn unless_refused<R: Files + AllocGlobal>(
    rt: &R,
    image: &str,
    items: &[Item],
    failure: Failure,
) -> Result<Filled, Failure>
where
    R::File: FileExt,
{
    allow_in_file(rt, image, items)?;
    Err(failure)
}

/// Puts items into a mounted volume, where none of them may stand yet, and tells how many went into it.
fn put_new_in_volume<R: Files + AllocGlobal, D: Device>(
    rt: &R,
    volume: &mut Volume<D>,
    items: &[Item],
    watcher: &impl Watcher,
    pusher: &Pusher,
) -> Result<Filled, Failure> {
    allow_items(rt.alloc(), volume.live().metadata(), items)?;
    Ok(put(rt, volume, items, watcher, pusher)?)
}

/// The device over a file with its writes left to a pusher, and another handle of the file, for that, if the host gives one.
fn left_to<'a, R: Files + Wait>(
    rt: &'a R,
    device: FileDevice<R::File, Brand>,
    pusher: &'a Pusher,
) -> (FileDevice<Pushed<'a, R, R::File>, Brand>, Option<R::File>) {
    let twin = OnceLock::new();
    let device = device.through(|file: R::File| with_twin(rt, file, pusher, &twin));
    (device, twin.into_inner())
}

/// The file with its writes left to a pusher. Another handle of it is put in its place here, if the host gives one.
fn with_twin<'a, R: Files + Wait>(
    rt: &'a R,
    file: R::File,
    pusher: &'a Pusher,
    twin: &OnceLock<R::File>,
) -> Pushed<'a, R, R::File> {
    if let Ok(other) = file.try_clone() {
        let _ = twin.set(rt, other);
    }
    Pushed::new(rt, file, pusher)
}

/// Refuses the first item of which the path leads somewhere in a file's image already, or can lead nowhere.
fn allow_in_file<R: Files + AllocGlobal>(rt: &R, image: &str, items: &[Item]) -> Result<(), Failure>
where
    R::File: FileExt,
{
    let mut device: FileDevice<R::File, Brand> = FileDevice::open(rt, image)?;
    let frozen = load(rt.alloc(), &mut device)?;
    allow_items(rt.alloc(), &frozen, items)
}

/// How a line ends that put these of so many items into an image.
fn end_of(filled: Filled, count: usize) -> Result<(), Failure> {
    let Filled { done, stopped, .. } = filled;
    match stopped {
        Some(failure) => Err(failure.after(done, count)),
        None => Ok(()),
    }
}
