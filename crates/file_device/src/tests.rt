use crate::{FileDevice, OpenError};
use device::{Before, Device, format, set_byte};
use layout::{BLOCK_BYTES, Block, Geometry, Refusal};
use std::fs::File;
use std::marker::Brand;
use std::test::Fail;
use std::{fs, io};

/// A file of the tests' own, in the folder where they run.
const IMAGE_PATH: &str = "file_device_tests_one_group.image";

/// The block of this address; `None` where there is none, or the device failed.
pub(crate) fn read_block<D: Device>(device: &mut D, address: u32) -> Option<Block> {
    if address >= device.blocks() {
        return None;
    }
    let mut block = [0; BLOCK_BYTES];
    match device.read(address, &mut block) {
        Ok(()) => Some(block),
        Err(_) => None,
    }
}

/// Writes a fresh image of so many groups, each of 16 blocks and 16 inodes, which the device has to have room for.
pub(crate) fn format_groups<D: Device>(device: &mut D, groups: u32) -> Result<(), Refusal> {
    let geometry = Geometry::new(groups, 16, 16)?;
    if device.blocks() != geometry.blocks() {
        return Err(Refusal::BadLength);
    }
    format(device, &geometry, Before::Anything)
}

/// Whether both have so many blocks of zeroes: what was made, and what was opened for reading alone.
fn have_zeroes(made: &mut FileDevice<File, Brand>, opened: &mut FileDevice<File, Brand>) -> bool {
    made.blocks() == 17
        && opened.blocks() == 17
        && read_block(made, 0) == Some([0; BLOCK_BYTES])
        && read_block(opened, 16) == Some([0; BLOCK_BYTES])
}

/// Whether a device shows the map that a format puts into block 1.
fn has_maps(opened: &mut FileDevice<File, Brand>) -> bool {
    match read_block(opened, 1) {
        Some(maps) => maps[..4] == b"GCUS"[..],
        None => false,
    }
}

/// Whether one shows what is written through the other, and refuses what it is given, which is its last call.
fn shows_a_format(
    made: &mut FileDevice<File, Brand>,
    opened: &mut FileDevice<File, Brand>,
) -> Result<bool, Refusal> {
    format_groups(made, 1)?;
    made.give()?;
    let is_shown = has_maps(opened);
    set_byte(opened, (1, 0, 2))?;
    Ok(is_shown && opened.give().is_err() && !has_maps(opened))
}

/// Whether a file that is made, and opened while it stands, is as it has to be.
fn is_made_and_opened(rt: &HostRuntime) -> Result<bool, Refusal> {
    let mut made: FileDevice<File, Brand> = FileDevice::create(rt, IMAGE_PATH, 17)?;
    let mut opened: FileDevice<File, Brand> = FileDevice::open(rt, IMAGE_PATH)?;
    let is_so = have_zeroes(&mut made, &mut opened) && shows_a_format(&mut made, &mut opened)?;
    let mut again: FileDevice<File, Brand> = FileDevice::open(rt, IMAGE_PATH)?;
    Ok(is_so && has_maps(&mut again))
}

/// Why a file is not opened to be read.
fn why_not_opened(rt: &HostRuntime, path: &str) -> Option<Refusal> {
    let opened: Result<FileDevice<File, Brand>, OpenError> = FileDevice::open(rt, path);
    Some(opened.err()?.cause)
}

/// What the host answers where a file is not opened to be read.
fn answer_of_host(rt: &HostRuntime, path: &str) -> Option<io::ErrorKind> {
    let opened: Result<FileDevice<File, Brand>, OpenError> = FileDevice::open(rt, path);
    Some(opened.err()?.why?.kind())
}

#[test]
fn a_file_is_made_and_opened(rt: HostRuntime) -> Result<(), Fail> {
    let is_so = is_made_and_opened(&rt)?;
    fs::remove_file(&rt, IMAGE_PATH)?;
    assert!(rt; is_so);
    assert_eq!(rt; why_not_opened(&rt, IMAGE_PATH), Some(Refusal::Device));
    assert_eq!(rt;
        answer_of_host(&rt, IMAGE_PATH),
        Some(io::ErrorKind::NotFound)
    );
    Ok(())
}

#[test]
fn a_directory_is_refused(rt: HostRuntime) -> Result<(), Fail> {
    const PATH: &str = "file_device_tests_directory";
    let _ = fs::remove_dir(&rt, PATH);
    fs::create_dir(&rt, PATH)?;
    let refusal = why_not_opened(&rt, PATH);
    let answer = answer_of_host(&rt, PATH);
    fs::remove_dir(&rt, PATH)?;
    assert_eq!(rt; refusal, Some(Refusal::Device));
    assert_eq!(rt; answer, Some(io::ErrorKind::IsADirectory));
    Ok(())
}

#[test]
fn a_file_of_no_whole_blocks_is_refused(rt: HostRuntime) -> Result<(), Fail> {
    const PATH: &str = "file_device_tests_part_block.image";
    let alloc = rt.alloc();
    for length in [0, 1_023, 17_407] {
        fs::write(&rt, PATH, vec![in alloc; 0u8; length]?.as_slice())?;
        let refusal = why_not_opened(&rt, PATH);
        assert_eq!(rt; refusal, Some(Refusal::BadLength), "of {length} bytes");
    }
    fs::remove_file(&rt, PATH)?;
    Ok(())
}

/// Makes a file of three blocks, and changes a byte of it once it is opened to be written.
fn change_a_byte(rt: &HostRuntime, path: &str) -> Result<(), Refusal> {
    let made: FileDevice<File, Brand> = FileDevice::create(rt, path, 3)?;
    if made.blocks() != 3 {
        return Err(Refusal::BadLength);
    }
    let mut opened: FileDevice<File, Brand> = FileDevice::open_to_write(rt, path)?;
    set_byte(&mut opened, (2, 5, 9))?;
    Ok(opened.sync()?)
}

/// Block 2 of a file.
fn block_2(rt: &HostRuntime, path: &str) -> Result<Block, Refusal> {
    let mut device: FileDevice<File, Brand> = FileDevice::open(rt, path)?;
    read_block(&mut device, 2).ok_or(Refusal::Device)
}

/// Why a file is not opened to be written.
fn why_not_opened_to_write(rt: &HostRuntime, path: &str) -> Option<Refusal> {
    let opened: Result<FileDevice<File, Brand>, OpenError> = FileDevice::open_to_write(rt, path);
    Some(opened.err()?.cause)
}

#[test]
fn a_file_is_opened_to_be_written(rt: HostRuntime) -> Result<(), Fail> {
    const PATH: &str = "file_device_tests_to_write.image";
    change_a_byte(&rt, PATH)?;
    let block = block_2(&rt, PATH)?;
    fs::remove_file(&rt, PATH)?;
    assert_eq!(rt; (block[4], block[5]), (0, 9));
    assert_eq!(rt; why_not_opened_to_write(&rt, PATH), Some(Refusal::Device));
    Ok(())
}
