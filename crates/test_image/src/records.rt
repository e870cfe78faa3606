use crate::expect::{holds, same};
use inode::{
    ATTRIBUTES, DIRECT_POINTERS, DIRECTORY, FILE, FREE, RECORD_BYTES, Record, blocks_of_size,
};
use layout::{DOUBLE, Geometry, SINGLE};

/// A free record.
const ZERO: Record = Record {
    mode: FREE,
    links: 0,
    size: 0,
    direct: [0; DIRECT_POINTERS],
    indirect: 0,
    double: 0,
    attributes: [0; ATTRIBUTES],
};

#[test]
fn a_written_record_has_its_bytes_and_is_read_back(rt: HostRuntime) {
    let record = Record {
        mode: DIRECTORY,
        links: 0x0102,
        size: 0x0304_0506,
        direct: [0x1112_1314, 2, 3, 4, 5, 6, 7, 8, 9, 10, 11, 0x2122_2324],
        indirect: 0x3132_3334,
        double: 0,
        attributes: [
            0x5152_5354,
            17,
            18,
            19,
            20,
            21,
            22,
            23,
            24,
            25,
            26,
            27,
            28,
            29,
            30,
            0x6162_6364,
        ],
    };
    let mut bytes = [0xaa; RECORD_BYTES];
    record.write(SINGLE, &mut bytes);

    let mut wanted = [0xaa; RECORD_BYTES];
    wanted[..60].copy_from_slice(&[0; 60]);
    wanted[..12].copy_from_slice(&[2, 0, 2, 1, 6, 5, 4, 3, 0x14, 0x13, 0x12, 0x11]);
    for place in 1..11 {
        wanted[8 + 4 * place] = 1 + place as u8;
    }
    wanted[52..60].copy_from_slice(&[0x24, 0x23, 0x22, 0x21, 0x34, 0x33, 0x32, 0x31]);
    wanted[64..128].copy_from_slice(&[0; 64]);
    wanted[64..68].copy_from_slice(&[0x54, 0x53, 0x52, 0x51]);
    for place in 1..15 {
        wanted[64 + 4 * place] = 16 + place as u8;
    }
    wanted[124..128].copy_from_slice(&[0x64, 0x63, 0x62, 0x61]);
    holds(&rt, "its bytes", bytes == wanted);
    same(&rt, "read", Record::read(SINGLE, &bytes), record);

    let record = Record {
        double: 0x4142_4344,
        ..record
    };
    record.write(DOUBLE, &mut bytes);
    wanted[60..64].copy_from_slice(&[0x44, 0x43, 0x42, 0x41]);
    holds(
        &rt,
        "its bytes with the double indirect pointer",
        bytes == wanted,
    );
    same(&rt, "read with it", Record::read(DOUBLE, &bytes), record);
    same(
        &rt,
        "read without it",
        Record::read(SINGLE, &bytes),
        Record {
            double: 0,
            ..record
        },
    );
}

#[test]
fn sizes_take_whole_blocks(rt: HostRuntime) {
    let table = [
        (0, 0),
        (1, 1),
        (1024, 1),
        (1025, 2),
        (274_432, 268),
        (274_433, 269),
        (u32::MAX, 4_194_304),
    ];
    for (size, blocks) in table {
        same(&rt, size, blocks_of_size(size), blocks);
        same(&rt, size, Record { size, ..ZERO }.blocks(), blocks);
    }
}

#[test]
fn sound_records_are_told_apart(rt: HostRuntime) {
    let table = [
        (FREE, 0, false, false),
        (FILE, 0, true, true),
        (FILE, 1, true, true),
        (FILE, 274_432, true, true),
        (FILE, 274_433, false, true),
        (FILE, 67_383_296, false, true),
        (FILE, 67_383_297, false, false),
        (FILE, u32::MAX, false, false),
        (DIRECTORY, 0, false, false),
        (DIRECTORY, 1023, false, false),
        (DIRECTORY, 1024, true, true),
        (DIRECTORY, 274_432, true, true),
        (DIRECTORY, 275_456, false, true),
        (DIRECTORY, 67_383_296, false, true),
        (DIRECTORY, 67_384_320, false, false),
        (3, 1024, false, false),
        (0x0101, 1024, false, false),
    ];
    let single = Geometry::new(1, 16, 16).expect(&rt, "a geometry");
    let double = single.with_version(DOUBLE).expect(&rt, "version 2");
    for (mode, size, in_single, in_double) in table {
        let record = Record { mode, size, ..ZERO };
        same(&rt, (mode, size), record.is_sound(&single), in_single);
        same(&rt, (mode, size, 2), record.is_sound(&double), in_double);
        same(&rt, mode, record.is_directory(), mode == DIRECTORY);
    }
}
