//! Scripts, and what their users are answered, worked out by hand for the fresh image of one group of 16 blocks and 16
//! inodes.
use layout::{DOUBLE, SINGLE};

/// The versions of the layout.
const BOTH: &[u32] = &[SINGLE, DOUBLE];

/// A script, and its lines with the answers.
pub struct Worked {
    /// The versions of the layout with which it is answered so.
    pub versions: &'static [u32],
    pub script: &'static [u8],
    pub told: &'static [u8],
}

/// All of them.
pub const SCRIPTS: &[Worked] = &[
    Worked {
        versions: BOTH,
        script: b"1 mkdir /d\n1 create /d/f\n1 list /d\n1 list /\n1 stat /d\n1 stat /\n",
        told: b"1 mkdir /d -> ok 3\n1 create /d/f -> ok 4\n1 list /d -> ok f=4\n1 list / -> ok d=3\n1 stat /d -> ok number 3 directory links 2 size 1024\n1 stat / -> ok number 2 directory links 3 size 1024\n",
    },
    Worked {
        versions: BOTH,
        script: b"1 create /a\n1 link /a /b\n1 stat /b\n1 unlink /a\n1 stat /a\n1 stat /b\n",
        told: b"1 create /a -> ok 3\n1 link /a /b -> ok\n1 stat /b -> ok number 3 file links 2 size 0\n1 unlink /a -> ok\n1 stat /a -> refused 7 NotFound\n1 stat /b -> ok number 3 file links 1 size 0\n",
    },
    Worked {
        versions: BOTH,
        script: b"1 mkdir /d\n1 create /d/f\n1 rmdir /d\n1 unlink /d/f\n1 rmdir /d\n1 stat /d\n1 mkdir /e\n",
        told: b"1 mkdir /d -> ok 3\n1 create /d/f -> ok 4\n1 rmdir /d -> refused 11 NotEmpty\n1 unlink /d/f -> ok\n1 rmdir /d -> ok\n1 stat /d -> refused 7 NotFound\n1 mkdir /e -> ok 3\n",
    },
    Worked {
        versions: BOTH,
        script: b"1 create /a\n1 rename /a /b\n1 stat /a\n1 list /\n1 mkdir /d\n1 rename /b /d/c\n1 list /d\n1 rename /d/c /d/c\n1 rename /d /e\n1 rename /e /e/x\n1 list /\n",
        told: b"1 create /a -> ok 3\n1 rename /a /b -> ok\n1 stat /a -> refused 7 NotFound\n1 list / -> ok b=3\n1 mkdir /d -> ok 4\n1 rename /b /d/c -> ok\n1 list /d -> ok c=3\n1 rename /d/c /d/c -> refused 8 Exists\n1 rename /d /e -> ok\n1 rename /e /e/x -> refused 10 IsDirectory\n1 list / -> ok e=4\n",
    },
    Worked {
        versions: BOTH,
        script: b"1 create /a\n1 open /a\n1 open /a\n1 close 0\n1 close 0\n1 read 1 0\n1 close 1\n1 close 2\n",
        told: b"1 create /a -> ok 3\n1 open /a -> ok 0\n1 open /a -> ok 1\n1 close 0 -> ok\n1 close 0 -> refused 17 BadHandle\n1 read 1 0 -> refused 18 BadIndex\n1 close 1 -> ok\n1 close 2 -> refused 17 BadHandle\n",
    },
    Worked {
        versions: BOTH,
        script: b"1 create /a\n1 open /a\n1 write 0 0 abcdef\n1 truncate 0 3\n1 read 0 0\n1 truncate 0 4\n1 truncate 0 0\n1 stat /a\n1 read 0 0\n",
        told: b"1 create /a -> ok 3\n1 open /a -> ok 0\n1 write 0 0 abcdef -> ok\n1 truncate 0 3 -> ok\n1 read 0 0 -> ok 616263\n1 truncate 0 4 -> refused 18 BadIndex\n1 truncate 0 0 -> ok\n1 stat /a -> ok number 3 file links 1 size 0\n1 read 0 0 -> refused 18 BadIndex\n",
    },
    Worked {
        versions: BOTH,
        script: b"1 create a\n1 create /\n1 create /a/b\n1 create //\n1 open /.\n1 mkdir /..\n1 list /x\n1 rmdir /\n1 list /\n",
        told: b"1 create a -> refused 12 BadName\n1 create / -> refused 30 IsRoot\n1 create /a/b -> refused 7 NotFound\n1 create // -> refused 12 BadName\n1 open /. -> refused 12 BadName\n1 mkdir /.. -> refused 12 BadName\n1 list /x -> refused 7 NotFound\n1 rmdir / -> refused 30 IsRoot\n1 list / -> ok\n",
    },
    Worked {
        versions: BOTH,
        script: b"1 create /a\n1 create /a/b\n1 list /a\n1 rmdir /a\n1 mkdir /d\n1 unlink /d\n1 open /d\n1 link /d /e\n",
        told: b"1 create /a -> ok 3\n1 create /a/b -> refused 9 NotDirectory\n1 list /a -> refused 9 NotDirectory\n1 rmdir /a -> refused 9 NotDirectory\n1 mkdir /d -> ok 4\n1 unlink /d -> refused 10 IsDirectory\n1 open /d -> refused 10 IsDirectory\n1 link /d /e -> refused 10 IsDirectory\n",
    },
    Worked {
        versions: BOTH,
        script: b"1 create /a\n1 create /a\n1 mkdir /a\n1 create /b\n1 link /a /b\n1 rename /a /b\n",
        told: b"1 create /a -> ok 3\n1 create /a -> refused 8 Exists\n1 mkdir /a -> refused 8 Exists\n1 create /b -> ok 4\n1 link /a /b -> refused 8 Exists\n1 rename /a /b -> refused 8 Exists\n",
    },
    Worked {
        versions: BOTH,
        script: b"1 create /%\n1 create /\x01\xff~!\n1 mkdir /\xc3\xa4\n1 list /\n1 stat /\xc3\xa4\n",
        told: b"1 create /% -> ok 3\n1 create /\x01\xff~! -> ok 4\n1 mkdir /\xc3\xa4 -> ok 5\n1 list / -> ok %25=3 %01%ff~!=4 %c3%a4=5\n1 stat /\xc3\xa4 -> ok number 5 directory links 2 size 1024\n",
    },
    Worked {
        versions: BOTH,
        script: b"1 create /nnnnnnnnnnnnnnnnnnnnnnnnnnnnnnnnnnnnnnnnnnnnnnnnnnnnnnnn\n1 create /mmmmmmmmmmmmmmmmmmmmmmmmmmmmmmmmmmmmmmmmmmmmmmmmmmmmmmmmm\n1 list /\n",
        told: b"1 create /nnnnnnnnnnnnnnnnnnnnnnnnnnnnnnnnnnnnnnnnnnnnnnnnnnnnnnnn -> ok 3\n1 create /mmmmmmmmmmmmmmmmmmmmmmmmmmmmmmmmmmmmmmmmmmmmmmmmmmmmmmmmm -> refused 12 BadName\n1 list / -> ok nnnnnnnnnnnnnnnnnnnnnnnnnnnnnnnnnnnnnnnnnnnnnnnnnnnnnnnn=3\n",
    },
    Worked {
        versions: BOTH,
        script: b"1 create /a\n1 open /a\n2 read 0 0\n1 write 0 0 mine\n2 close 0\n1 read 0 0\n2 truncate 0 0\n",
        told: b"1 create /a -> ok 3\n1 open /a -> ok 0\n1 write 0 0 mine -> ok\n1 read 0 0 -> ok 6d696e65\n2 read 0 0 -> refused 17 BadHandle\n2 close 0 -> refused 17 BadHandle\n2 truncate 0 0 -> refused 17 BadHandle\n",
    },
    Worked {
        versions: BOTH,
        script: b"1 open /q\n1 create /a\n1 open /a\n1 read 0 0\n1 write 1 0 x\n1 read 1 0\n1 close 0\n1 close 1\n",
        told: b"1 open /q -> refused 7 NotFound\n1 create /a -> ok 3\n1 open /a -> ok 0\n1 read 0 0 -> refused 17 BadHandle\n1 write 1 0 x -> ok\n1 read 1 0 -> ok 78\n1 close 0 -> refused 17 BadHandle\n1 close 1 -> ok\n",
    },
    Worked {
        versions: BOTH,
        script: b"1 create /a\n1 open /a\n1 write 0 0 abc\n1 unlink /a\n1 read 0 0\n1 create /b\n1 close 0\n1 create /c\n",
        told: b"1 create /a -> ok 3\n1 open /a -> ok 0\n1 write 0 0 abc -> ok\n1 unlink /a -> ok\n1 read 0 0 -> ok 616263\n1 create /b -> ok 4\n1 close 0 -> ok\n1 create /c -> ok 3\n",
    },
    Worked {
        versions: &[SINGLE],
        script: b"1 create /a\n1 open /a\n1 write 0 1 x\n1 write 0 268 x\n1 write 0 0 x\n1 write 0 1 y\n1 write 0 0 yz\n1 read 0 0\n1 stat /a\n",
        told: b"1 create /a -> ok 3\n1 open /a -> ok 0\n1 write 0 1 x -> refused 18 BadIndex\n1 write 0 268 x -> refused 16 TooBig\n1 write 0 0 x -> ok\n1 write 0 1 y -> refused 18 BadIndex\n1 write 0 0 yz -> ok\n1 read 0 0 -> ok 797a\n1 stat /a -> ok number 3 file links 1 size 2\n",
    },
    Worked {
        versions: &[DOUBLE],
        script: b"1 create /a\n1 open /a\n1 write 0 1 x\n1 write 0 268 x\n1 write 0 65804 x\n1 write 0 0 x\n1 write 0 1 y\n1 write 0 0 yz\n1 read 0 0\n1 stat /a\n",
        told: b"1 create /a -> ok 3\n1 open /a -> ok 0\n1 write 0 1 x -> refused 18 BadIndex\n1 write 0 268 x -> refused 18 BadIndex\n1 write 0 65804 x -> refused 16 TooBig\n1 write 0 0 x -> ok\n1 write 0 1 y -> refused 18 BadIndex\n1 write 0 0 yz -> ok\n1 read 0 0 -> ok 797a\n1 stat /a -> ok number 3 file links 1 size 2\n",
    },
    Worked {
        versions: BOTH,
        script: b"1 create /f01\n1 create /f02\n1 create /f03\n1 create /f04\n1 create /f05\n1 create /f06\n1 create /f07\n1 create /f08\n1 create /f09\n1 create /f10\n1 create /f11\n1 create /f12\n1 create /f13\n1 create /f14\n1 link /f01 /l14\n1 stat /\n1 link /f01 /l15\n1 stat /\n1 stat /f01\n",
        told: b"1 create /f01 -> ok 3\n1 create /f02 -> ok 4\n1 create /f03 -> ok 5\n1 create /f04 -> ok 6\n1 create /f05 -> ok 7\n1 create /f06 -> ok 8\n1 create /f07 -> ok 9\n1 create /f08 -> ok 10\n1 create /f09 -> ok 11\n1 create /f10 -> ok 12\n1 create /f11 -> ok 13\n1 create /f12 -> ok 14\n1 create /f13 -> ok 15\n1 create /f14 -> refused 13 NoInode\n1 link /f01 /l14 -> ok\n1 stat / -> ok number 2 directory links 2 size 1024\n1 link /f01 /l15 -> ok\n1 stat / -> ok number 2 directory links 2 size 2048\n1 stat /f01 -> ok number 3 file links 3 size 0\n",
    },
    Worked {
        versions: BOTH,
        script: b"1 mkdir /d01\n1 mkdir /d02\n1 mkdir /d03\n1 mkdir /d04\n1 mkdir /d05\n1 mkdir /d06\n1 mkdir /d07\n1 mkdir /d08\n1 mkdir /d09\n1 mkdir /d10\n1 mkdir /d11\n1 mkdir /d12\n1 mkdir /d13\n1 create /f\n1 open /f\n1 write 0 0 x\n",
        told: b"1 mkdir /d01 -> ok 3\n1 mkdir /d02 -> ok 4\n1 mkdir /d03 -> ok 5\n1 mkdir /d04 -> ok 6\n1 mkdir /d05 -> ok 7\n1 mkdir /d06 -> ok 8\n1 mkdir /d07 -> ok 9\n1 mkdir /d08 -> ok 10\n1 mkdir /d09 -> ok 11\n1 mkdir /d10 -> ok 12\n1 mkdir /d11 -> ok 13\n1 mkdir /d12 -> ok 14\n1 mkdir /d13 -> refused 14 NoBlock\n1 create /f -> ok 15\n1 open /f -> ok 0\n1 write 0 0 x -> refused 14 NoBlock\n",
    },
    Worked {
        versions: BOTH,
        script: b"01 create /a\n1 open /a\n001 write 00 000 0\n1 read 00 0000000000\n",
        told: b"01 create /a -> ok 3\n1 open /a -> ok 0\n001 write 00 000 0 -> ok\n1 read 00 0000000000 -> ok 30\n",
    },
    Worked {
        versions: BOTH,
        script: b"2 stat /q\n1 create /a\n8 list /x\n2 list /x\n1 stat /a\n8 unlink /q\n",
        told: b"1 create /a -> ok 3\n1 stat /a -> ok number 3 file links 1 size 0\n2 stat /q -> refused 7 NotFound\n2 list /x -> refused 7 NotFound\n8 list /x -> refused 7 NotFound\n8 unlink /q -> refused 7 NotFound\n",
    },
    Worked {
        versions: BOTH,
        script: b"3 create /1\n3 rename /1 /2\n3 mkdir /1\n3 link /2 /1/2\n3 rename /1/2 /1/3\n3 unlink /2\n3 list /1\n3 rmdir /1\n3 unlink /1/3\n3 rmdir /1\n3 list /\n",
        told: b"3 create /1 -> ok 3\n3 rename /1 /2 -> ok\n3 mkdir /1 -> ok 4\n3 link /2 /1/2 -> ok\n3 rename /1/2 /1/3 -> ok\n3 unlink /2 -> ok\n3 list /1 -> ok 3=3\n3 rmdir /1 -> refused 11 NotEmpty\n3 unlink /1/3 -> ok\n3 rmdir /1 -> ok\n3 list / -> ok\n",
    },
    Worked {
        versions: BOTH,
        script: b"1 create /a\n1 attrs /a\n1 attr /a 46534131a4810000e803000064000000050000000600000000000000feffffffffffffff0a0000000b0000000c0000000d0000000e0000000f00000000000080\n1 link /a /b\n1 unlink /a\n1 attrs /b\n1 stat /b\n1 attr /a 46534131a4810000e803000064000000050000000600000000000000feffffffffffffff0a0000000b0000000c0000000d0000000e0000000f00000000000080\n1 attrs a\n1 attrs /\n1 attr / 46534131A4810000E803000064000000050000000600000000000000FEFFFFFFFFFFFFFF0A0000000B0000000C0000000D0000000E0000000F00000000000080\n1 attrs /\n1 unlink /b\n1 create /c\n1 attrs /c\n",
        told: b"1 create /a -> ok 3\n1 attrs /a -> ok 00000000000000000000000000000000000000000000000000000000000000000000000000000000000000000000000000000000000000000000000000000000\n1 attr /a 46534131a4810000e803000064000000050000000600000000000000feffffffffffffff0a0000000b0000000c0000000d0000000e0000000f00000000000080 -> ok\n1 link /a /b -> ok\n1 unlink /a -> ok\n1 attrs /b -> ok 46534131a4810000e803000064000000050000000600000000000000feffffffffffffff0a0000000b0000000c0000000d0000000e0000000f00000000000080\n1 stat /b -> ok number 3 file links 1 size 0\n1 attr /a 46534131a4810000e803000064000000050000000600000000000000feffffffffffffff0a0000000b0000000c0000000d0000000e0000000f00000000000080 -> refused 7 NotFound\n1 attrs a -> refused 12 BadName\n1 attrs / -> ok 00000000000000000000000000000000000000000000000000000000000000000000000000000000000000000000000000000000000000000000000000000000\n1 attr / 46534131A4810000E803000064000000050000000600000000000000FEFFFFFFFFFFFFFF0A0000000B0000000C0000000D0000000E0000000F00000000000080 -> ok\n1 attrs / -> ok 46534131a4810000e803000064000000050000000600000000000000feffffffffffffff0a0000000b0000000c0000000d0000000e0000000f00000000000080\n1 unlink /b -> ok\n1 create /c -> ok 3\n1 attrs /c -> ok 00000000000000000000000000000000000000000000000000000000000000000000000000000000000000000000000000000000000000000000000000000000\n",
    },
];
