use crate::{Body, Msg, read_msg, read_range, write_msg, write_range};
use byteorder::{ByteOrder, LittleEndian};
use dlm_modes::Block;
use mdc_types::{Range, Role, Roles};

const ONE_WORKING: Roles = Roles {
    legs: [
        Role::Working,
        Role::Faulty,
        Role::Spare,
        Role::Spare,
        Role::Spare,
        Role::Spare,
        Role::Spare,
        Role::Spare,
    ],
};

const REBUILDING: Roles = Roles {
    legs: [
        Role::Rebuilding,
        Role::Spare,
        Role::Working,
        Role::Rebuilding,
        Role::Faulty,
        Role::Spare,
        Role::Spare,
        Role::Rebuilding,
    ],
};

// METADATA_UPDATED of node 0: events 2, size 16, and one working leg, a faulty one, and spares.
const UPDATED: [u8; 64] = [
    0, 0, 0, 0, 0, 0, 0, 0, //
    2, 0, 0, 0, 0, 0, 0, 0, //
    0x10, 0, 0, 0, 0, 0, 0, 0, //
    0, 0, 0, 0, 0, 0, 0, 0, //
    0, 0, 0, 0, 0, 0, 0, 0, //
    0, 0, 0, 0, 0, 0, 0, 0, //
    0, 0, 0xfe, 0xff, 0xff, 0xff, 0xff, 0xff, //
    0xff, 0xff, 0xff, 0xff, 0xff, 0xff, 0xff, 0xff,
];

const UUID: [u8; 16] = [1, 2, 3, 4, 5, 6, 7, 8, 9, 10, 11, 12, 13, 14, 15, 16];

// The block of eight words, little endian.
fn block(words: &[u64; 8]) -> Block {
    let mut bytes = [0; 64];
    LittleEndian::write_u64_into(words, &mut bytes);
    Block { bytes }
}

#[test]
fn bytes_of_one(rt: HostRuntime) {
    let m = Msg {
        slot: 0,
        body: Body::Metadata {
            events: 2,
            roles: ONE_WORKING,
            size: 16,
        },
    };
    assert!(rt; m.is_in_range());
    assert_eq!(rt; write_msg(&m), Block { bytes: UPDATED });
    assert_eq!(rt; read_msg(&Block { bytes: UPDATED }), Some(m));
}

#[test]
fn one_of_each_kind(rt: HostRuntime) {
    let state = Body::Capacity {
        events: 1 << 63,
        roles: REBUILDING,
        size: 131_072,
    };
    let none = Range { lo: 0, hi: 0 };
    let some = Range { lo: 8, hi: 24 };
    for (slot, body, words) in [
        (
            3,
            Body::Resyncing(some),
            [0x3_0000_0001, 8, 24, 0, 0, 0, 0, 0],
        ),
        (
            7,
            Body::Resyncing(none),
            [0x7_0000_0001, 0, 0, 0, 0, 0, 0, 0],
        ),
        (
            1,
            Body::NewDisk { leg: 7, uuid: UUID },
            [
                0x1_0000_0002,
                0,
                0,
                7,
                0x0807_0605_0403_0201,
                0x100f_0e0d_0c0b_0a09,
                0,
                0,
            ],
        ),
        (0, Body::Remove { leg: 1 }, [3, 0, 0, 1, 0, 0, 0, 0]),
        (
            2,
            Body::ReAdd { leg: 2 },
            [0x2_0000_0004, 0, 0, 2, 0, 0, 0, 0],
        ),
        (9, Body::NeedsSync, [0x9_0000_0005, 0, 0, 0, 0, 0, 0, 0]),
        (
            15,
            state,
            [
                0xf_0000_0006,
                1 << 63,
                131_072,
                0,
                0,
                0,
                0x8003_0002_ffff_8000,
                0x8007_ffff_ffff_fffe,
            ],
        ),
    ] {
        let m = Msg { slot, body };
        assert!(rt; m.is_in_range());
        assert_eq!(rt; write_msg(&m), block(&words), "kind {}", m.kind());
        assert_eq!(rt; read_msg(&block(&words)), Some(m), "kind {}", m.kind());
    }
}

#[test]
fn no_messages(rt: HostRuntime) {
    let (a, b) = (0xffff_ffff_fffe_0000, u64::MAX);
    for (line, words) in [
        [u64::MAX; 8],
        // No kind, no slot.
        [7, 0, 0, 0, 0, 0, 0, 0],
        [0x10_0000_0005, 0, 0, 0, 0, 0, 0, 0],
        // Events, size and roles out of their ranges.
        [0, 0, 16, 0, 0, 0, a, b],
        [0, (1 << 63) + 1, 16, 0, 0, 0, a, b],
        [0, 2, 0, 0, 0, 0, a, b],
        [6, 2, 131_073, 0, 0, 0, a, b],
        [0, 2, 16, 0, 0, 0, 0xffff_ffff_fffe_8000, b],
        [0, 2, 16, 0, 0, 0, 0xffff_ffff_fffe_0001, b],
        // Ranges and legs out of theirs.
        [1, 8, 8, 0, 0, 0, 0, 0],
        [1, 8, 0, 0, 0, 0, 0, 0],
        [1, 8, 131_073, 0, 0, 0, 0, 0],
        [1, 8, 0x1_0000_0010, 0, 0, 0, 0, 0],
        [2, 0, 0, 8, 0, 0, 0, 0],
        [3, 0, 0, 0x101, 0, 0, 0, 0],
        // A byte that the kind doesn't use.
        [0, 2, 16, 0, 1, 0, a, b],
        [1, 8, 24, 1, 0, 0, 0, 0],
        [2, 1, 0, 7, 0, 0, 0, 0],
        [3, 0, 0, 1, 0, 1 << 63, 0, 0],
        [4, 0, 1, 2, 0, 0, 0, 0],
        [5, 0, 0, 0x1_0000_0000, 0, 0, 0, 0],
        [6, 2, 16, 1, 0, 0, a, b],
    ]
    .iter()
    .enumerate()
    {
        assert_eq!(rt; read_msg(&block(words)), None, "line {line}");
    }
}

#[test]
fn range_blocks(rt: HostRuntime) {
    for (lo, hi, third, range) in [
        (0, 0, 0, Some(Range { lo: 0, hi: 0 })),
        (0, 131_072, 0, Some(Range { lo: 0, hi: 131_072 })),
        (8, 24, 0, Some(Range { lo: 8, hi: 24 })),
        (8, 24, 1, None),
        (8, 8, 0, None),
        (8, 0, 0, None),
        (0, 131_073, 0, None),
        (0x1_0000_0000, 24, 0, None),
    ] {
        let block = block(&[lo, hi, third, 0, 0, 0, 0, 0]);
        assert_eq!(rt; read_range(&block), range, "{lo} {hi} {third}");
        if let Some(r) = read_range(&block) {
            assert_eq!(rt; write_range(r), block);
        }
    }
}
