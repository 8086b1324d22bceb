use super::*;
use crate::layout::put_u32;
use mdc_types::{Geometry, Role, Sector};
use std::process::Abort;
use std::test::Fail;

type Byte = (usize, u8);

// The bytes that aren't 0 of leg 0 of the array `demo`: two legs, 16 sectors, room 16, the zero uuid,
// events 1, both legs working, image version 1. The checksum isn't among them.
const DEMO: [Byte; 35] = [
    (0, 0xfc),
    (1, 0x4e),
    (2, 0x2b),
    (3, 0xa9),
    (4, 1),
    (8, 1),
    (32, b'd'),
    (33, b'e'),
    (34, b'm'),
    (35, b'o'),
    (72, 1),
    (80, 16),
    (92, 2),
    (96, 8),
    (128, 80),
    (136, 16),
    (144, 8),
    (160, 0),
    (183, 0),
    (200, 1),
    (220, 8),
    (256, 0),
    (258, 1),
    (260, 0xff),
    (261, 0xff),
    (262, 0xff),
    (263, 0xff),
    (264, 0xff),
    (265, 0xff),
    (266, 0xff),
    (267, 0xff),
    (268, 0xff),
    (269, 0xff),
    (270, 0xff),
    (271, 0xff),
];

fn edit(b: &mut Sector, bytes: &[Byte]) {
    for (at, byte) in bytes {
        if *at < 512 {
            b.bytes[*at] = *byte;
        }
    }
}

// `demo` with these bytes changed, and its checksum right.
fn forged(bytes: &[Byte], more: &[Byte]) -> Sector {
    let mut b = Sector::ZERO;
    edit(&mut b, &DEMO);
    edit(&mut b, bytes);
    edit(&mut b, more);
    let sum = sum_of(&b);
    put_u32(&mut b, 216, sum);
    b
}

fn assert_fault(rt: &impl Abort, b: &Sector, fault: SuperFault, line: usize) {
    assert_eq!(rt; read_super(b).err(), Some(fault), "line {line}");
}

// Device number, image version, the bytes that differ from `demo`, and the checksum.
const SUMS: [(u8, u8, [Byte; 4], u32); 4] = [
    (0, 1, [(160, 0), (183, 0), (128, 80), (129, 0)], 0x1899_b4ef),
    (1, 1, [(160, 1), (183, 1), (128, 80), (129, 0)], 0x1999_b4f0),
    (0, 2, [(160, 0), (183, 0), (128, 16), (129, 1)], 0x1899_b5af),
    (1, 2, [(160, 1), (183, 1), (128, 16), (129, 1)], 0x1999_b5b0),
];

#[test]
fn sums(rt: HostRuntime) -> Result<(), Fail> {
    for (device, version, bytes, sum) in SUMS {
        let b = forged(&bytes, &[]);
        assert_eq!(rt; sum_of(&b), sum, "device {device}, version {version}");
        let s = read_super(&b)?;
        assert_eq!(rt; (s.device, s.version, s.events), (device, version, 1));
        assert_eq!(rt; (s.geometry_legs, s.sectors, s.room), (2, 16, 16));
        assert_eq!(rt;
            (s.roles.legs[1], s.roles.legs[2]),
            (Role::Working, Role::Spare)
        );
        assert!(rt; write_super(&s) == b, "device {device}, version {version}");
    }
    Ok(())
}

// The state of `demo` is read of leg 0 alone, by the identity of `demo` alone, and written again.
#[test]
fn state_of_demo(rt: HostRuntime) -> Result<(), Fail> {
    let b = forged(&[], &[]);
    let s = read_super(&b)?;
    let demo = Identity {
        geometry: Geometry::new(2, 16, 4)?,
        name: s.name,
        uuid: s.uuid,
    };
    let state = ArrayState {
        events: 1,
        roles: s.roles,
        size: 16,
    };
    let mut others = [demo; 4];
    others[0].geometry = Geometry::new(3, 16, 4)?;
    others[1].geometry = Geometry::second(2, 16, 16, 4)?;
    others[2].name[0] = b'D';
    others[3].uuid[0] = 1;
    for (line, other) in others.iter().enumerate() {
        assert_eq!(rt; other.read(0, &b), None, "line {line}");
    }
    assert_eq!(rt; demo.read(1, &b), None);
    let found = demo.read(0, &b);
    assert_eq!(rt; found, Some(state));
    if let Some(state) = found {
        assert!(rt; demo.write(0, &state) == b);
    }
    Ok(())
}

const SAME: Byte = (0, 0xfc);

// Bytes that are changed, and the fault, in the order in which faults are tried. The checksum is right.
const FORGED: [([Byte; 4], SuperFault); 26] = [
    ([(72, 5), SAME, SAME, SAME], SuperFault::Level(5)),
    (
        [(8, 3), SAME, SAME, SAME],
        SuperFault::Range(Field::FeatureMap),
    ),
    (
        [(32, b'-'), SAME, SAME, SAME],
        SuperFault::Range(Field::Name),
    ),
    ([(32, 0), SAME, SAME, SAME], SuperFault::Range(Field::Name)),
    (
        [(40, b'x'), SAME, SAME, SAME],
        SuperFault::Range(Field::Name),
    ),
    ([(80, 0), SAME, SAME, SAME], SuperFault::Range(Field::Size)),
    ([(82, 3), SAME, SAME, SAME], SuperFault::Range(Field::Size)),
    (
        [(92, 1), SAME, SAME, SAME],
        SuperFault::Range(Field::RaidDisks),
    ),
    (
        [(92, 9), SAME, SAME, SAME],
        SuperFault::Range(Field::RaidDisks),
    ),
    (
        [(96, 9), SAME, SAME, SAME],
        SuperFault::Range(Field::BitmapOffset),
    ),
    (
        [(128, 81), SAME, SAME, SAME],
        SuperFault::Range(Field::DataOffset),
    ),
    (
        [(136, 15), SAME, SAME, SAME],
        SuperFault::Range(Field::DataSize),
    ),
    (
        [(138, 3), SAME, SAME, SAME],
        SuperFault::Range(Field::DataSize),
    ),
    (
        [(144, 9), SAME, SAME, SAME],
        SuperFault::Range(Field::SuperblockOffset),
    ),
    (
        [(160, 2), SAME, SAME, SAME],
        SuperFault::Range(Field::DeviceNumber),
    ),
    (
        [(183, 1), SAME, SAME, SAME],
        SuperFault::Range(Field::DeviceUuid),
    ),
    (
        [(200, 0), SAME, SAME, SAME],
        SuperFault::Range(Field::Events),
    ),
    (
        [(207, 0x80), SAME, SAME, SAME],
        SuperFault::Range(Field::Events),
    ),
    (
        [(220, 9), SAME, SAME, SAME],
        SuperFault::Range(Field::MaxDev),
    ),
    ([(12, 1), SAME, SAME, SAME], SuperFault::Range(Field::Rest)),
    ([(272, 1), SAME, SAME, SAME], SuperFault::Range(Field::Rest)),
    ([(511, 1), SAME, SAME, SAME], SuperFault::Range(Field::Rest)),
    ([(256, 2), SAME, SAME, SAME], SuperFault::Role(0)),
    ([(258, 2), SAME, SAME, SAME], SuperFault::Role(1)),
    ([(262, 3), (263, 0), SAME, SAME], SuperFault::Role(3)),
    (
        [(256, 0xfe), (257, 0xff), (258, 1), (259, 0x80)],
        SuperFault::Role(8),
    ),
];

#[test]
fn each_fault(rt: HostRuntime) {
    for (line, (bytes, fault)) in FORGED.iter().enumerate() {
        assert_fault(&rt, &forged(bytes, &[]), *fault, line);
    }
}

// Of two faults the earlier one is told.
#[test]
fn first_of_two(rt: HostRuntime) {
    for (line, (bytes, fault)) in FORGED[..22].iter().enumerate() {
        for (later, other) in &FORGED[line + 1..] {
            if other != fault {
                assert_fault(&rt, &forged(later, bytes), *fault, line);
            }
        }
    }
}

// The magic number and the version are tried before the checksum, and it before the level.
#[test]
fn checksum_between(rt: HostRuntime) {
    let good = 0x1899_b4ef;
    for (line, (at, byte, fault)) in [
        (0, 0xfd, SuperFault::Magic(0xa92b_4efd)),
        (4, 2, SuperFault::Version(2)),
        (
            216,
            0,
            SuperFault::Sum {
                stored: 0x1899_b400,
                found: good,
            },
        ),
        (
            72,
            5,
            SuperFault::Sum {
                stored: good,
                found: 0x1899_b4f3,
            },
        ),
    ]
    .iter()
    .enumerate()
    {
        let mut b = forged(&[], &[]);
        edit(&mut b, &[(*at, *byte)]);
        assert_fault(&rt, &b, *fault, line);
    }
    let mut b = forged(&[], &[]);
    edit(&mut b, &[(4, 2), (0, 0xfd)]);
    assert_fault(&rt, &b, SuperFault::Magic(0xa92b_4efd), 4);
}

#[test]
fn words(rt: HostRuntime) {
    assert_eq!(rt; Field::Size.word(), "size-in-sectors");
    assert_eq!(rt; Field::MaxDev.word(), "max_dev");
}
