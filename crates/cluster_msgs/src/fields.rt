ghost use Rattle.std.specs.Prelude.{◌≡◌, length, ◌++◌};
ghost use Rattle.std.specs.List.{flat_map};
ghost use Rattle.byteorder.specs.Endian.{little_bytes};
ghost use Rattle.cluster_msgs.specs.Layout.{layout};
ghost use Rattle.cluster_msgs.specs.Reading.{fields_in};

use byteorder::{ByteOrder, LittleEndian};

// What stands in the fields of a message block. A field that the kind doesn't use is 0.
#[derive(Clone, Copy)]
pub(crate) struct Fields {
    pub kind: u32,
    pub slot: u32,
    // The events number, or the first sector of a range.
    pub first: u64,
    // The size, or the first sector past a range.
    pub second: u64,
    pub leg: u32,
    pub uuid: [u8; 16],
    pub roles: [u16; 8],
}

fn put_arrays(out: &mut [u8], uuid: &[u8; 16], roles: &[u16; 8])
    requires { length out.old ≡ 32 }
    ensures { out.new ≡ uuid.now ++ flat_map (little_bytes 2) roles.now }
{
    out[..16].copy_from_slice(uuid);
    LittleEndian::write_u16_into(roles, &mut out[16..]);
}

fn put_leg(out: &mut [u8], f: &Fields)
    requires { length out.old ≡ 40 }
    ensures { out.new ≡ little_bytes 4 f.now.leg ++ (little_bytes 4 0 ++ (f.now.uuid ++ flat_map (little_bytes 2) f.now.roles)) }
{
    LittleEndian::write_u32(out, f.leg);
    LittleEndian::write_u32(&mut out[4..], 0);
    put_arrays(&mut out[8..], &f.uuid, &f.roles);
}

fn put_numbers(out: &mut [u8], f: &Fields)
    requires { length out.old ≡ 56 }
    ensures { out.new ≡ little_bytes 8 f.now.first ++ (little_bytes 8 f.now.second ++ (little_bytes 4 f.now.leg ++ (little_bytes 4 0 ++ (f.now.uuid ++ flat_map (little_bytes 2) f.now.roles)))) }
{
    LittleEndian::write_u64(out, f.first);
    LittleEndian::write_u64(&mut out[8..], f.second);
    put_leg(&mut out[16..], f);
}

impl Fields {
    // The 64 bytes with these fields.
    #[tactic(auto, unfolding(crate::specs::Layout::layout))]
    pub(crate) fn write(&self) -> [u8; 64]
        ensures { result ≡ layout self.now }
    {
        let mut bytes = [0; 64];
        LittleEndian::write_u32(&mut bytes[0..], self.kind);
        LittleEndian::write_u32(&mut bytes[4..], self.slot);
        put_numbers(&mut bytes[8..], self);
        bytes
    }

    // The fields in the 64 bytes. Bytes 28 to 31 are in none.
    pub(crate) fn read(bytes: &[u8; 64]) -> Fields
        ensures { result ≡ fields_in bytes.now }
    {
        let mut uuid = [0; 16];
        uuid.copy_from_slice(&bytes[32..48]);
        let mut roles = [0; 8];
        LittleEndian::read_u16_into(&bytes[48..], &mut roles);
        Fields {
            kind: LittleEndian::read_u32(&bytes[0..]),
            slot: LittleEndian::read_u32(&bytes[4..]),
            first: LittleEndian::read_u64(&bytes[8..]),
            second: LittleEndian::read_u64(&bytes[16..]),
            leg: LittleEndian::read_u32(&bytes[24..]),
            uuid,
            roles,
        }
    }
}
