//! Single numbers as records.
ghost use Rattle.std.specs.Prelude.{◌≡◌};
ghost use Rattle.byteorder.specs.Endian.{little_bytes};
ghost use Rattle.ig_faces.specs.Records.{number_in};

use crate::Record;
use byteorder::{ByteOrder, LittleEndian};

impl Record for u32 {
    ghost EACH = { 4 };

    ghost read = { λ bytes. number_in 4 bytes };

    ghost text = { λ number. little_bytes 4 number };

    const EACH: usize = 4;

    fn read_from(bytes: &[u8]) -> u32 {
        LittleEndian::read_u32(bytes)
    }

    fn write_to(self, bytes: &mut [u8]) {
        LittleEndian::write_u32(bytes, self);
    }
}

impl Record for u64 {
    ghost EACH = { 8 };

    ghost read = { λ bytes. number_in 8 bytes };

    ghost text = { λ number. little_bytes 8 number };

    const EACH: usize = 8;

    fn read_from(bytes: &[u8]) -> u64 {
        LittleEndian::read_u64(bytes)
    }

    fn write_to(self, bytes: &mut [u8]) {
        LittleEndian::write_u64(bytes, self);
    }
}
