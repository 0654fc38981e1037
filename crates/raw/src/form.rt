// The raw form of oracle/FORMAT.md by value: what reads itself from the fields of a body, whether it
// has a default or none. The programs fill a value where it lies (`RawPlace`), and only the tests go
// by this: it stays for callers in Rust, who have types of their own.
use crate::fields::Fields;
use crate::place::RawPlace;
use crate::room::Room;
use identity::identity::VoterSlotIdentity;
use records::records::*;

// What has a raw form: read from the fields of a body, none where they are not of the form, and
// written the same way.
pub trait Raw: Sized {
    fn read(fields: &mut Fields) -> Option<Self>;

    fn write(&self, room: &mut Room);
}

// One place after another. There is a first one: no array of these records is empty. The array is
// filled by hand, since a closure that the library makes one by cannot pass on the `?` of a field.
impl<T: Raw + Copy, const N: usize> Raw for [T; N] {
    fn read(fields: &mut Fields) -> Option<[T; N]> {
        let mut places = [T::read(fields)?; N];
        for place in places.iter_mut().skip(1) {
            *place = T::read(fields)?;
        }
        Some(places)
    }

    fn write(&self, room: &mut Room) {
        for place in self {
            Raw::write(place, room);
        }
    }
}

// Each of the others is filled where it lies. There is an `impl` for each, since one for every
// `RawPlace` would stand in the way of that of an array.
impl Raw for u8 {
    fn read(fields: &mut Fields) -> Option<u8> {
        RawPlace::read(fields)
    }

    fn write(&self, room: &mut Room) {
        RawPlace::write(self, room);
    }
}

impl Raw for u16 {
    fn read(fields: &mut Fields) -> Option<u16> {
        RawPlace::read(fields)
    }

    fn write(&self, room: &mut Room) {
        RawPlace::write(self, room);
    }
}

impl Raw for u64 {
    fn read(fields: &mut Fields) -> Option<u64> {
        RawPlace::read(fields)
    }

    fn write(&self, room: &mut Room) {
        RawPlace::write(self, room);
    }
}

impl Raw for bool {
    fn read(fields: &mut Fields) -> Option<bool> {
        RawPlace::read(fields)
    }

    fn write(&self, room: &mut Room) {
        RawPlace::write(self, room);
    }
}

impl Raw for VoterSlotTable {
    fn read(fields: &mut Fields) -> Option<VoterSlotTable> {
        RawPlace::read(fields)
    }

    fn write(&self, room: &mut Room) {
        RawPlace::write(self, room);
    }
}

impl Raw for VoterSlotRecord {
    fn read(fields: &mut Fields) -> Option<VoterSlotRecord> {
        RawPlace::read(fields)
    }

    fn write(&self, room: &mut Room) {
        RawPlace::write(self, room);
    }
}

impl Raw for VoterSlotMember {
    fn read(fields: &mut Fields) -> Option<VoterSlotMember> {
        RawPlace::read(fields)
    }

    fn write(&self, room: &mut Room) {
        RawPlace::write(self, room);
    }
}

impl Raw for VoterSlotIdentity {
    fn read(fields: &mut Fields) -> Option<VoterSlotIdentity> {
        RawPlace::read(fields)
    }

    fn write(&self, room: &mut Room) {
        RawPlace::write(self, room);
    }
}

impl Raw for VoterReplacementResult {
    fn read(fields: &mut Fields) -> Option<VoterReplacementResult> {
        RawPlace::read(fields)
    }

    fn write(&self, room: &mut Room) {
        RawPlace::write(self, room);
    }
}

impl Raw for VoterReplacementRecord {
    fn read(fields: &mut Fields) -> Option<VoterReplacementRecord> {
        RawPlace::read(fields)
    }

    fn write(&self, room: &mut Room) {
        RawPlace::write(self, room);
    }
}

impl Raw for LostVoterAttestationV1 {
    fn read(fields: &mut Fields) -> Option<LostVoterAttestationV1> {
        RawPlace::read(fields)
    }

    fn write(&self, room: &mut Room) {
        RawPlace::write(self, room);
    }
}

impl Raw for VoterConfiguration {
    fn read(fields: &mut Fields) -> Option<VoterConfiguration> {
        RawPlace::read(fields)
    }

    fn write(&self, room: &mut Room) {
        RawPlace::write(self, room);
    }
}

impl Raw for VoterReplacementEvidence {
    fn read(fields: &mut Fields) -> Option<VoterReplacementEvidence> {
        RawPlace::read(fields)
    }

    fn write(&self, room: &mut Room) {
        RawPlace::write(self, room);
    }
}

impl Raw for VoterSnapshotEvidence {
    fn read(fields: &mut Fields) -> Option<VoterSnapshotEvidence> {
        RawPlace::read(fields)
    }

    fn write(&self, room: &mut Room) {
        RawPlace::write(self, room);
    }
}

impl Raw for SnapshotId {
    fn read(fields: &mut Fields) -> Option<SnapshotId> {
        RawPlace::read(fields)
    }

    fn write(&self, room: &mut Room) {
        RawPlace::write(self, room);
    }
}

impl Raw for SpiffeId {
    fn read(fields: &mut Fields) -> Option<SpiffeId> {
        RawPlace::read(fields)
    }

    fn write(&self, room: &mut Room) {
        RawPlace::write(self, room);
    }
}

impl Raw for OptionalLogId {
    fn read(fields: &mut Fields) -> Option<OptionalLogId> {
        RawPlace::read(fields)
    }

    fn write(&self, room: &mut Room) {
        RawPlace::write(self, room);
    }
}

impl Raw for VoterSlotLogId {
    fn read(fields: &mut Fields) -> Option<VoterSlotLogId> {
        RawPlace::read(fields)
    }

    fn write(&self, room: &mut Room) {
        RawPlace::write(self, room);
    }
}

#[cfg(test)]
mod tests {
    use super::*;
    use crate::crc::crc32;
    use crate::table::{TABLE_SIZE, raw_checksum};

    // A caller's own type, which reads and writes itself and has no default.
    #[derive(Clone, Copy, Drop)]
    struct Digits {
        first: u8,
        second: u16,
    }

    impl Raw for Digits {
        fn read(fields: &mut Fields) -> Option<Digits> {
            Some(Digits {
                first: Raw::read(fields)?,
                second: Raw::read(fields)?,
            })
        }

        fn write(&self, room: &mut Room) {
            Raw::write(&self.first, room);
            Raw::write(&self.second, room);
        }
    }

    // Whether so many bytes are read to their end and written again, with nothing after them, and one
    // less is none. Each of them is 0 or 1, as a flag is, and fields side by side differ. A 2, which no
    // field writes, stands after them.
    fn takes<T: Raw + Drop>(size: usize) -> bool {
        let mut bytes = [2; TABLE_SIZE + 1];
        for (i, byte) in bytes.iter_mut().enumerate().take(size) {
            *byte = u8::from(i % 13 < 7);
        }
        let (Some(body), Some(longer)) = (bytes.get(..size), bytes.get(..=size)) else {
            return false;
        };
        let Some((_, short)) = body.split_last() else {
            return false;
        };
        let mut fields = Fields::of(body);
        let Some(value) = T::read(&mut fields) else {
            return false;
        };
        let none = T::read(&mut Fields::of(short)).is_none();
        let mut again = [2; TABLE_SIZE + 1];
        let Some(place) = again.get_mut(..=size) else {
            return false;
        };
        let same = raw_checksum(&value, place) == u64::from(crc32(longer));
        none & fields.end().is_some() & same
    }

    // The sizes are those of oracle/FORMAT.md.
    #[test]
    fn each_is_read_by_value_and_written_again(rt: HostRuntime) {
        assert!(rt; takes::<u8>(1));
        assert!(rt; takes::<u16>(2));
        assert!(rt; takes::<u64>(8));
        assert!(rt; takes::<bool>(1));
        assert!(rt; takes::<[u8; 32]>(32));
        assert!(rt; takes::<VoterSlotLogId>(16));
        assert!(rt; takes::<OptionalLogId>(17));
        assert!(rt; takes::<SnapshotId>(258));
        assert!(rt; takes::<SpiffeId>(2050));
        assert!(rt; takes::<VoterSnapshotEvidence>(306));
        assert!(rt; takes::<VoterReplacementEvidence>(425));
        assert!(rt; takes::<VoterConfiguration>(747));
        assert!(rt; takes::<LostVoterAttestationV1>(4423));
        assert!(rt; takes::<VoterReplacementRecord>(6351));
        assert!(rt; takes::<VoterReplacementResult>(89));
        assert!(rt; takes::<VoterSlotIdentity>(10));
        assert!(rt; takes::<VoterSlotMember>(82));
        assert!(rt; takes::<VoterSlotRecord>(181));
        assert!(rt; takes::<VoterSlotTable>(8062));
    }

    // The checksum of these nine digits is the check value that CRC-32 is published with.
    #[test]
    fn a_caller_s_type_is_read_by_value(rt: HostRuntime) {
        let digits = <[Digits; 3]>::read(&mut Fields::of(b"123456789")).unwrap_or([Digits {
            first: 0,
            second: 0,
        }; 3]);
        assert_eq!(rt; raw_checksum(&digits, &mut [0; 9]), 0xCBF43926);
    }
}
