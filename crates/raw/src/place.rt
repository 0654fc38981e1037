// The raw form of oracle/FORMAT.md, record by record: the fields in the order of the struct, each at
// its full width. Each record has its `impl` by hand, field by field: `rt verdict` refuses one that a
// macro or a derive of this repository writes.
//
// A caller's own type may be `Raw` in place of this (form.rt): it needs no default for that.
use crate::fields::Fields;
use crate::room::Room;
use identity::identity::VoterSlotIdentity;
use records::records::*;

// What has a raw form: filled from the fields of a body, and written the same way. It is none where
// they are not of the form. A value is filled where it lies: an `Option` with a table in it would be
// copied at each `?`.
pub trait RawPlace: Sized {
    fn fill(&mut self, fields: &mut Fields) -> Option<()>;

    fn write(&self, room: &mut Room);

    // The same by value, for the small ones.
    fn read(fields: &mut Fields) -> Option<Self>
    where
        Self: Default + Drop,
    {
        let mut value = Self::default();
        value.fill(fields)?;
        Some(value)
    }
}

// There is an `impl` for each type of number, since the library has no trait of all of them.
impl RawPlace for u8 {
    fn fill(&mut self, fields: &mut Fields) -> Option<()> {
        *self = fields.u8()?;
        Some(())
    }

    fn write(&self, room: &mut Room) {
        room.bytes(&[*self]);
    }
}

impl RawPlace for u16 {
    fn fill(&mut self, fields: &mut Fields) -> Option<()> {
        *self = fields.u16()?;
        Some(())
    }

    fn write(&self, room: &mut Room) {
        room.bytes(&self.to_be_bytes());
    }
}

impl RawPlace for u64 {
    fn fill(&mut self, fields: &mut Fields) -> Option<()> {
        *self = fields.u64()?;
        Some(())
    }

    fn write(&self, room: &mut Room) {
        room.bytes(&self.to_be_bytes());
    }
}

impl RawPlace for bool {
    fn fill(&mut self, fields: &mut Fields) -> Option<()> {
        *self = fields.flag()?;
        Some(())
    }

    fn write(&self, room: &mut Room) {
        u8::from(*self).write(room);
    }
}

// One place after another. Bytes are filled by `bytes` of the fields, all at once.
impl<T: RawPlace, const N: usize> RawPlace for [T; N] {
    fn fill(&mut self, fields: &mut Fields) -> Option<()> {
        for place in self {
            place.fill(fields)?;
        }
        Some(())
    }

    fn write(&self, room: &mut Room) {
        for place in self {
            place.write(room);
        }
    }
}

impl RawPlace for VoterSlotTable {
    fn fill(&mut self, fields: &mut Fields) -> Option<()> {
        fields.bytes(&mut self.cluster_instance)?;
        fields.bytes(&mut self.manifest_digest)?;
        self.revision.fill(fields)?;
        self.configuration_epoch.fill(fields)?;
        self.slots.fill(fields)?;
        self.count = usize::from(fields.u8()?);
        self.has_replacement.fill(fields)?;
        self.replacement.fill(fields)
    }

    fn write(&self, room: &mut Room) {
        self.cluster_instance.write(room);
        self.manifest_digest.write(room);
        self.revision.write(room);
        self.configuration_epoch.write(room);
        self.slots.write(room);
        room.count(self.count);
        self.has_replacement.write(room);
        self.replacement.write(room);
    }
}

impl RawPlace for VoterSlotRecord {
    fn fill(&mut self, fields: &mut Fields) -> Option<()> {
        self.member.fill(fields)?;
        self.retired_through.fill(fields)?;
        self.phase.fill(fields)?;
        self.has_last_result.fill(fields)?;
        self.last_result.fill(fields)
    }

    fn write(&self, room: &mut Room) {
        self.member.write(room);
        self.retired_through.write(room);
        self.phase.write(room);
        self.has_last_result.write(room);
        self.last_result.write(room);
    }
}

impl RawPlace for VoterSlotMember {
    fn fill(&mut self, fields: &mut Fields) -> Option<()> {
        self.identity.fill(fields)?;
        fields.bytes(&mut self.key_digest)?;
        fields.bytes(&mut self.descriptor_digest)?;
        self.admission_generation.fill(fields)
    }

    fn write(&self, room: &mut Room) {
        self.identity.write(room);
        self.key_digest.write(room);
        self.descriptor_digest.write(room);
        self.admission_generation.write(room);
    }
}

impl RawPlace for VoterSlotIdentity {
    fn fill(&mut self, fields: &mut Fields) -> Option<()> {
        self.slot.fill(fields)?;
        self.incarnation.fill(fields)
    }

    fn write(&self, room: &mut Room) {
        self.slot.write(room);
        self.incarnation.write(room);
    }
}

impl RawPlace for VoterReplacementResult {
    fn fill(&mut self, fields: &mut Fields) -> Option<()> {
        fields.bytes(&mut self.request_id)?;
        fields.bytes(&mut self.request_digest)?;
        self.incarnation.fill(fields)?;
        self.revision.fill(fields)?;
        self.configuration_epoch.fill(fields)?;
        self.kind.fill(fields)?;
        self.terminal.fill(fields)
    }

    fn write(&self, room: &mut Room) {
        self.request_id.write(room);
        self.request_digest.write(room);
        self.incarnation.write(room);
        self.revision.write(room);
        self.configuration_epoch.write(room);
        self.kind.write(room);
        self.terminal.write(room);
    }
}

impl RawPlace for VoterReplacementRecord {
    fn fill(&mut self, fields: &mut Fields) -> Option<()> {
        self.expected_revision.fill(fields)?;
        self.attestation.fill(fields)?;
        self.predecessor.fill(fields)?;
        self.successor.fill(fields)?;
        self.phase.fill(fields)?;
        self.evidence.fill(fields)
    }

    fn write(&self, room: &mut Room) {
        self.expected_revision.write(room);
        self.attestation.write(room);
        self.predecessor.write(room);
        self.successor.write(room);
        self.phase.write(room);
        self.evidence.write(room);
    }
}

impl RawPlace for LostVoterAttestationV1 {
    fn fill(&mut self, fields: &mut Fields) -> Option<()> {
        fields.bytes(&mut self.request_id)?;
        fields.bytes(&mut self.request_digest)?;
        fields.bytes(&mut self.cluster_instance)?;
        self.slot.fill(fields)?;
        self.expected_incarnation.fill(fields)?;
        fields.bytes(&mut self.old_descriptor_digest)?;
        fields.bytes(&mut self.candidate_key_digest)?;
        self.admission_generation.fill(fields)?;
        self.candidate_spiffe_id.fill(fields)?;
        self.controller_spiffe_id.fill(fields)?;
        fields.bytes(&mut self.signing_key_digest)?;
        self.reason.fill(fields)?;
        fields.bytes(&mut self.policy_digest)?;
        self.observation_start_ms.fill(fields)?;
        self.decision_ms.fill(fields)?;
        self.issued_ms.fill(fields)?;
        self.expires_ms.fill(fields)?;
        fields.bytes(&mut self.signature)
    }

    fn write(&self, room: &mut Room) {
        self.request_id.write(room);
        self.request_digest.write(room);
        self.cluster_instance.write(room);
        self.slot.write(room);
        self.expected_incarnation.write(room);
        self.old_descriptor_digest.write(room);
        self.candidate_key_digest.write(room);
        self.admission_generation.write(room);
        self.candidate_spiffe_id.write(room);
        self.controller_spiffe_id.write(room);
        self.signing_key_digest.write(room);
        self.reason.write(room);
        self.policy_digest.write(room);
        self.observation_start_ms.write(room);
        self.decision_ms.write(room);
        self.issued_ms.write(room);
        self.expires_ms.write(room);
        self.signature.write(room);
    }
}

impl RawPlace for VoterConfiguration {
    fn fill(&mut self, fields: &mut Fields) -> Option<()> {
        self.epoch.fill(fields)?;
        self.members.fill(fields)?;
        self.count = usize::from(fields.u8()?);
        Some(())
    }

    fn write(&self, room: &mut Room) {
        self.epoch.write(room);
        self.members.write(room);
        room.count(self.count);
    }
}

impl RawPlace for VoterReplacementEvidence {
    fn fill(&mut self, fields: &mut Fields) -> Option<()> {
        self.prepare.fill(fields)?;
        self.has_snapshot.fill(fields)?;
        self.snapshot.fill(fields)?;
        self.learner.fill(fields)?;
        self.caught_up.fill(fields)?;
        self.continuation.fill(fields)?;
        self.fence.fill(fields)?;
        self.joint.fill(fields)?;
        self.uniform.fill(fields)
    }

    fn write(&self, room: &mut Room) {
        self.prepare.write(room);
        self.has_snapshot.write(room);
        self.snapshot.write(room);
        self.learner.write(room);
        self.caught_up.write(room);
        self.continuation.write(room);
        self.fence.write(room);
        self.joint.write(room);
        self.uniform.write(room);
    }
}

impl RawPlace for VoterSnapshotEvidence {
    fn fill(&mut self, fields: &mut Fields) -> Option<()> {
        self.cut.fill(fields)?;
        self.snapshot_id.fill(fields)?;
        fields.bytes(&mut self.digest)
    }

    fn write(&self, room: &mut Room) {
        self.cut.write(room);
        self.snapshot_id.write(room);
        self.digest.write(room);
    }
}

// A length, which may be more than its place holds, and the place.
impl RawPlace for SnapshotId {
    fn fill(&mut self, fields: &mut Fields) -> Option<()> {
        self.len = usize::from(fields.u16()?);
        fields.bytes(&mut self.bytes)
    }

    fn write(&self, room: &mut Room) {
        room.length(self.len);
        self.bytes.write(room);
    }
}

// A name is read and written as the id of a snapshot is: its length may be more than its place holds.
impl RawPlace for SpiffeId {
    fn fill(&mut self, fields: &mut Fields) -> Option<()> {
        self.len = usize::from(fields.u16()?);
        fields.bytes(&mut self.bytes)
    }

    fn write(&self, room: &mut Room) {
        room.length(self.len);
        self.bytes.write(room);
    }
}

impl RawPlace for OptionalLogId {
    fn fill(&mut self, fields: &mut Fields) -> Option<()> {
        self.is_some.fill(fields)?;
        self.cut.fill(fields)
    }

    fn write(&self, room: &mut Room) {
        self.is_some.write(room);
        self.cut.write(room);
    }
}

impl RawPlace for VoterSlotLogId {
    fn fill(&mut self, fields: &mut Fields) -> Option<()> {
        self.term.fill(fields)?;
        self.index.fill(fields)
    }

    fn write(&self, room: &mut Room) {
        self.term.write(room);
        self.index.write(room);
    }
}
