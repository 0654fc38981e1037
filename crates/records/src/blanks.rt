// The blank of each record, all zero: what stands where a record is absent or was refused. And
// whether a record is blank, field by field. Written by scripts/records.py.
//
// `Default` is not derived: it would be as fast, but of an array it would say only that each element
// is a default. The layers above rest on the whole value, which `is_default` names here.
//
// Where three arrays stand in front, the first is tested by itself: LLVM would make one test of them
// and take it apart byte by byte.
ghost use Rattle.std.specs.Prelude.{◌≡◌};
ghost use Rattle.records.specs.Blank.{blank_voter_slot_identity, blank_spiffe_id, blank_snapshot_id, blank_voter_slot_log_id, blank_optional_log_id, blank_voter_slot_member, blank_voter_replacement_result, blank_voter_slot_record, blank_voter_snapshot_evidence, blank_voter_configuration, blank_lost_voter_attestation_v1, blank_voter_replacement_evidence, blank_voter_replacement_record, blank_voter_slot_table};
ghost use Rattle.records.specs.Equality.{same_voter_slot_identity, same_spiffe_id, same_snapshot_id, same_voter_slot_log_id, same_optional_log_id, same_voter_slot_member, same_voter_replacement_result, same_voter_slot_record, same_voter_snapshot_evidence, same_voter_configuration, same_lost_voter_attestation_v1, same_voter_replacement_evidence, same_voter_replacement_record, same_voter_slot_table};

use crate::blank::Blank;
use crate::records::*;
use identity::identity::VoterSlotIdentity;
use identity::text::{MAX_VOTER_SNAPSHOT_ID_BYTES, MAX_VOTER_SPIFFE_ID_BYTES};

impl Blank for VoterSlotIdentity {
    ghost blank = { blank_voter_slot_identity };

    ghost same = { same_voter_slot_identity };

    #[tactic(auto, unfolding(crate::specs::Equality::all_true, crate::specs::Equality::same_voter_slot_identity, crate::specs::Blank::blank_voter_slot_identity))]
    fn is_blank(&self) -> bool {
        self.slot.is_blank() & self.incarnation.is_blank()
    }
}

impl Default for SpiffeId {
    ghost is_default = { λ x. x ≡ blank_spiffe_id };

    #[tactic(auto, unfolding(crate::specs::Blank::blank_spiffe_id))]
    fn default() -> SpiffeId {
        SpiffeId {
            len: 0,
            bytes: [0; MAX_VOTER_SPIFFE_ID_BYTES],
        }
    }
}

impl Blank for SpiffeId {
    ghost blank = { blank_spiffe_id };

    ghost same = { same_spiffe_id };

    #[tactic(auto, unfolding(crate::specs::Equality::all_true, crate::specs::Equality::same_spiffe_id, crate::specs::Blank::blank_spiffe_id))]
    fn is_blank(&self) -> bool {
        self.len.is_blank() & self.bytes.is_blank()
    }
}

impl Default for SnapshotId {
    ghost is_default = { λ x. x ≡ blank_snapshot_id };

    #[tactic(auto, unfolding(crate::specs::Blank::blank_snapshot_id))]
    fn default() -> SnapshotId {
        SnapshotId {
            len: 0,
            bytes: [0; MAX_VOTER_SNAPSHOT_ID_BYTES],
        }
    }
}

impl Blank for SnapshotId {
    ghost blank = { blank_snapshot_id };

    ghost same = { same_snapshot_id };

    #[tactic(auto, unfolding(crate::specs::Equality::all_true, crate::specs::Equality::same_snapshot_id, crate::specs::Blank::blank_snapshot_id))]
    fn is_blank(&self) -> bool {
        self.len.is_blank() & self.bytes.is_blank()
    }
}

impl Default for VoterSlotLogId {
    ghost is_default = { λ x. x ≡ blank_voter_slot_log_id };

    #[tactic(auto, unfolding(crate::specs::Blank::blank_voter_slot_log_id))]
    fn default() -> VoterSlotLogId {
        VoterSlotLogId { term: 0, index: 0 }
    }
}

impl Blank for VoterSlotLogId {
    ghost blank = { blank_voter_slot_log_id };

    ghost same = { same_voter_slot_log_id };

    #[tactic(auto, unfolding(crate::specs::Equality::all_true, crate::specs::Equality::same_voter_slot_log_id, crate::specs::Blank::blank_voter_slot_log_id))]
    fn is_blank(&self) -> bool {
        self.term.is_blank() & self.index.is_blank()
    }
}

impl Default for OptionalLogId {
    ghost is_default = { λ x. x ≡ blank_optional_log_id };

    #[tactic(auto, unfolding(crate::specs::Blank::blank_optional_log_id))]
    fn default() -> OptionalLogId {
        OptionalLogId {
            is_some: false,
            cut: VoterSlotLogId::default(),
        }
    }
}

impl Blank for OptionalLogId {
    ghost blank = { blank_optional_log_id };

    ghost same = { same_optional_log_id };

    #[tactic(auto, unfolding(crate::specs::Equality::all_true, crate::specs::Equality::same_optional_log_id, crate::specs::Blank::blank_optional_log_id))]
    fn is_blank(&self) -> bool {
        self.is_some.is_blank() & self.cut.is_blank()
    }
}

impl Default for VoterSlotMember {
    ghost is_default = { λ x. x ≡ blank_voter_slot_member };

    #[tactic(auto, unfolding(crate::specs::Blank::blank_voter_slot_member, crate::specs::Blank::blank_voter_slot_identity))]
    fn default() -> VoterSlotMember {
        VoterSlotMember {
            identity: VoterSlotIdentity::default(),
            key_digest: [0; 32],
            descriptor_digest: [0; 32],
            admission_generation: 0,
        }
    }
}

impl Blank for VoterSlotMember {
    ghost blank = { blank_voter_slot_member };

    ghost same = { same_voter_slot_member };

    #[tactic(auto, unfolding(crate::specs::Equality::all_true, crate::specs::Equality::same_voter_slot_member, crate::specs::Blank::blank_voter_slot_member))]
    fn is_blank(&self) -> bool {
        self.identity.is_blank()
            & (self.key_digest.is_blank()
                & (self.descriptor_digest.is_blank() & self.admission_generation.is_blank()))
    }
}

impl Default for VoterReplacementResult {
    ghost is_default = { λ x. x ≡ blank_voter_replacement_result };

    #[tactic(auto, unfolding(crate::specs::Blank::blank_voter_replacement_result))]
    fn default() -> VoterReplacementResult {
        VoterReplacementResult {
            request_id: [0; 16],
            request_digest: [0; 32],
            incarnation: 0,
            revision: 0,
            configuration_epoch: 0,
            kind: 0,
            terminal: VoterSlotLogId::default(),
        }
    }
}

impl Blank for VoterReplacementResult {
    ghost blank = { blank_voter_replacement_result };

    ghost same = { same_voter_replacement_result };

    #[tactic(auto, unfolding(crate::specs::Equality::all_true, crate::specs::Equality::same_voter_replacement_result, crate::specs::Blank::blank_voter_replacement_result))]
    fn is_blank(&self) -> bool {
        self.request_id.is_blank()
            & (self.request_digest.is_blank()
                & (self.incarnation.is_blank()
                    & (self.revision.is_blank()
                        & (self.configuration_epoch.is_blank()
                            & (self.kind.is_blank() & self.terminal.is_blank())))))
    }
}

impl Default for VoterSlotRecord {
    ghost is_default = { λ x. x ≡ blank_voter_slot_record };

    #[tactic(auto, unfolding(crate::specs::Blank::blank_voter_slot_record))]
    fn default() -> VoterSlotRecord {
        VoterSlotRecord {
            member: VoterSlotMember::default(),
            retired_through: 0,
            phase: 0,
            has_last_result: false,
            last_result: VoterReplacementResult::default(),
        }
    }
}

impl Blank for VoterSlotRecord {
    ghost blank = { blank_voter_slot_record };

    ghost same = { same_voter_slot_record };

    #[tactic(auto, unfolding(crate::specs::Equality::all_true, crate::specs::Equality::same_voter_slot_record, crate::specs::Blank::blank_voter_slot_record))]
    fn is_blank(&self) -> bool {
        self.member.is_blank()
            & (self.retired_through.is_blank()
                & (self.phase.is_blank()
                    & (self.has_last_result.is_blank() & self.last_result.is_blank())))
    }
}

impl Default for VoterSnapshotEvidence {
    ghost is_default = { λ x. x ≡ blank_voter_snapshot_evidence };

    #[tactic(auto, unfolding(crate::specs::Blank::blank_voter_snapshot_evidence))]
    fn default() -> VoterSnapshotEvidence {
        VoterSnapshotEvidence {
            cut: VoterSlotLogId::default(),
            snapshot_id: SnapshotId::default(),
            digest: [0; 32],
        }
    }
}

impl Blank for VoterSnapshotEvidence {
    ghost blank = { blank_voter_snapshot_evidence };

    ghost same = { same_voter_snapshot_evidence };

    #[tactic(auto, unfolding(crate::specs::Equality::all_true, crate::specs::Equality::same_voter_snapshot_evidence, crate::specs::Blank::blank_voter_snapshot_evidence))]
    fn is_blank(&self) -> bool {
        self.cut.is_blank() & (self.snapshot_id.is_blank() & self.digest.is_blank())
    }
}

impl Default for VoterConfiguration {
    ghost is_default = { λ x. x ≡ blank_voter_configuration };

    #[tactic(auto, unfolding(crate::specs::Blank::blank_voter_configuration))]
    fn default() -> VoterConfiguration {
        VoterConfiguration {
            epoch: 0,
            members: [VoterSlotMember::default(); MAX_FIXED_VOTER_SLOTS],
            count: 0,
        }
    }
}

impl Blank for VoterConfiguration {
    ghost blank = { blank_voter_configuration };

    ghost same = { same_voter_configuration };

    #[tactic(auto, unfolding(crate::specs::Equality::all_true, crate::specs::Equality::same_voter_configuration, crate::specs::Blank::blank_voter_configuration))]
    fn is_blank(&self) -> bool {
        self.epoch.is_blank() & (self.members.is_blank() & self.count.is_blank())
    }
}

impl Default for LostVoterAttestationV1 {
    ghost is_default = { λ x. x ≡ blank_lost_voter_attestation_v1 };

    #[tactic(auto, unfolding(crate::specs::Blank::blank_lost_voter_attestation_v1))]
    fn default() -> LostVoterAttestationV1 {
        LostVoterAttestationV1 {
            request_id: [0; 16],
            request_digest: [0; 32],
            cluster_instance: [0; 32],
            slot: 0,
            expected_incarnation: 0,
            old_descriptor_digest: [0; 32],
            candidate_key_digest: [0; 32],
            admission_generation: 0,
            candidate_spiffe_id: SpiffeId::default(),
            controller_spiffe_id: SpiffeId::default(),
            signing_key_digest: [0; 32],
            reason: 0,
            policy_digest: [0; 32],
            observation_start_ms: 0,
            decision_ms: 0,
            issued_ms: 0,
            expires_ms: 0,
            signature: [0; 64],
        }
    }
}

impl Blank for LostVoterAttestationV1 {
    ghost blank = { blank_lost_voter_attestation_v1 };

    ghost same = { same_lost_voter_attestation_v1 };

    #[tactic(auto, unfolding(crate::specs::Equality::all_true, crate::specs::Equality::same_lost_voter_attestation_v1, crate::specs::Blank::blank_lost_voter_attestation_v1))]
    fn is_blank(&self) -> bool {
        if !self.request_id.is_blank() {
            return false;
        }
        self.request_digest.is_blank()
            & (self.cluster_instance.is_blank()
                & (self.slot.is_blank()
                    & (self.expected_incarnation.is_blank()
                        & (self.old_descriptor_digest.is_blank()
                            & (self.candidate_key_digest.is_blank()
                                & (self.admission_generation.is_blank()
                                    & (self.candidate_spiffe_id.is_blank()
                                        & (self.controller_spiffe_id.is_blank()
                                            & (self.signing_key_digest.is_blank()
                                                & (self.reason.is_blank()
                                                    & (self.policy_digest.is_blank()
                                                        & (self.observation_start_ms.is_blank()
                                                            & (self.decision_ms.is_blank()
                                                                & (self.issued_ms.is_blank()
                                                                    & (self.expires_ms.is_blank()
                                                                        & self
                                                                            .signature
                                                                            .is_blank())))))))))))))))
    }
}

impl Default for VoterReplacementEvidence {
    ghost is_default = { λ x. x ≡ blank_voter_replacement_evidence };

    #[tactic(auto, unfolding(crate::specs::Blank::blank_voter_replacement_evidence))]
    fn default() -> VoterReplacementEvidence {
        VoterReplacementEvidence {
            prepare: VoterSlotLogId::default(),
            has_snapshot: false,
            snapshot: VoterSnapshotEvidence::default(),
            learner: OptionalLogId::default(),
            caught_up: OptionalLogId::default(),
            continuation: OptionalLogId::default(),
            fence: OptionalLogId::default(),
            joint: OptionalLogId::default(),
            uniform: OptionalLogId::default(),
        }
    }
}

impl Blank for VoterReplacementEvidence {
    ghost blank = { blank_voter_replacement_evidence };

    ghost same = { same_voter_replacement_evidence };

    #[tactic(auto, unfolding(crate::specs::Equality::all_true, crate::specs::Equality::same_voter_replacement_evidence, crate::specs::Blank::blank_voter_replacement_evidence))]
    fn is_blank(&self) -> bool {
        self.prepare.is_blank()
            & (self.has_snapshot.is_blank()
                & (self.snapshot.is_blank()
                    & (self.learner.is_blank()
                        & (self.caught_up.is_blank()
                            & (self.continuation.is_blank()
                                & (self.fence.is_blank()
                                    & (self.joint.is_blank() & self.uniform.is_blank())))))))
    }
}

impl Default for VoterReplacementRecord {
    ghost is_default = { λ x. x ≡ blank_voter_replacement_record };

    #[tactic(auto, unfolding(crate::specs::Blank::blank_voter_replacement_record))]
    fn default() -> VoterReplacementRecord {
        VoterReplacementRecord {
            expected_revision: 0,
            attestation: LostVoterAttestationV1::default(),
            predecessor: VoterConfiguration::default(),
            successor: VoterConfiguration::default(),
            phase: 0,
            evidence: VoterReplacementEvidence::default(),
        }
    }
}

impl Blank for VoterReplacementRecord {
    ghost blank = { blank_voter_replacement_record };

    ghost same = { same_voter_replacement_record };

    #[tactic(auto, unfolding(crate::specs::Equality::all_true, crate::specs::Equality::same_voter_replacement_record, crate::specs::Blank::blank_voter_replacement_record))]
    fn is_blank(&self) -> bool {
        self.expected_revision.is_blank()
            & (self.attestation.is_blank()
                & (self.predecessor.is_blank()
                    & (self.successor.is_blank()
                        & (self.phase.is_blank() & self.evidence.is_blank()))))
    }
}

impl Default for VoterSlotTable {
    ghost is_default = { λ x. x ≡ blank_voter_slot_table };

    #[tactic(auto, unfolding(crate::specs::Blank::blank_voter_slot_table))]
    fn default() -> VoterSlotTable {
        VoterSlotTable {
            cluster_instance: [0; 32],
            manifest_digest: [0; 32],
            revision: 0,
            configuration_epoch: 0,
            slots: [VoterSlotRecord::default(); MAX_FIXED_VOTER_SLOTS],
            count: 0,
            has_replacement: false,
            replacement: VoterReplacementRecord::default(),
        }
    }
}

impl Blank for VoterSlotTable {
    ghost blank = { blank_voter_slot_table };

    ghost same = { same_voter_slot_table };

    #[tactic(auto, unfolding(crate::specs::Equality::all_true, crate::specs::Equality::same_voter_slot_table, crate::specs::Blank::blank_voter_slot_table))]
    fn is_blank(&self) -> bool {
        self.cluster_instance.is_blank()
            & (self.manifest_digest.is_blank()
                & (self.revision.is_blank()
                    & (self.configuration_epoch.is_blank()
                        & (self.slots.is_blank()
                            & (self.count.is_blank()
                                & (self.has_replacement.is_blank()
                                    & self.replacement.is_blank()))))))
    }
}
