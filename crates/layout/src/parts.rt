// Groups of fields that stand together in the bytes and are no records of their own, the blank of
// each, and the records made of them. The format has a form for each, so that none has more than five
// parts; `ClaimsNames` and `Change` stand in the format alone, since their fields are read and
// written where they stand. A field means what the field of that name means in its record
// (records.rt).
//
// The original has no such groups. The two constants are those of
// crates/opc-consensus/src/voter_slots/records.rs and codec.rs of openpacketcore-sdk, commit
// 717de332e7, Apache-2.0 (see NOTICE). Changed: the version is a number of 64 bits.
ghost use Rattle.std.specs.Prelude.{◌≡◌};
ghost use Rattle.layout.specs.Parts.{blank_binding, blank_result_head, blank_slot_member, blank_claims_request, blank_claims_slot, blank_claims_names, blank_times, blank_claims_end, blank_change, blank_table_head, member_of, result_of, evidence_of, early_cuts, late_cuts};

use identity::identity::*;
use records::records::*;

// What follows an identity in a member.
#[derive(Clone, Copy)]
pub struct Binding {
    pub key_digest: [u8; 32],
    pub descriptor_digest: [u8; 32],
    pub admission_generation: u64,
}

// The front of a receipt.
#[derive(Clone, Copy)]
pub struct ResultHead {
    pub request_id: ConsensusRequestId,
    pub request_digest: [u8; 32],
    pub incarnation: VoterIncarnation,
    pub revision: u64,
}

// The front of a slot: the retired number stands between the member's identity and its binding.
#[derive(Clone, Copy)]
pub struct SlotMember {
    pub member: VoterSlotMember,
    pub retired_through: u64,
}

// Three of the six cuts that end an open request's evidence.
#[derive(Clone, Copy)]
pub struct ThreeCuts {
    pub first: OptionalLogId,
    pub second: OptionalLogId,
    pub third: OptionalLogId,
}

// Hard ceiling for one complete signed loss-attestation frame.
pub const MAX_LOST_VOTER_ATTESTATION_BYTES: usize = 8192;

// The version of a table and of an attestation. It is a number and no enum: it is compared with bytes
// that may hold any number, and there is no other version.
pub const VERSION: u64 = 1;

// The first of the four groups of an attestation: which request it is of. The records and the calls
// have its two parts as fields of their own, as the original has.
#[derive(Clone, Copy)]
pub struct ClaimsRequest {
    pub request_id: ConsensusRequestId,
    pub request_digest: [u8; 32],
}

// The second group of an attestation: of which slot it is, and for which candidate.
#[derive(Clone, Copy)]
pub struct ClaimsSlot {
    pub cluster_instance: ConsensusClusterId,
    pub identity: VoterSlotIdentity,
    pub old_descriptor_digest: [u8; 32],
    pub candidate_key_digest: [u8; 32],
}

// The third group of an attestation: who is admitted, and by whom.
#[derive(Clone, Copy)]
pub struct ClaimsNames {
    pub admission_generation: u64,
    pub candidate_spiffe_id: SpiffeId,
    pub controller_spiffe_id: SpiffeId,
    pub signing_key_digest: [u8; 32],
}

// The last group of an attestation: why and when the candidate is admitted, and the signature.
#[derive(Clone, Copy)]
pub struct ClaimsEnd {
    pub reason: u8,
    pub policy_digest: [u8; 32],
    pub times: Times,
    pub signature: [u8; 64],
}

// The times of an attestation, in milliseconds.
#[derive(Clone, Copy)]
pub struct Times {
    pub observation_start_ms: u64,
    pub decision_ms: u64,
    pub issued_ms: u64,
    pub expires_ms: u64,
}

// What an open request changes, and how far it is.
#[derive(Clone, Copy)]
pub struct Change {
    pub predecessor: VoterConfiguration,
    pub successor: VoterConfiguration,
    pub phase: u8,
}

// The front of a table, after the magic and the version.
#[derive(Clone, Copy)]
pub struct TableHead {
    pub cluster_instance: ConsensusClusterId,
    pub manifest_digest: [u8; 32],
    pub revision: u64,
    pub configuration_epoch: ConsensusConfigurationEpoch,
}

// The blank of each group, all zero. `Default` is not derived: the definition names the whole value,
// where a derived one would say of an array only that each element is a default. No code here asks for
// the blank of a whole group: they stay for callers in Rust, since what this layer has promised stays
// promised.
impl Default for Binding {
    ghost is_default = { λ x. x ≡ blank_binding };

    #[tactic(auto, unfolding(crate::specs::Parts::blank_binding, format::specs::Copy::zeros))]
    fn default() -> Binding {
        Binding {
            key_digest: [0; 32],
            descriptor_digest: [0; 32],
            admission_generation: 0,
        }
    }
}

impl Default for ResultHead {
    ghost is_default = { λ x. x ≡ blank_result_head };

    #[tactic(auto, unfolding(crate::specs::Parts::blank_result_head, format::specs::Copy::zeros))]
    fn default() -> ResultHead {
        ResultHead {
            request_id: [0; 16],
            request_digest: [0; 32],
            incarnation: 0,
            revision: 0,
        }
    }
}

impl Default for SlotMember {
    ghost is_default = { λ x. x ≡ blank_slot_member };

    #[tactic(auto, unfolding(crate::specs::Parts::blank_slot_member))]
    fn default() -> SlotMember {
        SlotMember {
            member: VoterSlotMember::default(),
            retired_through: 0,
        }
    }
}

impl Default for ClaimsRequest {
    ghost is_default = { λ x. x ≡ blank_claims_request };

    #[tactic(auto, unfolding(crate::specs::Parts::blank_claims_request, format::specs::Copy::zeros))]
    fn default() -> ClaimsRequest {
        ClaimsRequest {
            request_id: [0; 16],
            request_digest: [0; 32],
        }
    }
}

impl Default for ClaimsSlot {
    ghost is_default = { λ x. x ≡ blank_claims_slot };

    #[tactic(auto, unfolding(crate::specs::Parts::blank_claims_slot, format::specs::Copy::zeros, records::specs::Blank::blank_voter_slot_identity))]
    fn default() -> ClaimsSlot {
        ClaimsSlot {
            cluster_instance: [0; 32],
            identity: VoterSlotIdentity::default(),
            old_descriptor_digest: [0; 32],
            candidate_key_digest: [0; 32],
        }
    }
}

impl Default for ClaimsNames {
    ghost is_default = { λ x. x ≡ blank_claims_names };

    #[tactic(auto, unfolding(crate::specs::Parts::blank_claims_names, format::specs::Copy::zeros))]
    fn default() -> ClaimsNames {
        ClaimsNames {
            admission_generation: 0,
            candidate_spiffe_id: SpiffeId::default(),
            controller_spiffe_id: SpiffeId::default(),
            signing_key_digest: [0; 32],
        }
    }
}

impl Default for ClaimsEnd {
    ghost is_default = { λ x. x ≡ blank_claims_end };

    #[tactic(auto, unfolding(crate::specs::Parts::blank_claims_end, format::specs::Copy::zeros))]
    fn default() -> ClaimsEnd {
        ClaimsEnd {
            reason: 0,
            policy_digest: [0; 32],
            times: Times::default(),
            signature: [0; 64],
        }
    }
}

impl Default for Times {
    ghost is_default = { λ x. x ≡ blank_times };

    #[tactic(auto, unfolding(crate::specs::Parts::blank_times))]
    fn default() -> Times {
        Times {
            observation_start_ms: 0,
            decision_ms: 0,
            issued_ms: 0,
            expires_ms: 0,
        }
    }
}

impl Default for Change {
    ghost is_default = { λ x. x ≡ blank_change };

    #[tactic(auto, unfolding(crate::specs::Parts::blank_change))]
    fn default() -> Change {
        Change {
            predecessor: VoterConfiguration::default(),
            successor: VoterConfiguration::default(),
            phase: 0,
        }
    }
}

impl Default for TableHead {
    ghost is_default = { λ x. x ≡ blank_table_head };

    #[tactic(auto, unfolding(crate::specs::Parts::blank_table_head, format::specs::Copy::zeros))]
    fn default() -> TableHead {
        TableHead {
            cluster_instance: [0; 32],
            manifest_digest: [0; 32],
            revision: 0,
            configuration_epoch: 0,
        }
    }
}

// Three records are put together from their parts, here and in the two functions after it. Each has
// two parts or more, so these are functions and no `From`.
//
// A member is its identity and its binding.
pub fn member_of(identity: VoterSlotIdentity, binding: Binding) -> VoterSlotMember
    ensures { result ≡ member_of identity binding }
{
    let key_digest = binding.key_digest;
    let descriptor_digest = binding.descriptor_digest;
    VoterSlotMember {
        identity,
        key_digest,
        descriptor_digest,
        admission_generation: binding.admission_generation,
    }
}

// A receipt is its front, its epoch, its kind and its terminal cut.
pub fn result_of(
    head: ResultHead,
    configuration_epoch: ConsensusConfigurationEpoch,
    kind: u8,
    terminal: VoterSlotLogId,
) -> VoterReplacementResult
    ensures { result ≡ result_of head configuration_epoch kind terminal }
{
    let request_id = head.request_id;
    let request_digest = head.request_digest;
    VoterReplacementResult {
        request_id,
        request_digest,
        incarnation: head.incarnation,
        revision: head.revision,
        configuration_epoch,
        kind,
        terminal,
    }
}

// The evidence is its first cut, its snapshot and its other six cuts. The snapshot comes with the flag
// beside it, as the record has them.
pub fn evidence_of(
    prepare: VoterSlotLogId,
    has_snapshot: bool,
    snapshot: VoterSnapshotEvidence,
    early: ThreeCuts,
    late: ThreeCuts,
) -> VoterReplacementEvidence
    ensures { result ≡ evidence_of prepare has_snapshot snapshot early late }
{
    let learner = early.first;
    let caught_up = early.second;
    let continuation = early.third;
    let fence = late.first;
    let joint = late.second;
    let uniform = late.third;
    VoterReplacementEvidence {
        prepare,
        has_snapshot,
        snapshot,
        learner,
        caught_up,
        continuation,
        fence,
        joint,
        uniform,
    }
}

// The first three of the six cuts that end the evidence. They and the last three are no one function:
// each names three fields of its own, and choosing by a flag would say the six names as well.
pub fn early_cuts(evidence: &VoterReplacementEvidence) -> ThreeCuts
    ensures { result ≡ early_cuts evidence.now }
{
    ThreeCuts {
        first: evidence.learner,
        second: evidence.caught_up,
        third: evidence.continuation,
    }
}

// The last three of the six cuts that end the evidence.
pub fn late_cuts(evidence: &VoterReplacementEvidence) -> ThreeCuts
    ensures { result ≡ late_cuts evidence.now }
{
    ThreeCuts {
        first: evidence.fence,
        second: evidence.joint,
        third: evidence.uniform,
    }
}
