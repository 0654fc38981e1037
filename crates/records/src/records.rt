// The records of a voter slot table, as values of fixed size.
//
// Ported from crates/opc-consensus/src/voter_slots/records.rs of openpacketcore-sdk, commit
// 717de332e7, Apache-2.0 (see NOTICE). Changed: a `Vec` is nine places and a count, a `String` is
// bytes and a length, an `Option` is a yes or no next to the record; what is after a count or a
// length and what is absent is zero; enums that a table holds are numbers with names.
//
// Each of these is so since document 01 has it ("What must change shape"): there is no heap for a
// `Vec` or a `String`, and a caller may hand in any count, length or number, and gets 30 where the
// Rust types hold none such.
ghost use Rattle.std.specs.Prelude.{◌≡◌, ◌≤◌, length};
ghost use Rattle.records.specs.Records.{slots_in_use, members_in_use};

use identity::identity::*;
use identity::text::{MAX_VOTER_SNAPSHOT_ID_BYTES, MAX_VOTER_SPIFFE_ID_BYTES};

// Most slots of a table, and places for them.
pub const MAX_FIXED_VOTER_SLOTS: usize = 9;

// Fewest slots of a table with a replacement: fewer leave no surviving quorum.
pub const MIN_REPLACEMENT_SLOTS: usize = 3;

// Phases, kinds and reasons are numbers, and no enums: document 01 has a caller hand in any number.
//
// `VoterSlotPhase`: selected, but no learner membership has been committed.
pub const PENDING: u8 = 0;

// Snapshot installed and learner membership committed; voting remains closed.
pub const CATCHING_UP: u8 = 1;

// Committed joint or uniform membership; local voting still requires admission.
pub const VOTING: u8 = 2;

// `VoterReplacementPhase`: Prepare committed; prior incarnation retired.
pub const PREPARED: u8 = 0;

// Verified out-of-band snapshot installed before learner addition.
pub const SNAPSHOT_INSTALLED: u8 = 1;

// Exact learner membership committed.
pub const LEARNER_ADDED: u8 = 2;

// Candidate durably applied the current-term catch-up marker.
pub const CAUGHT_UP: u8 = 3;

// Authority Fence applied with effect; only forward completion is allowed.
pub const FENCED: u8 = 4;

// Exact joint membership committed.
pub const JOINT: u8 = 5;

// Successor uniform membership committed; Finalize may release the operation.
pub const UNIFORM: u8 = 6;

// `VoterReplacementResultKind`: Finalize after uniform membership.
pub const COMPLETED: u8 = 0;

// Candidate replaced under a new request before Fence.
pub const SUPERSEDED: u8 = 1;

// `VoterLossReason`, 0 in a blank: controller verified loss of the prior durable state.
pub const STORAGE_LOST: u8 = 1;

// Controller applied its authorized time-bound loss policy.
pub const TIME_BOUND_LOSS: u8 = 2;

// The name of a controller or a candidate: so many bytes, zero after them.
//
// It and `SnapshotId` differ in their size alone. They are two structs, each with its own checks,
// blank and bytes, since the definitions of specs/ name each (`blank_spiffe_id`,
// `same_snapshot_id`, ..): with one struct of any size each of these would be a case of a more general
// definition, and the original has two names for the two texts.
#[repr(C)]
#[derive(Clone, Copy, PartialEq, Eq)]
pub struct SpiffeId {
    // Bytes in use, at most 2,048: document 01 has a length beside the bytes.
    pub len: usize,
    // UTF-8, then zeros.
    pub bytes: [u8; MAX_VOTER_SPIFFE_ID_BYTES],
}

// The id of a snapshot: so many bytes, zero after them.
#[repr(C)]
#[derive(Clone, Copy, PartialEq, Eq)]
pub struct SnapshotId {
    // Bytes in use, at most 256: document 01 has a length beside the bytes.
    pub len: usize,
    // UTF-8, then zeros.
    pub bytes: [u8; MAX_VOTER_SNAPSHOT_ID_BYTES],
}

// A cut: a position in the log.
#[repr(C)]
#[derive(Clone, Copy, PartialEq, Eq)]
pub struct VoterSlotLogId {
    // Engine leader term, retained without rewriting after replacement.
    pub term: u64,
    // Engine log index.
    pub index: u64,
}

// A cut that may be absent; it is 0, 0 then.
#[repr(C)]
#[derive(Clone, Copy, PartialEq, Eq)]
pub struct OptionalLogId {
    // Whether the cut is present: document 01 has a yes or no beside the value.
    pub is_some: bool,
    // The cut, or 0, 0.
    pub cut: VoterSlotLogId,
}

// Public incarnation binding. No field establishes possession or authorization.
#[repr(C)]
#[derive(Clone, Copy, PartialEq, Eq)]
pub struct VoterSlotMember {
    // Installation-scoped slot and incarnation.
    pub identity: VoterSlotIdentity,
    // Digest of the separately held canonical compressed P-256 public key.
    pub key_digest: [u8; 32],
    // Digest of the immutable selected descriptor, including workload identity.
    pub descriptor_digest: [u8; 32],
    // Strictly increasing platform selection generation for this slot.
    pub admission_generation: u64,
}

// One bounded per-slot receipt; floors still reject older attempts after pruning it.
#[repr(C)]
#[derive(Clone, Copy, PartialEq, Eq)]
pub struct VoterReplacementResult {
    // Terminal request identity.
    pub request_id: ConsensusRequestId,
    // Terminal canonical request body.
    pub request_digest: [u8; 32],
    // Incarnation selected by that request.
    pub incarnation: VoterIncarnation,
    // Revision recording this terminal outcome.
    pub revision: u64,
    // Uniform epoch at which the outcome was recorded.
    pub configuration_epoch: ConsensusConfigurationEpoch,
    // Success or pre-Fence supersession: `COMPLETED` or `SUPERSEDED`.
    pub kind: u8,
    // Full Finalize or supersession log id.
    pub terminal: VoterSlotLogId,
}

// Permanent retirement floor and bounded idempotency receipt for one manifest slot.
#[repr(C)]
#[derive(Clone, Copy, PartialEq, Eq)]
pub struct VoterSlotRecord {
    // Currently selected incarnation and its public binding.
    pub member: VoterSlotMember,
    // Every incarnation up to this value is permanently retired; zero is genesis.
    pub retired_through: u64,
    // Selected incarnation's replicated progress: `PENDING` to `VOTING`.
    pub phase: u8,
    // Whether there is a last result: document 01 has a yes or no beside the value.
    pub has_last_result: bool,
    // Most recent terminal request, replaced only with a later terminal result.
    pub last_result: VoterReplacementResult,
}

// Exact artifact initially installed before adding the replacement learner.
#[repr(C)]
#[derive(Clone, Copy, PartialEq, Eq)]
pub struct VoterSnapshotEvidence {
    // Full committed cut included by the artifact.
    pub cut: VoterSlotLogId,
    // Engine snapshot identifier, bounded independently of application state.
    pub snapshot_id: SnapshotId,
    // Digest of the verified artifact; decoding this digest does not verify it.
    pub digest: [u8; 32],
}

// Exact canonical configuration, sorted by immutable slot ordinal.
#[repr(C)]
#[derive(Clone, Copy, PartialEq, Eq)]
pub struct VoterConfiguration {
    // Monotonic uniform configuration epoch.
    pub epoch: ConsensusConfigurationEpoch,
    // Incarnation-qualified members and keys, one per immutable slot; blanks after the count.
    pub members: [VoterSlotMember; MAX_FIXED_VOTER_SLOTS],
    // Members in use: document 01 has a count beside the nine places.
    pub count: usize,
}

// Bounded signed claims retained with a replacement (RFC 023, version 1): untrusted data.
#[repr(C)]
#[derive(Clone, Copy, PartialEq, Eq)]
pub struct LostVoterAttestationV1 {
    // Caller-stable idempotency identity.
    pub request_id: ConsensusRequestId,
    // Canonical request-body digest, excluding its own field and proofs.
    pub request_digest: [u8; 32],
    // Fresh-installation cluster identity.
    pub cluster_instance: ConsensusClusterId,
    // Target logical slot.
    pub slot: SlotId,
    // Exact incarnation whose loss the controller declares.
    pub expected_incarnation: VoterIncarnation,
    // Prior incarnation's selected descriptor digest.
    pub old_descriptor_digest: [u8; 32],
    // Selected candidate's independent public-key digest.
    pub candidate_key_digest: [u8; 32],
    // Monotonic platform selection generation.
    pub admission_generation: u64,
    // Candidate workload identity, separately authenticated at admission.
    pub candidate_spiffe_id: SpiffeId,
    // Controller identity authorized by the current platform policy.
    pub controller_spiffe_id: SpiffeId,
    // Controller signing credential's SPKI digest.
    pub signing_key_digest: [u8; 32],
    // Explicit controller loss-policy decision: `STORAGE_LOST` or `TIME_BOUND_LOSS`.
    pub reason: u8,
    // Policy digest interpreted by the trusted admission adapter.
    pub policy_digest: [u8; 32],
    // Unix milliseconds at the beginning of the loss observation.
    pub observation_start_ms: u64,
    // Unix milliseconds at the loss decision.
    pub decision_ms: u64,
    // Unix milliseconds at issuance.
    pub issued_ms: u64,
    // Exclusive validity deadline in Unix milliseconds.
    pub expires_ms: u64,
    // Raw P-256 `r || s`; canonicality and cryptographic validity need verification.
    pub signature: [u8; 64],
}

// Retained full engine cuts. Optional continuation depends on activation family.
#[repr(C)]
#[derive(Clone, Copy, PartialEq, Eq)]
pub struct VoterReplacementEvidence {
    // Committed retirement and reservation cut.
    pub prepare: VoterSlotLogId,
    // Whether there is a snapshot: document 01 has a yes or no beside the value.
    pub has_snapshot: bool,
    // Initial installed snapshot's cut, at or after Prepare.
    pub snapshot: VoterSnapshotEvidence,
    // Learner membership after verified snapshot installation.
    pub learner: OptionalLogId,
    // Marker durably applied by the candidate; a new leader may advance it before Fence.
    pub caught_up: OptionalLogId,
    // Required activation or capability continuation, when this profile uses one.
    pub continuation: OptionalLogId,
    // Fence applied with effect, the point of no return.
    pub fence: OptionalLogId,
    // Actual committed joint entry emitted by the engine.
    pub joint: OptionalLogId,
    // Actual committed uniform entry emitted by the engine.
    pub uniform: OptionalLogId,
}

// One durable desired replacement; decode alone never establishes authorization.
#[repr(C)]
#[derive(Clone, Copy, PartialEq, Eq)]
pub struct VoterReplacementRecord {
    // Exact table revision against which the reservation was submitted.
    pub expected_revision: u64,
    // Accepted claims and historical signature retained for recovery.
    pub attestation: LostVoterAttestationV1,
    // Exact old engine membership, retaining the retired id in its denominator.
    pub predecessor: VoterConfiguration,
    // Exact desired membership, changing one logical slot only.
    pub successor: VoterConfiguration,
    // Replicated phase, independent of local observed progress: `PREPARED` to `UNIFORM`.
    pub phase: u8,
    // Durable engine evidence for that phase.
    pub evidence: VoterReplacementEvidence,
}

// Reserved durable incarnation metadata, atomically included in store snapshots.
#[repr(C)]
#[derive(Clone, Copy, PartialEq, Eq)]
pub struct VoterSlotTable {
    // Installation identity, never derived solely from a reused display name.
    pub cluster_instance: ConsensusClusterId,
    // Immutable manifest, including slot ordinals and placement policy.
    pub manifest_digest: [u8; 32],
    // Monotonic state revision; zero is invalid.
    pub revision: u64,
    // Current committed uniform configuration epoch.
    pub configuration_epoch: ConsensusConfigurationEpoch,
    // Exact manifest slots sorted by ordinal, then blanks; retired history is a floor per slot.
    pub slots: [VoterSlotRecord; MAX_FIXED_VOTER_SLOTS],
    // Slots in use: document 01 has a count beside the nine places.
    pub count: usize,
    // Whether a replacement is open: document 01 has a yes or no beside the value.
    pub has_replacement: bool,
    // At most one active replacement across the entire installation.
    pub replacement: VoterReplacementRecord,
}

impl VoterConfiguration {
    // Its members, without the blanks; all nine places where the count is above nine.
    //
    // What is done for the members of a configuration and for the slots of a table is one call of the
    // library each, here and in the other files: one function for both would need a trait of what has
    // a slot number, with its laws.
    pub fn members_in_use(&self) -> &[VoterSlotMember]
        ensures members { result.now ≡ members_in_use self.now }
        ensures count { self.now.count ≤ 9 → length result.now ≡ self.now.count }
    {
        &self.members[..self.count.min(MAX_FIXED_VOTER_SLOTS)]
    }
}

impl VoterSlotTable {
    // Its slots, without the blanks; all nine places where the count is above nine.
    pub fn slots_in_use(&self) -> &[VoterSlotRecord]
        ensures slots { result.now ≡ slots_in_use self.now }
        ensures count { self.now.count ≤ 9 → length result.now ≡ self.now.count }
    {
        &self.slots[..self.count.min(MAX_FIXED_VOTER_SLOTS)]
    }
}
