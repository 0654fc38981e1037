// Commands: what a committed control entry carries.
//
// Ported from crates/opc-consensus/src/voter_slots/control.rs of openpacketcore-sdk, commit
// 717de332e7, Apache-2.0 (see NOTICE). Changed: a command and a step are a kind with its parts as
// fields, and parts that the kind does not use are zero; the caller supplies the request digest as
// recomputed and the id of the current configuration. Kinds stay numbers, and no enums: document 01
// lets a caller hand in any number, and gives 30 for those that the Rust types cannot hold.
use identity::identity::{ConsensusConfigurationId, ConsensusIdentity, ConsensusRequestId};
use records::records::*;

// The kinds of a command, as numbers: a caller may hand in any number, and gets 30 for another
// (document 01), which no enum could tell.
//
// `VoterSlotControl`: compare and set one slot, retiring its prior incarnation permanently.
pub const BEGIN: u8 = 0;

// Advance one exact retained operation.
pub const ADVANCE: u8 = 1;

// A current-term committed marker; proof of candidate apply is recorded separately.
pub const MARKER: u8 = 2;

// The kinds of a step, as numbers for the same reason.
//
// `VoterReplacementStep`: retain the exact verified initial snapshot, before adding its learner.
pub const RECORD_SNAPSHOT: u8 = 0;

// Retain a separately verified, durably applied current-term marker.
pub const RECORD_CAUGHT_UP: u8 = 1;

// Retain this command's exact committed capability-continuation cut.
pub const RECORD_CONTINUATION: u8 = 2;

// Publish only when the store's authority switch applies with effect atomically.
pub const FENCE: u8 = 3;

// Retain completion after the engine's uniform entry applied.
pub const FINALIZE: u8 = 4;

// A request, and the two values that the caller supplies.
#[derive(Clone, Copy, Default)]
pub struct VoterReplacementRequest {
    // Exact compare-and-set table revision.
    pub expected_revision: u64,
    // Exact current uniform configuration, including every incarnation and key.
    pub expected_configuration: ConsensusIdentity,
    // Selected successor's public binding.
    pub candidate: VoterSlotMember,
    // Claims and signature remain untrusted after deserialization.
    pub attestation: LostVoterAttestationV1,
    // The request digest as the caller recomputed it.
    pub supplied_request_digest: [u8; 32],
    // The id of the table's current configuration, as the caller computed it.
    pub supplied_configuration_id: ConsensusConfigurationId,
}

// A step of an Advance: the snapshot of RecordSnapshot, the mark of RecordCaughtUp.
#[derive(Clone, Copy, Default)]
pub struct VoterReplacementStep {
    // `RECORD_SNAPSHOT` to `FINALIZE`.
    pub kind: u8,
    // The exact verified initial snapshot, before its learner is added.
    pub snapshot: VoterSnapshotEvidence,
    // A separately verified, durably applied current-term marker.
    pub caught_up: VoterSlotLogId,
}

// A command: the request of a Begin; the request's id and digest of an Advance or a Marker; the
// step of an Advance.
#[derive(Clone, Copy, Default)]
pub struct VoterSlotControl {
    // `BEGIN`, `ADVANCE` or `MARKER`.
    pub kind: u8,
    // Compares and sets one slot, retiring its prior incarnation permanently.
    pub request: VoterReplacementRequest,
    // Original caller-stable request identity.
    pub request_id: ConsensusRequestId,
    // Original canonical request commitment.
    pub request_digest: [u8; 32],
    // Required next step.
    pub step: VoterReplacementStep,
}

// An Advance with the cut at which it is committed: what its judge, its makers and its thin call
// take.
#[derive(Clone, Copy, Default)]
pub struct VoterAdvance {
    // Original caller-stable request identity.
    pub request_id: ConsensusRequestId,
    // Original canonical request commitment.
    pub request_digest: [u8; 32],
    // Required next step.
    pub step: VoterReplacementStep,
    // Engine cut of the command.
    pub cut: VoterSlotLogId,
}

// A command with the cut at which it is committed: what its judge, its makers and its calls take.
#[derive(Clone, Copy)]
pub struct VoterCommand {
    // The command.
    pub control: VoterSlotControl,
    // Engine cut of the command.
    pub cut: VoterSlotLogId,
}

// The Advance that a command holds.
impl From<VoterCommand> for VoterAdvance {
    ghost use Rattle.std.specs.Prelude.{◌≡◌};
    ghost use Rattle.control.specs.Verdicts.{advance_in};

    ghost from_gives = { λ command advance. advance ≡ advance_in command.control command.cut };

    fn from(command: VoterCommand) -> VoterAdvance {
        let request_id = command.control.request_id;
        let request_digest = command.control.request_digest;
        let step = command.control.step;
        let cut = command.cut;
        VoterAdvance {
            request_id,
            request_digest,
            step,
            cut,
        }
    }
}
