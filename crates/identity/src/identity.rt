// The identities of a cluster, a configuration, a request, and of one incarnation of a voter slot.
//
// Ported from crates/opc-consensus/src/identity.rs and
// crates/opc-consensus/src/voter_slots/identity.rs of openpacketcore-sdk, commit 717de332e7,
// Apache-2.0 (see NOTICE). Changed: a type that wraps one number or array is that number or array
// (document 01 lets a table carry any value and refuses it with 30, so a type cannot rule one out),
// and what made it is a check of the number; what hashes, serializes or prints is left out.
ghost use Rattle.std.specs.Prelude.{◌≡◌};
ghost use Rattle.identity.specs.Identity.{validate_slot_id, validate_voter_incarnation, next_voter_incarnation, is_configuration_epoch, is_consensus_node_id, validate_voter_slot_identity, new_voter_slot_identity, node_id, from_node_id};

use crate::answer::{Answer, Refusal};

// Fixed-width, domain-separated identity of one consensus cluster.
pub type ConsensusClusterId = [u8; 32];

// Fixed-width identity of one exact order-independent configuration.
pub type ConsensusConfigurationId = [u8; 32];

// Monotonic operator-controlled membership and configuration epoch.
pub type ConsensusConfigurationEpoch = u64;

// Canonical architecture-independent Raft node ordinal.
pub type ConsensusNodeId = u64;

// Durable fixed-width identity of one submitted command.
pub type ConsensusRequestId = [u8; 16];

// Stable nonzero slot ordinal assigned by the immutable installation manifest.
pub type SlotId = u16;

// Positive incarnation within a stable slot, never reused after retirement.
pub type VoterIncarnation = u64;

// Largest node id, 2^63 - 1: the engine's stores keep signed numbers of 64 bits.
pub const CONSENSUS_NODE_ID_MAX: ConsensusNodeId = 9223372036854775807;

// Largest incarnation, 2^47: with it a node id still fits 63 bits.
pub const MAX_VOTER_INCARNATION: VoterIncarnation = 140737488355328;

// How many node ids one incarnation number takes: one for each number below 65,536, slots and 0.
const NODE_ID_SPAN: ConsensusNodeId = 65536;

// The scope of a configuration: its cluster, its digest and its epoch.
#[derive(Clone, Copy, Default)]
pub struct ConsensusIdentity {
    // Cluster identity digest.
    pub cluster_id: ConsensusClusterId,
    // Exact configuration digest.
    pub configuration_id: ConsensusConfigurationId,
    // Monotonic configuration epoch.
    pub configuration_epoch: ConsensusConfigurationEpoch,
}

// Incarnation-qualified identity, scoped by the enclosing installation id.
#[repr(C)]
#[derive(Clone, Copy, Default, PartialEq, Eq)]
pub struct VoterSlotIdentity {
    // Stable ordinal assigned by the immutable installation manifest, 1 to 65,535.
    pub slot: SlotId,
    // Positive within its slot, at most 2^47, never reused after retirement.
    pub incarnation: VoterIncarnation,
}

// `SlotId::new`: a slot is 1 to 65,535.
pub fn validate_slot_id(value: SlotId) -> Answer
    ensures { result ≡ validate_slot_id value }
{
    if value == 0 {
        return Err(Refusal::InvalidSlot);
    }
    Ok(())
}

// `VoterIncarnation::new`: an incarnation is 1 to 2^47.
pub fn validate_voter_incarnation(value: VoterIncarnation) -> Answer
    ensures { result ≡ validate_voter_incarnation value }
{
    if value == 0 {
        return Err(Refusal::InvalidIncarnation);
    }
    if MAX_VOTER_INCARNATION < value {
        return Err(Refusal::InvalidIncarnation);
    }
    Ok(())
}

// `VoterIncarnation::next`. A number that is no incarnation has none after it.
#[tactic(auto, unfolding(crate::specs::Identity::next_voter_incarnation))]
pub fn next_voter_incarnation(incarnation: VoterIncarnation) -> Result<u64, Refusal>
    ensures { result ≡ next_voter_incarnation incarnation }
{
    if incarnation == MAX_VOTER_INCARNATION {
        return Err(Refusal::IncarnationExhausted);
    }
    validate_voter_incarnation(incarnation)?;
    Ok(incarnation + 1)
}

// `ConsensusConfigurationEpoch::new`: an epoch is 1 or more.
pub fn is_configuration_epoch(value: ConsensusConfigurationEpoch) -> bool
    ensures { result ≡ is_configuration_epoch value }
{
    1 <= value
}

// `ConsensusNodeId::new`: a node id is 1 to 2^63 - 1. An observation does not ask this: it refuses
// ids from 2^63 on with 30, and compares 0, which the original's type can hold all the same.
pub fn is_consensus_node_id(value: ConsensusNodeId) -> bool
    ensures { result ≡ is_consensus_node_id value }
{
    (1 <= value) & (value <= CONSENSUS_NODE_ID_MAX)
}

impl VoterSlotIdentity {
    // The identity of an incarnation of a slot.
    #[tactic(auto, unfolding(crate::specs::Identity::new_voter_slot_identity))]
    pub fn new(slot: SlotId, incarnation: VoterIncarnation) -> Result<VoterSlotIdentity, Refusal>
        ensures { result ≡ new_voter_slot_identity slot incarnation }
    {
        let identity = VoterSlotIdentity { slot, incarnation };
        identity.validate()?;
        Ok(identity)
    }

    // Whether the slot and the incarnation are in their ranges. The slot is tested first.
    #[tactic(auto, unfolding(crate::specs::Identity::validate_slot_id, crate::specs::Identity::validate_voter_incarnation, crate::specs::Identity::validate_voter_slot_identity))]
    pub fn validate(self) -> Answer
        ensures { result ≡ validate_voter_slot_identity self }
    {
        validate_slot_id(self.slot)?;
        validate_voter_incarnation(self.incarnation)
    }

    // The engine's number for the identity: (incarnation - 1) * 65,536 + slot.
    #[tactic(auto, unfolding(crate::specs::Identity::node_id))]
    pub fn node_id(self) -> Result<u64, Refusal>
        ensures { result ≡ node_id self }
    {
        self.validate()?;
        Ok((self.incarnation - 1) * NODE_ID_SPAN + self.slot as u64)
    }

    // Reverses `node_id`, for any 64-bit number.
    pub fn from_node_id(node: ConsensusNodeId) -> Result<VoterSlotIdentity, Refusal>
        ensures { result ≡ from_node_id node }
    {
        VoterSlotIdentity::new((node % NODE_ID_SPAN) as u16, node / NODE_ID_SPAN + 1)
    }
}
