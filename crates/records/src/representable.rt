// The representability check (30): whether the Rust types can hold a value, no count is above nine,
// no text is longer than its field, and all that is not in use is zero.
//
// The original has no such test: its types rule most of these values out, and its validity refuses
// the others, by `InvalidRecord` and `TooLarge`.
ghost use Rattle.std.specs.Prelude.{◌≡◌, ◌&&◌, ◌≤◌, length, take, drop, leb};
ghost use Rattle.identity.specs.Identity.{is_voter_incarnation};
ghost use Rattle.identity.specs.Text.{every, is_utf8};
ghost use Rattle.records.specs.Records.{all_below, slot_at, member_at};
ghost use Rattle.records.specs.Representable.{is_zero, representable_spiffe_id, representable_snapshot_id, representable_optional_log_id, representable_member, representable_result, member_place, slot_place, representable_snapshot, representable_optional_snapshot, representable_slot_record, representable_configuration, representable_attestation, representable_evidence, representable_replacement, representable};

use crate::blank::{Blank, are_blank};
use crate::records::*;
use identity::identity::{VoterIncarnation, is_configuration_epoch, validate_voter_incarnation};
use identity::text::{MAX_VOTER_SNAPSHOT_ID_BYTES, MAX_VOTER_SPIFFE_ID_BYTES, is_utf8};

impl VoterSlotTable {
    // Whether the Rust types can hold the table.
    #[tactic(auto, unfolding(crate::specs::Representable::representable))]
    pub fn is_representable(&self) -> bool
        ensures { result ≡ representable self.now }
    {
        if !is_configuration_epoch(self.configuration_epoch) {
            return false;
        }
        if MAX_FIXED_VOTER_SLOTS < self.count {
            return false;
        }
        if !self.slot_places() {
            return false;
        }
        if self.has_replacement {
            return self.replacement.is_representable();
        }
        self.replacement.is_blank()
    }

    // The nine places: a slot in each below the count, and a blank in each after it.
    //
    // By `split_at`, with `all` of the slots in use and `are_blank` of the rest, the check of an idle
    // table took up to 6 percent longer than by this loop. A configuration has the same loop over its
    // members, whose records have another definition (`slot_place`, `member_place`).
    #[tactic(auto, unfolding(crate::specs::Records::all_below))]
    fn slot_places(&self) -> bool
        ensures { result ≡ all_below (λ i. slot_place (leb self.now.count i) (slot_at self.now i)) 9 }
    {
        let mut all = true;
        for (i, slot) in self.slots.iter().enumerate() {
            let held = if self.count <= i {
                slot.is_blank()
            } else {
                slot.is_representable()
            };
            all = all & held;
        }
        all
    }
}

impl VoterSlotRecord {
    // Whether the Rust types can hold the slot's record.
    #[tactic(auto, unfolding(crate::specs::Representable::representable_slot_record))]
    fn is_representable(&self) -> bool
        ensures { result ≡ representable_slot_record self.now }
    {
        if !self.member.is_representable() {
            return false;
        }
        if VOTING < self.phase {
            return false;
        }
        if self.has_last_result {
            return self.last_result.is_representable();
        }
        self.last_result.is_blank()
    }
}

impl VoterSlotMember {
    // Whether the Rust types can hold the member.
    #[tactic(auto, unfolding(crate::specs::Representable::representable_member))]
    pub fn is_representable(&self) -> bool
        ensures { result ≡ representable_member self.now }
    {
        (1 <= self.identity.slot) & is_incarnation(self.identity.incarnation)
    }

    // A place past the count is blank. The flag is that of the definition's `cond`; this is its one
    // caller's test of a place, in a function that has the definition's clause.
    fn is_place(&self, past: bool) -> bool
        ensures { result ≡ member_place past self.now }
    {
        if past {
            return self.is_blank();
        }
        self.is_representable()
    }
}

// Whether the number is an incarnation.
#[tactic(auto, unfolding(identity::specs::Identity::validate_voter_incarnation))]
fn is_incarnation(value: VoterIncarnation) -> bool
    ensures { result ≡ is_voter_incarnation value }
{
    validate_voter_incarnation(value).is_ok()
}

impl VoterReplacementResult {
    // Whether the Rust types can hold the receipt.
    #[tactic(auto, unfolding(crate::specs::Representable::representable_result))]
    fn is_representable(&self) -> bool
        ensures { result ≡ representable_result self.now }
    {
        is_incarnation(self.incarnation)
            & (is_configuration_epoch(self.configuration_epoch) & (self.kind <= SUPERSEDED))
    }
}

impl VoterReplacementRecord {
    // Whether the Rust types can hold the replacement.
    #[tactic(auto, unfolding(crate::specs::Representable::representable_replacement))]
    fn is_representable(&self) -> bool
        ensures { result ≡ representable_replacement self.now }
    {
        if !self.attestation.is_representable() {
            return false;
        }
        if !self.predecessor.is_representable() {
            return false;
        }
        if !self.successor.is_representable() {
            return false;
        }
        if UNIFORM < self.phase {
            return false;
        }
        self.evidence.is_representable()
    }
}

impl LostVoterAttestationV1 {
    // Whether the Rust types can hold the attestation.
    #[tactic(auto, unfolding(crate::specs::Representable::representable_attestation))]
    pub fn is_representable(&self) -> bool
        ensures { result ≡ representable_attestation self.now }
    {
        let candidate_held = self.candidate_spiffe_id.is_representable();
        let controller_held = self.controller_spiffe_id.is_representable();
        (1 <= self.slot)
            & (is_incarnation(self.expected_incarnation)
                & (candidate_held
                    & (controller_held
                        & ((STORAGE_LOST <= self.reason) & (self.reason <= TIME_BOUND_LOSS)))))
    }
}

impl SpiffeId {
    // Whether the name is UTF-8 with zeros after it.
    #[tactic(auto, unfolding(crate::specs::Representable::is_text))]
    fn is_representable(&self) -> bool
        ensures { result ≡ representable_spiffe_id self.now }
    {
        if MAX_VOTER_SPIFFE_ID_BYTES < self.len {
            return false;
        }
        is_text(&self.bytes, self.len)
    }
}

impl SnapshotId {
    // Whether the snapshot id is UTF-8 with zeros after it.
    #[tactic(auto, unfolding(crate::specs::Representable::is_text))]
    fn is_representable(&self) -> bool
        ensures { result ≡ representable_snapshot_id self.now }
    {
        if MAX_VOTER_SNAPSHOT_ID_BYTES < self.len {
            return false;
        }
        is_text(&self.bytes, self.len)
    }
}

// So many bytes of UTF-8, and zeros after them.
fn is_text(bytes: &[u8], len: usize) -> bool
    requires { len ≤ length bytes.now }
    ensures { result ≡ (is_utf8 (take len bytes.now) && every is_zero (drop len bytes.now)) }
{
    let utf8 = is_utf8(&bytes[..len]);
    let filler = are_blank(&bytes[len..]);
    utf8 & filler
}

impl VoterConfiguration {
    // Whether the Rust types can hold the configuration.
    #[tactic(auto, unfolding(crate::specs::Representable::representable_configuration))]
    fn is_representable(&self) -> bool
        ensures { result ≡ representable_configuration self.now }
    {
        if !is_configuration_epoch(self.epoch) {
            return false;
        }
        if MAX_FIXED_VOTER_SLOTS < self.count {
            return false;
        }
        self.member_places()
    }

    // The nine places: a member in each below the count, and a blank in each after it.
    #[tactic(auto, unfolding(crate::specs::Records::all_below))]
    fn member_places(&self) -> bool
        ensures { result ≡ all_below (λ i. member_place (leb self.now.count i) (member_at self.now i)) 9 }
    {
        let mut all = true;
        for (i, member) in self.members.iter().enumerate() {
            all = all & member.is_place(self.count <= i);
        }
        all
    }
}

impl VoterReplacementEvidence {
    // Whether the Rust types can hold the evidence.
    #[tactic(auto, unfolding(crate::specs::Representable::representable_evidence))]
    fn is_representable(&self) -> bool
        ensures { result ≡ representable_evidence self.now }
    {
        let snapshot_held = self.has_representable_snapshot();
        let learner_held = self.learner.is_representable();
        let caught_up_held = self.caught_up.is_representable();
        let continuation_held = self.continuation.is_representable();
        let fence_held = self.fence.is_representable();
        let joint_held = self.joint.is_representable();
        let uniform_held = self.uniform.is_representable();
        snapshot_held
            & (learner_held
                & (caught_up_held
                    & (continuation_held & (fence_held & (joint_held & uniform_held)))))
    }

    // A snapshot that is absent is blank.
    fn has_representable_snapshot(&self) -> bool
        ensures { result ≡ representable_optional_snapshot self.now }
    {
        if self.has_snapshot {
            return self.snapshot.is_representable();
        }
        self.snapshot.is_blank()
    }
}

impl VoterSnapshotEvidence {
    // Whether the Rust types can hold the snapshot's evidence.
    pub fn is_representable(&self) -> bool
        ensures { result ≡ representable_snapshot self.now }
    {
        self.snapshot_id.is_representable()
    }
}

impl OptionalLogId {
    // Whether the cut is there, or blank.
    #[tactic(auto, unfolding(crate::specs::Representable::representable_optional_log_id))]
    fn is_representable(&self) -> bool
        ensures { result ≡ representable_optional_log_id self.now }
    {
        if self.is_some {
            return true;
        }
        self.cut.is_blank()
    }
}
