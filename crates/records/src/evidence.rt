// Cuts and the evidence of a replacement.
//
// Ported from crates/opc-consensus/src/voter_slots/validation.rs (`VoterSlotLogId` and
// `VoterReplacementEvidence`: `validate`, `follows`, `retains`, `latest`) of openpacketcore-sdk,
// commit 717de332e7, Apache-2.0 (see NOTICE). Changed: each check answers yes or no. A snapshot id
// above its field, for which the original gives `TooLarge`, is a no: in a table the
// representability check has refused it.
ghost use Rattle.std.specs.Prelude.{◌≡◌};
ghost use Rattle.records.specs.Evidence.{valid_log_id, follows, valid_stage, stage_or, snapshot_cut, valid_stages, in_order, valid_continuation, valid_snapshot_id, valid_evidence, retains_cut, retains_marker, retains_cuts, retains, later_of, latest};

use crate::records::*;
use identity::text::{MAX_VOTER_SNAPSHOT_ID_BYTES, is_snapshot_id};

// `VoterSlotLogId::validate`.
pub fn is_valid_log_id(cut: VoterSlotLogId) -> bool
    ensures { result ≡ valid_log_id cut }
{
    (0 < cut.term) & (0 < cut.index)
}

// `VoterSlotLogId::follows`. It is no `PartialOrd`: it takes a third argument, whether equal cuts are
// allowed, and of two cuts of one index neither follows the other where their terms differ.
#[tactic(auto, unfolding(crate::specs::Equality::all_true, crate::specs::Equality::same_voter_slot_log_id, crate::specs::Evidence::follows))]
pub fn log_id_follows(cut: VoterSlotLogId, older: VoterSlotLogId, allow_equal: bool) -> bool
    ensures { result ≡ follows cut older allow_equal }
{
    if cut.index == older.index {
        return allow_equal & (cut == older);
    }
    (older.index < cut.index) & (older.term <= cut.term)
}

impl VoterReplacementEvidence {
    // `validate`.
    #[tactic(auto, unfolding(crate::specs::Evidence::valid_evidence))]
    pub fn is_valid(&self, phase: u8) -> bool
        ensures { result ≡ valid_evidence self.now phase }
    {
        if !is_valid_log_id(self.prepare) {
            return false;
        }
        if self.has_snapshot && !self.snapshot.snapshot_id.is_valid() {
            return false;
        }
        self.are_valid_stages(phase) & self.is_valid_continuation()
    }

    // Each stage follows the one before it.
    #[tactic(auto, unfolding(crate::specs::Evidence::valid_stages))]
    fn are_valid_stages(&self, phase: u8) -> bool
        ensures { result ≡ valid_stages self.now phase }
    {
        let snapshot = self.snapshot_cut();
        let snapshot_valid = snapshot.is_valid(SNAPSHOT_INSTALLED <= phase, self.prepare, true);
        let to_snapshot = snapshot.stage_or(self.prepare);
        let learner_valid = self
            .learner
            .is_valid(LEARNER_ADDED <= phase, to_snapshot, false);
        let to_learner = self.learner.stage_or(to_snapshot);
        let caught_up_valid = self
            .caught_up
            .is_valid(CAUGHT_UP <= phase, to_learner, false);
        let to_caught_up = self.caught_up.stage_or(to_learner);
        let fence_valid = self.fence.is_valid(FENCED <= phase, to_caught_up, false);
        let to_fence = self.fence.stage_or(to_caught_up);
        let joint_valid = self.joint.is_valid(JOINT <= phase, to_fence, false);
        let to_joint = self.joint.stage_or(to_fence);
        let uniform_valid = self.uniform.is_valid(UNIFORM <= phase, to_joint, false);
        snapshot_valid
            & (learner_valid & (caught_up_valid & (fence_valid & (joint_valid & uniform_valid))))
    }

    // The snapshot's cut, or none.
    pub fn snapshot_cut(&self) -> OptionalLogId
        ensures { result ≡ snapshot_cut self.now }
    {
        OptionalLogId {
            is_some: self.has_snapshot,
            cut: self.snapshot.cut,
        }
    }

    // The continuation lies between prepare and fence, in order with the other cuts.
    #[tactic(auto, unfolding(crate::specs::Evidence::valid_continuation))]
    fn is_valid_continuation(&self) -> bool
        ensures { result ≡ valid_continuation self.now }
    {
        if !self.continuation.is_some {
            return true;
        }
        let cut = self.continuation.cut;
        let valid = is_valid_log_id(cut);
        let after_prepare = log_id_follows(cut, self.prepare, false);
        let before_fence = !self.fence.is_some | log_id_follows(self.fence.cut, cut, false);
        let snapshot_in_order = is_in_order(cut, self.snapshot_cut(), true);
        let learner_in_order = is_in_order(cut, self.learner, false);
        let caught_up_in_order = is_in_order(cut, self.caught_up, false);
        valid
            & (after_prepare
                & (before_fence & (snapshot_in_order & (learner_in_order & caught_up_in_order))))
    }

    // `retains`.
    #[tactic(auto, unfolding(crate::specs::Equality::all_true, crate::specs::Equality::same_voter_slot_log_id, crate::specs::Equality::same_voter_snapshot_evidence, crate::specs::Equality::same_snapshot_id, crate::specs::Evidence::retains))]
    pub fn retains(&self, old: &VoterReplacementEvidence, old_phase: u8) -> bool
        ensures { result ≡ retains self.now old.now old_phase }
    {
        let same_prepare = self.prepare == old.prepare;
        let same_snapshot = self.snapshot == old.snapshot;
        let marker_kept = self.caught_up.retains_marker(&old.caught_up, old_phase);
        let cuts_kept = self.retains_cuts(old);
        same_prepare
            & ((!old.has_snapshot | (self.has_snapshot & same_snapshot))
                & (marker_kept & cuts_kept))
    }

    // The cuts that stay as they are once they are present.
    #[tactic(auto, unfolding(crate::specs::Evidence::retains_cuts))]
    fn retains_cuts(&self, old: &VoterReplacementEvidence) -> bool
        ensures { result ≡ retains_cuts self.now old.now }
    {
        let learner_kept = self.learner.retains(&old.learner);
        let continuation_kept = self.continuation.retains(&old.continuation);
        let fence_kept = self.fence.retains(&old.fence);
        let joint_kept = self.joint.retains(&old.joint);
        let uniform_kept = self.uniform.retains(&old.uniform);
        learner_kept & (continuation_kept & (fence_kept & (joint_kept & uniform_kept)))
    }

    // `latest`.
    #[tactic(auto, unfolding(crate::specs::Evidence::latest))]
    pub fn latest(&self) -> VoterSlotLogId
        ensures { result ≡ latest self.now }
    {
        let to_snapshot = later_of(self.prepare, self.snapshot_cut());
        let to_learner = later_of(to_snapshot, self.learner);
        let to_caught_up = later_of(to_learner, self.caught_up);
        let to_continuation = later_of(to_caught_up, self.continuation);
        let to_fence = later_of(to_continuation, self.fence);
        let to_joint = later_of(to_fence, self.joint);
        later_of(to_joint, self.uniform)
    }
}

impl OptionalLogId {
    // A stage is present exactly where it is due, and follows the one before it.
    #[tactic(auto, unfolding(crate::specs::Evidence::valid_stage))]
    fn is_valid(&self, due: bool, previous: VoterSlotLogId, allow_equal: bool) -> bool
        ensures { result ≡ valid_stage self.now due previous allow_equal }
    {
        let valid = is_valid_log_id(self.cut);
        let later = log_id_follows(self.cut, previous, allow_equal);
        (self.is_some == due) & (!self.is_some | (valid & later))
    }

    // The cut that the next stage is to follow.
    #[tactic(auto, unfolding(crate::specs::Evidence::stage_or))]
    fn stage_or(&self, previous: VoterSlotLogId) -> VoterSlotLogId
        ensures { result ≡ stage_or self.now previous }
    {
        if self.is_some { self.cut } else { previous }
    }

    // A cut that was present is the same still.
    #[tactic(auto, unfolding(crate::specs::Equality::all_true, crate::specs::Equality::same_voter_slot_log_id, crate::specs::Evidence::retains_cut))]
    fn retains(&self, old: &OptionalLogId) -> bool
        ensures { result ≡ retains_cut self.now old.now }
    {
        let same = self.cut == old.cut;
        !old.is_some | (self.is_some & same)
    }

    // A mark that was present is the same still or, before the fence, a later one.
    #[tactic(auto, unfolding(crate::specs::Equality::all_true, crate::specs::Equality::same_voter_slot_log_id, crate::specs::Evidence::retains_marker))]
    fn retains_marker(&self, old: &OptionalLogId, old_phase: u8) -> bool
        ensures { result ≡ retains_marker self.now old.now old_phase }
    {
        let same = self.cut == old.cut;
        let later = log_id_follows(self.cut, old.cut, false);
        !old.is_some | (self.is_some & (same | ((old_phase < FENCED) & later)))
    }
}

// Of the continuation and another cut the later one follows the other; a snapshot may have the same
// cut.
#[tactic(auto, unfolding(crate::specs::Evidence::in_order))]
pub fn is_in_order(continuation: VoterSlotLogId, other: OptionalLogId, is_snapshot: bool) -> bool
    ensures { result ≡ in_order continuation other is_snapshot }
{
    if !other.is_some {
        return true;
    }
    let cut = other.cut;
    if cut.index <= continuation.index {
        return log_id_follows(continuation, cut, is_snapshot);
    }
    log_id_follows(cut, continuation, false)
}

impl SnapshotId {
    // Whether it is the id of a snapshot. A length above the field is a no.
    pub fn is_valid(&self) -> bool
        ensures { result ≡ valid_snapshot_id self.now }
    {
        if MAX_VOTER_SNAPSHOT_ID_BYTES < self.len {
            return false;
        }
        is_snapshot_id(&self.bytes[..self.len])
    }
}

// The one of greater index, where the stage is present.
#[tactic(auto, unfolding(crate::specs::Evidence::later_of))]
fn later_of(latest: VoterSlotLogId, stage: OptionalLogId) -> VoterSlotLogId
    ensures { result ≡ later_of latest stage }
{
    if stage.is_some & (latest.index < stage.cut.index) {
        return stage.cut;
    }
    latest
}
