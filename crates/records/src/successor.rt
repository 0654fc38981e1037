// The successor check: whether a table may follow another.
//
// Ported from crates/opc-consensus/src/voter_slots/validation.rs (`validate_successor_of`) of
// openpacketcore-sdk, commit 717de332e7, Apache-2.0 (see NOTICE). Changed: a check that can only
// give `Regression` answers yes or no; the representability check comes first. `retains` and
// `latest`, which it calls, are in evidence.rt.
ghost use Rattle.std.specs.Prelude.{◌≡◌, ◌≤◌, eqb, length};
ghost use Rattle.identity.specs.Answer.{Accepted};
ghost use Rattle.std.specs.List.{position};
ghost use Rattle.records.specs.Equality.{same_voter_slot_table};
ghost use Rattle.records.specs.Records.{all_below, slot_in};
ghost use Rattle.records.specs.Successor.{own_receipt, or_regression, result_succeeds, slot_succeeds, request_succeeds, request_ended, slot_index, ended_succeeds, replacement_succeeds, head_succeeds, succession, validate_successor_of};

use crate::evidence::log_id_follows;
use crate::number::is_next;
use crate::records::*;
use identity::answer::{Answer, Refusal};
use identity::identity::{ConsensusConfigurationEpoch, MAX_VOTER_INCARNATION, SlotId};

// `VoterSlotTable::validate_successor_of`: 30, the new table's number, the old one's, 7.
#[tactic(auto, unfolding(crate::specs::Successor::validate_successor_of, crate::specs::Representable::representable))]
pub fn validate_successor_of(new: VoterSlotTable, old: VoterSlotTable) -> Answer
    ensures { result ≡ validate_successor_of new old }
{
    if !new.is_representable() {
        return Err(Refusal::Unrepresentable);
    }
    if !old.is_representable() {
        return Err(Refusal::Unrepresentable);
    }
    new.validate()?;
    old.validate()?;
    new.validate_succession(&old)
}

// A no is a regression: `require` of validation.rt with another refusal.
fn kept(yes: bool) -> Answer
    ensures { result ≡ or_regression yes Accepted }
{
    yes.then_some(()).ok_or(Refusal::Regression)
}

impl VoterSlotTable {
    // The first slot of that number, or the count. The definition gives the count where there is no
    // such slot; `place_of` gives an `Option`. It asks for the count, since the definition goes on
    // past the nine places, where it finds blanks, whose slot is 0.
    pub fn slot_index(&self, slot: SlotId) -> usize
        requires { self.now.count ≤ 9 }
        ensures { result ≡ slot_index self.now slot }
    {
        place_of(self.slots_in_use(), slot).unwrap_or(self.count)
    }

    // Whether the two tables are equal. It is a function of its own, so that the fifteen definitions
    // that say what `==` compares are unfolded in its proof alone, and not in that of the whole check.
    #[tactic(auto, unfolding(crate::specs::Equality::all_true, crate::specs::Equality::same_voter_slot_table, crate::specs::Equality::same_voter_slot_record, crate::specs::Equality::same_voter_slot_member, crate::specs::Equality::same_voter_slot_identity, crate::specs::Equality::same_voter_replacement_result, crate::specs::Equality::same_voter_slot_log_id, crate::specs::Equality::same_voter_replacement_record, crate::specs::Equality::same_lost_voter_attestation_v1, crate::specs::Equality::same_spiffe_id, crate::specs::Equality::same_voter_configuration, crate::specs::Equality::same_voter_replacement_evidence, crate::specs::Equality::same_voter_snapshot_evidence, crate::specs::Equality::same_snapshot_id, crate::specs::Equality::same_optional_log_id))]
    pub fn equals(&self, other: &VoterSlotTable) -> bool
        ensures { result ≡ same_voter_slot_table self.now other.now }
    {
        *self == *other
    }

    // The check of two tables that are valid. It asks for the count, and so do those that it calls:
    // the definitions go on past the nine places, where they find blanks.
    #[tactic(auto, using(crate::proofs::InUse::succession_in_use), unfolding(crate::specs::Successor::succession))]
    pub fn validate_succession(&self, old: &VoterSlotTable) -> Answer
        requires { self.now.count ≤ 9 }
        ensures { result ≡ succession self.now old.now }
    {
        kept(self.head_succeeds(old))?;
        if self.revision == old.revision {
            return kept(self.equals(old));
        }
        kept(slots_succeed(self.slots_in_use(), &old.slots))?;
        self.replacement_succeeds(old)
    }

    // Cluster, manifest and count are the same, and neither the revision nor the epoch falls.
    #[tactic(auto, unfolding(crate::specs::Successor::head_succeeds))]
    fn head_succeeds(&self, old: &VoterSlotTable) -> bool
        ensures { result ≡ head_succeeds self.now old.now }
    {
        let same_cluster = self.cluster_instance == old.cluster_instance;
        let same_manifest = self.manifest_digest == old.manifest_digest;
        same_cluster
            & (same_manifest
                & ((old.revision <= self.revision)
                    & ((old.configuration_epoch <= self.configuration_epoch)
                        & (self.count == old.count))))
    }

    // The request that was open stays open, or has ended.
    #[tactic(auto, unfolding(crate::specs::Successor::replacement_succeeds))]
    fn replacement_succeeds(&self, old: &VoterSlotTable) -> Answer
        requires { self.now.count ≤ 9 }
        ensures { result ≡ replacement_succeeds self.now old.now }
    {
        if !old.has_replacement {
            return Ok(());
        }
        let request = self.replacement.attestation.request_id;
        if self.has_replacement & (request == old.replacement.attestation.request_id) {
            return kept(request_succeeds(&self.replacement, &old.replacement));
        }
        self.ended_succeeds(&old.replacement)
    }

    // The request that was open has ended.
    #[tactic(auto, using(crate::proofs::InUse::slot_index_in_use), unfolding(crate::specs::Successor::ended_succeeds))]
    fn ended_succeeds(&self, old: &VoterReplacementRecord) -> Answer
        requires { self.now.count ≤ 9 }
        ensures { result ≡ ended_succeeds self.now old.now }
    {
        let slots = self.slots_in_use();
        let i = place_of(slots, old.attestation.slot).ok_or(Refusal::Regression)?;
        if old.attestation.expected_incarnation == MAX_VOTER_INCARNATION {
            return Err(Refusal::IncarnationExhausted);
        }
        let slot = &slots[i];
        let told = request_ended(self.configuration_epoch, old, &slot.last_result);
        kept(slot.has_last_result & told)
    }
}

// Each slot, against the old one at its place. The old one is taken by the place, which the invariant
// counts: in a `for` over a `zip` of the two the proof has iterators and no place, and it did not
// close. Nor did one for `all` after `zip` (`results_distinct` of validation.rt).
#[tactic(auto, unfolding(crate::specs::Records::all_below))]
fn slots_succeed(new: &[VoterSlotRecord], old: &[VoterSlotRecord; MAX_FIXED_VOTER_SLOTS]) -> bool
    requires { length new.now ≤ 9 }
    ensures { result ≡ all_below (λ i. slot_succeeds (slot_in new.now i) (slot_in old.now i)) (length new.now) }
{
    let mut all = true;
    for (i, slot) in new.iter().enumerate() {
        all = all & slot_succeeds(slot, &old[i]);
    }
    all
}

// Floor and incarnation do not fall. Of the same incarnation the member stays and the phase does
// not fall; a later one has a greater generation. A receipt stays, or a later one takes its place.
#[tactic(auto, unfolding(crate::specs::Equality::all_true, crate::specs::Equality::same_voter_slot_member, crate::specs::Equality::same_voter_slot_identity, crate::specs::Successor::slot_succeeds))]
fn slot_succeeds(new: &VoterSlotRecord, old: &VoterSlotRecord) -> bool
    ensures { result ≡ slot_succeeds new.now old.now }
{
    let same = new.member == old.member;
    let later = result_succeeds(&new.last_result, &old.last_result);
    let mine = new.member.identity.incarnation;
    let theirs = old.member.identity.incarnation;
    (new.member.identity.slot == old.member.identity.slot)
        & ((old.retired_through <= new.retired_through)
            & ((theirs <= mine)
                & ((!(mine == theirs) | (same & (old.phase <= new.phase)))
                    & ((!(theirs < mine)
                        | (old.member.admission_generation < new.member.admission_generation))
                        & (!old.has_last_result | (new.has_last_result & later))))))
}

// The receipt is the old one, or has a greater revision and incarnation, and no lower epoch.
#[tactic(auto, unfolding(crate::specs::Equality::all_true, crate::specs::Equality::same_voter_replacement_result, crate::specs::Equality::same_voter_slot_log_id, crate::specs::Successor::result_succeeds))]
fn result_succeeds(new: &VoterReplacementResult, old: &VoterReplacementResult) -> bool
    ensures { result ≡ result_succeeds new.now old.now }
{
    let same = *new == *old;
    (old.revision <= new.revision)
        & ((old.incarnation <= new.incarnation)
            & ((old.configuration_epoch <= new.configuration_epoch)
                & (!((new.revision == old.revision) | (new.incarnation == old.incarnation))
                    | same)))
}

// The same request stays open.
#[tactic(auto, unfolding(crate::specs::Equality::all_true, crate::specs::Equality::same_lost_voter_attestation_v1, crate::specs::Equality::same_spiffe_id, crate::specs::Equality::same_voter_configuration, crate::specs::Equality::same_voter_slot_member, crate::specs::Equality::same_voter_slot_identity, crate::specs::Successor::request_succeeds))]
fn request_succeeds(new: &VoterReplacementRecord, old: &VoterReplacementRecord) -> bool
    ensures { result ≡ request_succeeds new.now old.now }
{
    let same_attestation = new.attestation == old.attestation;
    let same_predecessor = new.predecessor == old.predecessor;
    let same_successor = new.successor == old.successor;
    let evidence_kept = new.evidence.retains(&old.evidence, old.phase);
    (new.expected_revision == old.expected_revision)
        & (same_attestation
            & (same_predecessor & (same_successor & ((old.phase <= new.phase) & evidence_kept))))
}

// The place of the first slot of that number.
pub fn place_of(slots: &[VoterSlotRecord], slot: SlotId) -> Option<usize>
    ensures { result ≡ position (λ s. eqb s.member.identity.slot slot) slots.now }
{
    slots.iter().position(|s| s.member.identity.slot == slot)
}

// The first slot of that number, or the count, as the definition has it. It is by value: where a maker lends its table for the
// search, the table must lie in memory, and the thin call of a Finalize takes 1.6 times as long.
pub fn slot_index(table: VoterSlotTable, slot: SlotId) -> usize
    requires { table.count ≤ 9 }
    ensures { result ≡ slot_index table slot }
{
    table.slot_index(slot)
}

// The receipt of the slot whose request was open tells how the request ended.
#[tactic(auto, unfolding(crate::specs::Successor::request_ended))]
fn request_ended(
    epoch: ConsensusConfigurationEpoch,
    old: &VoterReplacementRecord,
    receipt: &VoterReplacementResult,
) -> bool
    ensures { result ≡ request_ended epoch old.now receipt.now }
{
    let after = log_id_follows(receipt.terminal, old.evidence.latest(), false);
    let own = is_next(old.attestation.expected_incarnation, receipt.incarnation);
    let told = is_own_receipt(epoch, old, receipt);
    (old.attestation.expected_incarnation < receipt.incarnation)
        & (after & (((old.phase < FENCED) | (old.successor.epoch <= epoch)) & (!own | told)))
}

// The receipt is the one of the request itself.
#[tactic(auto, unfolding(crate::specs::Successor::own_receipt))]
fn is_own_receipt(
    epoch: ConsensusConfigurationEpoch,
    old: &VoterReplacementRecord,
    receipt: &VoterReplacementResult,
) -> bool
    ensures { result ≡ own_receipt epoch old.now receipt.now }
{
    let same_id = receipt.request_id == old.attestation.request_id;
    let same_digest = receipt.request_digest == old.attestation.request_digest;
    let completed = receipt.kind == COMPLETED;
    same_id
        & (same_digest
            & ((completed & (old.successor.epoch <= epoch)) | (!completed & (old.phase < FENCED))))
}
