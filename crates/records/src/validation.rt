// Validity of a table.
//
// Ported from crates/opc-consensus/src/voter_slots/validation.rs of openpacketcore-sdk, commit
// 717de332e7, Apache-2.0 (see NOTICE). Changed: a check that can only give `InvalidRecord` answers
// yes or no; the representability check comes first, and has refused each text for which the
// original gives `TooLarge`; `follows`, `retains` and `latest` are in evidence.rt,
// `validate_successor_of` in successor.rt.
ghost use Rattle.std.specs.Prelude.{◌&&◌, ◌≡◌, ◌≤◌, eqb, leb, ltb, length};
ghost use Rattle.std.specs.List.{IsAllAdjacentAnswer, list_all, list_any};
ghost use Rattle.identity.specs.Answer.{Accepted};
ghost use Rattle.records.specs.Records.{all_below, slot_in, voting};
ghost use Rattle.records.specs.Validation.{require_of, valid_count, valid_configuration, valid_spiffe_id, valid_attestation, is_active, valid_result, valid_slot, distinct_results, valid_slots, target_phase, valid_operation_head, is_current_epoch, valid_operation, claims_of, superseded_receipt, retired_member, valid_target, other_request, validate_member, validate_members, validate_operation, validity, validate};

use crate::evidence::is_valid_log_id;
use crate::number::is_next;
use crate::records::*;
use identity::answer::{Answer, Refusal};
use identity::identity::*;
use identity::text::{MAX_VOTER_SPIFFE_ID_BYTES, is_name};

// What the open request claims of the slots: six fields of its attestation, its phase, and the cut
// of its prepare. The laws of a slot speak of these alone.
#[derive(Clone, Copy)]
pub struct Claims {
    // Caller-stable idempotency identity.
    pub request_id: ConsensusRequestId,
    // Target logical slot.
    pub slot: SlotId,
    // Exact incarnation whose loss the controller declares.
    pub expected_incarnation: VoterIncarnation,
    // Prior incarnation's selected descriptor digest.
    pub old_descriptor_digest: [u8; 32],
    // Selected candidate's independent public-key digest.
    pub candidate_key_digest: [u8; 32],
    // Monotonic platform selection generation.
    pub admission_generation: u64,
    // Replicated phase of the replacement.
    pub phase: u8,
    // Committed retirement and reservation cut.
    pub prepare: VoterSlotLogId,
}

// `require`: a no is `InvalidRecord`. It and `kept` of successor.rt have a name each, since the
// definitions do (`require_of`, `or_regression`), and the original says `require(..)?`.
fn require(valid: bool) -> Answer
    ensures { result ≡ require_of valid Accepted }
{
    valid.then_some(()).ok_or(Refusal::InvalidRecord)
}

// `validate_count`.
pub fn is_valid_count(count: usize) -> bool
    ensures { result ≡ valid_count count }
{
    (0 < count) & ((count <= MAX_FIXED_VOTER_SLOTS) & (count % 2 == 1))
}

impl VoterConfiguration {
    // `validate`.
    #[tactic(auto, unfolding(crate::specs::Validation::valid_configuration))]
    fn is_valid(&self) -> bool
        ensures { result ≡ valid_configuration self.now }
    {
        if !is_valid_count(self.count) {
            return false;
        }
        let members = self.members_in_use();
        have_generations(members) & members_rise(members)
    }
}

// Each admission generation is above 0.
fn have_generations(members: &[VoterSlotMember]) -> bool
    ensures { result ≡ list_all (λ m. ltb 0 m.admission_generation) members.now }
{
    members.iter().all(|member| 0 < member.admission_generation)
}

// The slot numbers rise strictly.
fn members_rise(members: &[VoterSlotMember]) -> bool
    ensures { IsAllAdjacentAnswer (λ a b t. t ≡ ltb a.identity.slot b.identity.slot) members.now result }
{
    members.is_sorted_by(|member, next| member.identity.slot < next.identity.slot)
}

impl LostVoterAttestationV1 {
    // `validate`.
    #[tactic(auto, unfolding(crate::specs::Validation::valid_attestation))]
    pub fn is_valid(&self) -> bool
        ensures { result ≡ valid_attestation self.now }
    {
        if !self.candidate_spiffe_id.is_valid() {
            return false;
        }
        if !self.controller_spiffe_id.is_valid() {
            return false;
        }
        are_valid_times(
            self.admission_generation,
            self.observation_start_ms,
            self.decision_ms,
            self.issued_ms,
            self.expires_ms,
        )
    }
}

// The numbers of an attestation: what was observed, decided and issued came in that order. It is given
// the five numbers, so that a caller needs no attestation for it.
pub fn are_valid_times(
    generation: u64,
    observation_start_ms: u64,
    decision_ms: u64,
    issued_ms: u64,
    expires_ms: u64,
) -> bool
    ensures { result ≡ (ltb 0 generation && (leb observation_start_ms decision_ms && (leb decision_ms issued_ms && ltb issued_ms expires_ms))) }
{
    (0 < generation)
        & ((observation_start_ms <= decision_ms)
            & ((decision_ms <= issued_ms) & (issued_ms < expires_ms)))
}

impl SpiffeId {
    // Whether it is a name. A length above the field is a no.
    pub fn is_valid(&self) -> bool
        ensures { result ≡ valid_spiffe_id self.now }
    {
        if MAX_VOTER_SPIFFE_ID_BYTES < self.len {
            return false;
        }
        is_name(&self.bytes[..self.len])
    }
}

// `VoterSlotTable::validate`, after 30.
#[tactic(auto, unfolding(crate::specs::Validation::validate, crate::specs::Representable::representable))]
pub fn validate_table(table: VoterSlotTable) -> Answer
    ensures { result ≡ validate table }
{
    if !table.is_representable() {
        return Err(Refusal::Unrepresentable);
    }
    table.validate()
}

// With no request open every slot is voting.
fn all_voting(slots: &[VoterSlotRecord]) -> bool
    ensures { result ≡ list_all (λ s. eqb s.phase voting) slots.now }
{
    slots.iter().all(|slot| slot.phase == VOTING)
}

// The slot numbers rise strictly.
fn slots_rise(slots: &[VoterSlotRecord]) -> bool
    ensures { IsAllAdjacentAnswer (λ a b t. t ≡ ltb a.member.identity.slot b.member.identity.slot) slots.now result }
{
    slots.is_sorted_by(|slot, next| slot.member.identity.slot < next.member.identity.slot)
}

// No request has a receipt in two slots; a slot without one is not compared.
//
// The places are counted in a loop, as in slots_succeed (successor.rt) and the places of
// representable.rt: the check found no proof for `all` after `enumerate` or `zip`.
#[tactic(auto, unfolding(crate::specs::Records::all_below))]
fn results_distinct(slots: &[VoterSlotRecord]) -> bool
    ensures { result ≡ all_below (λ i. all_below (λ j. distinct_results (slot_in slots.now j) (slot_in slots.now i)) i) (length slots.now) }
{
    let mut all = true;
    for (i, slot) in slots.iter().enumerate() {
        if slot.has_last_result {
            all = all & is_distinct_from(slot, &slots[..i]);
        }
    }
    all
}

// The receipt of the slot, against those of the slots before it.
fn is_distinct_from(slot: &VoterSlotRecord, earlier: &[VoterSlotRecord]) -> bool
    ensures { result ≡ list_all (λ other. distinct_results other slot.now) earlier.now }
{
    earlier
        .iter()
        .all(|other| are_distinct_results(other, slot))
}

// The two have no receipt of one request.
fn are_distinct_results(a: &VoterSlotRecord, b: &VoterSlotRecord) -> bool
    ensures { result ≡ distinct_results a.now b.now }
{
    let same = a.last_result.request_id == b.last_result.request_id;
    !(a.has_last_result & (b.has_last_result & same))
}

// One of the slots has that number.
fn has_target(slots: &[VoterSlotRecord], target: SlotId) -> bool
    ensures { result ≡ list_any (λ s. eqb s.member.identity.slot target) slots.now }
{
    slots.iter().any(|slot| slot.member.identity.slot == target)
}

impl VoterSlotTable {
    // `validate`, of a table that has passed the representability check.
    #[tactic(auto, unfolding(crate::specs::Validation::validity))]
    pub fn validate(&self) -> Answer
        ensures { result ≡ validity self.now }
    {
        require(self.are_valid_slots())?;
        if !self.has_replacement {
            return require(all_voting(self.slots_in_use()));
        }
        self.validate_operation()
    }

    // `validate` up to the open request.
    #[tactic(auto, unfolding(crate::specs::Validation::valid_slots))]
    fn are_valid_slots(&self) -> bool
        ensures { result ≡ valid_slots self.now }
    {
        if !is_valid_count(self.count) {
            return false;
        }
        if self.revision == 0 {
            return false;
        }
        let slots = self.slots_in_use();
        slots_rise(slots) & (self.is_each_slot_valid(slots) & results_distinct(slots))
    }

    // Each of the slots by itself.
    fn is_each_slot_valid(&self, slots: &[VoterSlotRecord]) -> bool
        ensures { result ≡ list_all (λ s. valid_slot self.now.revision self.now.configuration_epoch (is_active self.now s) s) slots.now }
    {
        slots.iter().all(|slot| {
            is_valid_slot(
                self.revision,
                self.configuration_epoch,
                self.is_active(slot),
                slot,
            )
        })
    }

    // The slot is the one that is being replaced.
    fn is_active(&self, slot: &VoterSlotRecord) -> bool
        ensures { result ≡ is_active self.now slot.now }
    {
        self.has_replacement & (self.replacement.attestation.slot == slot.member.identity.slot)
    }

    // `validate_operation`.
    #[tactic(auto, using(crate::proofs::InUse::operation_few), unfolding(crate::specs::Validation::validate_operation))]
    fn validate_operation(&self) -> Answer
        ensures { result ≡ validate_operation self.now }
    {
        require(self.is_valid_operation())?;
        self.validate_members()?;
        require(has_target(self.slots_in_use(), self.replacement.attestation.slot))
    }

    // The open request itself, and against the table's head.
    #[tactic(auto, unfolding(crate::specs::Validation::valid_operation))]
    fn is_valid_operation(&self) -> bool
        ensures { result ≡ valid_operation self.now self.now.replacement }
    {
        let operation = &self.replacement;
        if !operation.attestation.is_valid() {
            return false;
        }
        if !operation.predecessor.is_valid() {
            return false;
        }
        if !operation.successor.is_valid() {
            return false;
        }
        if !operation.evidence.is_valid(operation.phase) {
            return false;
        }
        self.is_valid_operation_head() & self.is_current_epoch()
    }

    // The open request against the revision, the cluster and the count of the table, and its two
    // epochs.
    #[tactic(auto, unfolding(crate::specs::Validation::valid_operation_head))]
    fn is_valid_operation_head(&self) -> bool
        ensures { result ≡ valid_operation_head self.now self.now.replacement }
    {
        let operation = &self.replacement;
        let same_cluster = operation.attestation.cluster_instance == self.cluster_instance;
        let next_epoch = is_next(operation.predecessor.epoch, operation.successor.epoch);
        (0 < operation.expected_revision)
            & ((operation.expected_revision < self.revision)
                & (same_cluster
                    & ((MIN_REPLACEMENT_SLOTS <= self.count)
                        & ((operation.predecessor.count == self.count)
                            & ((operation.successor.count == self.count) & next_epoch)))))
    }

    // The table's epoch is the successor's in Uniform, and the predecessor's in each phase before
    // it.
    #[tactic(auto, unfolding(crate::specs::Validation::is_current_epoch))]
    fn is_current_epoch(&self) -> bool
        ensures { result ≡ is_current_epoch self.now self.now.replacement }
    {
        let current_epoch = if self.replacement.phase == UNIFORM {
            self.replacement.successor.epoch
        } else {
            self.replacement.predecessor.epoch
        };
        self.configuration_epoch == current_epoch
    }

    // The first refusal, slot by slot: 3 in an earlier slot comes before 6 in a later one.
    //
    // It asks for the count, since the definition would go on past the nine places. The members are
    // taken by the slot's place, which the invariant counts: in a `for` over a `zip` of the three the
    // proof has iterators and no place, and it did not close.
    #[tactic(auto, unfolding(crate::specs::Validation::validate_members))]
    fn validate_members(&self) -> Answer
        requires { self.now.count ≤ 9 }
        ensures { result ≡ validate_members self.now self.now.count }
    {
        let claims = Claims::from(&self.replacement);
        let predecessor = &self.replacement.predecessor.members;
        let successor = &self.replacement.successor.members;
        for (i, slot) in self.slots_in_use().iter().enumerate() {
            claims.validate_member(slot, &predecessor[i], &successor[i])?;
        }
        Ok(())
    }
}

// One slot, in a table of that revision and epoch; active where it is being replaced.
#[tactic(auto, unfolding(crate::specs::Validation::valid_slot))]
fn is_valid_slot(
    revision: u64,
    epoch: ConsensusConfigurationEpoch,
    active: bool,
    slot: &VoterSlotRecord,
) -> bool
    ensures { result ≡ valid_slot revision epoch active slot.now }
{
    let own = slot.member.identity.incarnation;
    let floor = is_next(slot.retired_through, own);
    let completed = slot.has_last_result
        & ((slot.last_result.incarnation == own) & (slot.last_result.kind == COMPLETED));
    let result = is_valid_result(revision, epoch, active, slot);
    ((0 < slot.member.admission_generation) & floor)
        & (((active | (own <= 1)) | completed) & (!slot.has_last_result | result))
}

// The receipt of one slot.
#[tactic(auto, unfolding(crate::specs::Validation::valid_result))]
fn is_valid_result(
    revision: u64,
    epoch: ConsensusConfigurationEpoch,
    active: bool,
    slot: &VoterSlotRecord,
) -> bool
    ensures { result ≡ valid_result revision epoch active slot.now }
{
    let result = &slot.last_result;
    let own = slot.member.identity.incarnation;
    is_valid_log_id(result.terminal)
        & (((0 < result.revision)
            & ((result.revision <= revision)
                & ((result.configuration_epoch <= epoch)
                    & ((1 < result.incarnation) & (result.incarnation <= own)))))
            & ((!active | (result.incarnation < own))
                & (!(result.incarnation == own)
                    | ((slot.phase == VOTING) & (result.kind == COMPLETED)))))
}

// What the open request claims.
impl From<&VoterReplacementRecord> for Claims {
    ghost from_gives = { λ operation claims. claims ≡ claims_of operation.now };

    fn from(operation: &VoterReplacementRecord) -> Claims {
        Claims {
            request_id: operation.attestation.request_id,
            slot: operation.attestation.slot,
            expected_incarnation: operation.attestation.expected_incarnation,
            old_descriptor_digest: operation.attestation.old_descriptor_digest,
            candidate_key_digest: operation.attestation.candidate_key_digest,
            admission_generation: operation.attestation.admission_generation,
            phase: operation.phase,
            prepare: operation.evidence.prepare,
        }
    }
}

impl Claims {
    // One slot and its two members.
    #[tactic(auto, unfolding(crate::specs::Equality::all_true, crate::specs::Equality::same_voter_slot_member, crate::specs::Equality::same_voter_slot_identity, crate::specs::Validation::validate_member))]
    fn validate_member(
        &self,
        slot: &VoterSlotRecord,
        predecessor: &VoterSlotMember,
        successor: &VoterSlotMember,
    ) -> Answer
        ensures { result ≡ validate_member self.now slot.now predecessor.now successor.now }
    {
        let current = slot.member == *successor;
        require(current & (predecessor.identity.slot == successor.identity.slot))?;
        let other = self.is_other_request(slot);
        if slot.member.identity.slot == self.slot {
            if self.expected_incarnation == MAX_VOTER_INCARNATION {
                return Err(Refusal::IncarnationExhausted);
            }
            return require(self.is_valid_target(slot, predecessor, successor) & other);
        }
        let unchanged = *predecessor == *successor;
        require((unchanged & (slot.phase == VOTING)) & other)
    }

    // The receipt of the slot, if it has one, is not that of the open request.
    fn is_other_request(&self, slot: &VoterSlotRecord) -> bool
        ensures { result ≡ other_request self.now slot.now }
    {
        let same = slot.last_result.request_id == self.request_id;
        !slot.has_last_result | !same
    }

    // The slot that is being replaced, of which the next incarnation is in range.
    #[tactic(auto, unfolding(crate::specs::Validation::valid_target))]
    fn is_valid_target(
        &self,
        slot: &VoterSlotRecord,
        predecessor: &VoterSlotMember,
        successor: &VoterSlotMember,
    ) -> bool
        ensures { result ≡ valid_target self.now slot.now predecessor.now successor.now }
    {
        let expected = self.expected_incarnation;
        let next = is_next(expected, successor.identity.incarnation);
        let same_key = successor.key_digest == self.candidate_key_digest;
        let phase = target_phase(self.phase);
        let retired = self.is_retired_member(slot, predecessor);
        (next
            & ((predecessor.identity.incarnation <= expected)
                & ((predecessor.admission_generation < successor.admission_generation)
                    & ((successor.admission_generation == self.admission_generation) & same_key))))
            & ((slot.phase == phase) & retired)
    }

    // The member that is being replaced: the attested one, or one whose candidate was superseded.
    #[tactic(auto, unfolding(crate::specs::Validation::retired_member))]
    fn is_retired_member(&self, slot: &VoterSlotRecord, predecessor: &VoterSlotMember) -> bool
        ensures { result ≡ retired_member self.now slot.now predecessor.now }
    {
        if predecessor.identity.incarnation == self.expected_incarnation {
            return predecessor.descriptor_digest == self.old_descriptor_digest;
        }
        self.is_superseded_receipt(slot)
    }

    // The receipt that the superseded candidate's request has left.
    #[tactic(auto, unfolding(crate::specs::Equality::all_true, crate::specs::Equality::same_voter_slot_log_id))]
    fn is_superseded_receipt(&self, slot: &VoterSlotRecord) -> bool
        ensures { result ≡ superseded_receipt slot.now self.now }
    {
        let same = slot.last_result.terminal == self.prepare;
        slot.has_last_result
            & ((slot.last_result.incarnation == self.expected_incarnation)
                & ((slot.last_result.kind == SUPERSEDED) & same))
    }
}

// The phase of the slot that is being replaced, by that of the replacement.
pub fn target_phase(phase: u8) -> u8
    ensures { result ≡ target_phase phase }
{
    if phase <= SNAPSHOT_INSTALLED {
        return PENDING;
    }
    if phase <= FENCED {
        return CATCHING_UP;
    }
    VOTING
}
