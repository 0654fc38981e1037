// The readers of the records, in the order of codec.rs.
//
// Ported from crates/opc-consensus/src/voter_slots/codec.rs of openpacketcore-sdk, commit
// 717de332e7, Apache-2.0 (see NOTICE). Changed: groups of fields that stand together have a reader
// of their own (layout's parts.rt); lists fill a place of nine.
ghost use Rattle.std.specs.Prelude.{◌≡◌, ◌≤◌, length, IfOk, OnErr};
ghost use Rattle.format.specs.Through.{whole};
ghost use Rattle.format.specs.Reads.{reads};
ghost use Rattle.records.specs.Blank.{blank_lost_voter_attestation_v1, blank_voter_replacement_record, blank_voter_slot_table};
ghost use Rattle.layout.specs.Told.{told, told_at, told_whole, told_whole_at};
ghost use Rattle.layout.specs.Layout.{binding, member, configuration, result_head, replacement_result, slot_member, slot, claims_request, claims_slot, claims_end, claims, attestation, snapshot, evidence, replacement, table_head, table};

use crate::reader::{Decode, Reader};
use identity::answer::Refusal;
use layout::parts::*;
use records::records::*;

impl<'a> Reader<'a> {
    // `binding`: what follows an identity.
    #[tactic(auto, using(format::specs::Reads::reads_three), unfolding(layout::specs::Layout::binding))]
    pub fn binding(&mut self) -> Result<Binding, Refusal>
        ensures { told result self.new.bytes.now ≡ reads binding self.old.bytes.now }
    {
        Ok(Binding {
            key_digest: self.array()?,
            descriptor_digest: self.array()?,
            admission_generation: self.u64()?,
        })
    }

    // `configuration`
    #[tactic(auto, using(format::specs::Reads::reads_three), unfolding(layout::specs::Layout::configuration, layout::specs::Layout::members, layout::specs::Parts::blank_voter_slot_members))]
    fn configuration(&mut self) -> Result<VoterConfiguration, Refusal>
        ensures { told result self.new.bytes.now ≡ reads configuration self.old.bytes.now }
    {
        let epoch = self.epoch()?;
        let count = self.count()?;
        let mut members = [VoterSlotMember::default(); MAX_FIXED_VOTER_SLOTS];
        self.fill(count, &mut members)?;
        Ok(VoterConfiguration {
            epoch,
            members,
            count,
        })
    }

    // The front of a receipt.
    #[tactic(auto, using(format::specs::Reads::reads_four), unfolding(layout::specs::Layout::result_head))]
    fn result_head(&mut self) -> Result<ResultHead, Refusal>
        ensures { told result self.new.bytes.now ≡ reads result_head self.old.bytes.now }
    {
        Ok(ResultHead {
            request_id: self.array()?,
            request_digest: self.array()?,
            incarnation: self.incarnation()?,
            revision: self.u64()?,
        })
    }

    // The front of a slot.
    #[tactic(auto, using(format::specs::Reads::reads_three), unfolding(layout::specs::Layout::slot_member))]
    fn slot_member(&mut self) -> Result<SlotMember, Refusal>
        ensures { told result self.new.bytes.now ≡ reads slot_member self.old.bytes.now }
    {
        let identity = self.identity()?;
        let retired_through = self.u64()?;
        let binding = self.binding()?;
        Ok(SlotMember {
            member: member_of(identity, binding),
            retired_through,
        })
    }

    // The version of an attestation and the first of its groups: which request it is of.
    #[tactic(auto, using(format::specs::Reads::reads_three), unfolding(layout::specs::Layout::claims_request))]
    fn claims_request(&mut self) -> Result<ClaimsRequest, Refusal>
        ensures { told result self.new.bytes.now ≡ reads claims_request self.old.bytes.now }
    {
        self.version()?;
        Ok(ClaimsRequest {
            request_id: self.array()?,
            request_digest: self.array()?,
        })
    }

    // The second group of an attestation: of which slot it is, and for which candidate.
    #[tactic(auto, using(format::specs::Reads::reads_four), unfolding(layout::specs::Layout::claims_slot))]
    fn claims_slot(&mut self) -> Result<ClaimsSlot, Refusal>
        ensures { told result self.new.bytes.now ≡ reads claims_slot self.old.bytes.now }
    {
        Ok(ClaimsSlot {
            cluster_instance: self.array()?,
            identity: self.identity()?,
            old_descriptor_digest: self.array()?,
            candidate_key_digest: self.array()?,
        })
    }

    // The last group of an attestation: why and when the candidate is admitted, and the signature.
    #[tactic(auto, using(format::specs::Reads::reads_four), unfolding(layout::specs::Layout::claims_end))]
    fn claims_end(&mut self) -> Result<ClaimsEnd, Refusal>
        ensures { told result self.new.bytes.now ≡ reads claims_end self.old.bytes.now }
    {
        Ok(ClaimsEnd {
            reason: self.choice(STORAGE_LOST, TIME_BOUND_LOSS)?,
            policy_digest: self.array()?,
            times: self.times()?,
            signature: self.array()?,
        })
    }

    // The fields of an attestation; anything may come after them. An open request is read by
    // `fill_attestation`, and no code here calls this: it stays for callers in Rust, who have no place
    // to lend and are asked nothing.
    pub fn attestation(&mut self) -> Result<LostVoterAttestationV1, Refusal>
        ensures { told result self.new.bytes.now ≡ reads claims self.old.bytes.now }
    {
        let mut attestation = LostVoterAttestationV1::default();
        self.fill_attestation(&mut attestation)?;
        Ok(attestation)
    }

    // The same, into a place that is blank.
    #[tactic(auto, using(layout::specs::ReadingLaws::reads_claims, layout::specs::ReadingLaws::blank_candidate, layout::specs::ReadingLaws::blank_controller))]
    fn fill_attestation(&mut self, place: &mut LostVoterAttestationV1) -> Result<(), Refusal>
        requires { place.old ≡ blank_lost_voter_attestation_v1 }
        ensures { told_at result place.new self.new.bytes.now ≡ reads claims self.old.bytes.now }
    {
        let request = self.claims_request()?;
        let request_id = request.request_id;
        let request_digest = request.request_digest;
        place.request_id = request_id;
        place.request_digest = request_digest;
        let slot = self.claims_slot()?;
        let cluster_instance = slot.cluster_instance;
        let old_descriptor_digest = slot.old_descriptor_digest;
        let candidate_key_digest = slot.candidate_key_digest;
        place.cluster_instance = cluster_instance;
        place.slot = slot.identity.slot;
        place.expected_incarnation = slot.identity.incarnation;
        place.old_descriptor_digest = old_descriptor_digest;
        place.candidate_key_digest = candidate_key_digest;
        place.admission_generation = self.u64()?;
        self.fill_spiffe_id(&mut place.candidate_spiffe_id)?;
        self.fill_spiffe_id(&mut place.controller_spiffe_id)?;
        let signing_key_digest = self.array()?;
        place.signing_key_digest = signing_key_digest;
        let end = self.claims_end()?;
        let policy_digest = end.policy_digest;
        let signature = end.signature;
        place.reason = end.reason;
        place.policy_digest = policy_digest;
        place.observation_start_ms = end.times.observation_start_ms;
        place.decision_ms = end.times.decision_ms;
        place.issued_ms = end.times.issued_ms;
        place.expires_ms = end.times.expires_ms;
        place.signature = signature;
        Ok(())
    }

    // The evidence of a replacement.
    #[tactic(auto, using(format::specs::Reads::reads_four), unfolding(layout::specs::Layout::evidence))]
    fn evidence(&mut self) -> Result<VoterReplacementEvidence, Refusal>
        ensures { told result self.new.bytes.now ≡ reads evidence self.old.bytes.now }
    {
        let prepare = self.log_id()?;
        let (has_snapshot, snapshot) = self.optional(VoterSnapshotEvidence::default())?;
        let early = self.three_cuts()?;
        let late = self.three_cuts()?;
        Ok(evidence_of(prepare, has_snapshot, snapshot, early, late))
    }

    // An open request, into a place that is blank.
    #[tactic(auto, using(layout::specs::ReadingLaws::reads_replacement, layout::specs::ReadingLaws::blank_attestation, format::specs::ReadsMore::reads_boxed), unfolding(layout::specs::Layout::sized))]
    fn replacement(&mut self, place: &mut VoterReplacementRecord) -> Result<(), Refusal>
        requires { place.old ≡ blank_voter_replacement_record }
        ensures { told_at result place.new self.new.bytes.now ≡ reads replacement self.old.bytes.now }
    {
        place.expected_revision = self.u64()?;
        let sized = self.sized_bytes(MAX_LOST_VOTER_ATTESTATION_BYTES)?;
        fill_whole_attestation(sized, &mut place.attestation)?;
        place.predecessor = self.configuration()?;
        place.successor = self.configuration()?;
        place.phase = self.choice(PREPARED, UNIFORM)?;
        place.evidence = self.evidence()?;
        Ok(())
    }

    // The front of a table.
    #[tactic(auto, using(format::specs::Reads::reads_four), unfolding(layout::specs::Layout::table_head))]
    fn table_head(&mut self) -> Result<TableHead, Refusal>
        ensures { told result self.new.bytes.now ≡ reads table_head self.old.bytes.now }
    {
        Ok(TableHead {
            cluster_instance: self.array()?,
            manifest_digest: self.array()?,
            revision: self.u64()?,
            configuration_epoch: self.epoch()?,
        })
    }

    // The fields of a table; anything may come after them. A caller in Rust who has no place to lend has
    // them from this; no code here calls it, since its 8 KB are copied once more.
    pub fn read_table(&mut self) -> Result<VoterSlotTable, Refusal>
        ensures form { told result self.new.bytes.now ≡ reads table self.old.bytes.now }
        ensures small { IfOk result (λ table. table.count ≤ 9) }
    {
        let mut table = VoterSlotTable::default();
        self.fill_table(&mut table)?;
        Ok(table)
    }

    // The same, into a place whose content does not matter; it is blank after a refusal.
    pub fn table(&mut self, place: &mut VoterSlotTable) -> Result<(), Refusal>
        ensures form { told_at result place.new self.new.bytes.now ≡ reads table self.old.bytes.now }
        ensures small { IfOk result (λ nothing. place.new.count ≤ 9) }
        ensures blank { OnErr result (place.new ≡ blank_voter_slot_table) }
    {
        *place = VoterSlotTable::default();
        let answer = self.fill_table(place);
        if answer.is_err() {
            *place = VoterSlotTable::default();
        }
        answer
    }

    // The same, into a place that is blank. The table is filled where it stands: a `Result` that has it
    // would copy its 8 KB at each `?`.
    #[tactic(auto, using(layout::specs::ReadingLaws::reads_table, format::specs::Reads::reads_opt, layout::specs::ReadingLaws::blank_slots, layout::specs::ReadingLaws::blank_replacement), unfolding(layout::specs::Layout::slots, layout::specs::Parts::blank_voter_slot_records))]
    fn fill_table(&mut self, place: &mut VoterSlotTable) -> Result<(), Refusal>
        requires { place.old ≡ blank_voter_slot_table }
        ensures form { told_at result place.new self.new.bytes.now ≡ reads table self.old.bytes.now }
        ensures small { IfOk result (λ nothing. place.new.count ≤ 9) }
    {
        self.magic_and_version()?;
        let head = self.table_head()?;
        let cluster_instance = head.cluster_instance;
        let manifest_digest = head.manifest_digest;
        place.cluster_instance = cluster_instance;
        place.manifest_digest = manifest_digest;
        place.revision = head.revision;
        place.configuration_epoch = head.configuration_epoch;
        let count = self.count()?;
        place.count = count;
        self.fill(count, &mut place.slots)?;
        let is_open = self.flag()?;
        place.has_replacement = is_open;
        if !is_open {
            return Ok(());
        }
        self.replacement(&mut place.replacement)
    }
}

// A member of a configuration.
impl Decode for VoterSlotMember {
    ghost form = { member };

    #[tactic(auto, using(format::specs::Reads::reads_two), unfolding(layout::specs::Layout::member))]
    fn decode(input: &mut Reader) -> Result<VoterSlotMember, Refusal> {
        let identity = input.identity()?;
        let binding = input.binding()?;
        Ok(member_of(identity, binding))
    }
}

// A receipt.
impl Decode for VoterReplacementResult {
    ghost form = { replacement_result };

    #[tactic(auto, using(format::specs::Reads::reads_four), unfolding(layout::specs::Layout::replacement_result))]
    fn decode(input: &mut Reader) -> Result<VoterReplacementResult, Refusal> {
        let head = input.result_head()?;
        let configuration_epoch = input.epoch()?;
        let kind = input.choice(COMPLETED, SUPERSEDED)?;
        let terminal = input.log_id()?;
        Ok(result_of(head, configuration_epoch, kind, terminal))
    }
}

// A slot.
impl Decode for VoterSlotRecord {
    ghost form = { slot };

    #[tactic(auto, using(format::specs::Reads::reads_three), unfolding(layout::specs::Layout::slot))]
    fn decode(input: &mut Reader) -> Result<VoterSlotRecord, Refusal> {
        let head = input.slot_member()?;
        let phase = input.choice(PENDING, VOTING)?;
        let (has_last_result, last_result) = input.optional(VoterReplacementResult::default())?;
        Ok(VoterSlotRecord {
            member: head.member,
            retired_through: head.retired_through,
            phase,
            has_last_result,
            last_result,
        })
    }
}

// The evidence of a snapshot.
impl Decode for VoterSnapshotEvidence {
    ghost form = { snapshot };

    #[tactic(auto, using(format::specs::Reads::reads_three), unfolding(layout::specs::Layout::snapshot))]
    fn decode(input: &mut Reader) -> Result<VoterSnapshotEvidence, Refusal> {
        Ok(VoterSnapshotEvidence {
            cut: input.log_id()?,
            snapshot_id: input.snapshot_id()?,
            digest: input.array()?,
        })
    }
}

// All of the bytes are one attestation, of the rule of validation.rs. No code here calls it: it stays
// for callers in Rust, since what this layer has promised stays promised.
pub fn read_whole_attestation(bytes: &[u8]) -> Result<LostVoterAttestationV1, Refusal>
    ensures { told_whole result (length bytes.now) ≡ whole attestation bytes.now }
{
    let mut attestation = LostVoterAttestationV1::default();
    fill_whole_attestation(bytes, &mut attestation)?;
    Ok(attestation)
}

// The same, into a place that the caller has blanked, as that of a table is: blanked once more here,
// an attestation of short names would take a fifth longer to read.
#[tactic(auto, using(format::specs::ReadsMore::reads_whole, format::specs::Reads::reads_check), unfolding(layout::specs::Layout::attestation, format::specs::Num::pick))]
pub fn fill_whole_attestation(
    bytes: &[u8],
    place: &mut LostVoterAttestationV1,
) -> Result<(), Refusal>
    requires { place.old ≡ blank_lost_voter_attestation_v1 }
    ensures { told_whole_at result place.new (length bytes.now) ≡ whole attestation bytes.now }
{
    let mut input = Reader::new(bytes);
    input.fill_attestation(place)?;
    input.finish()?;
    if !place.is_valid() {
        return Err(Refusal::InvalidRecord);
    }
    Ok(())
}
