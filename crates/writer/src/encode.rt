// The writers of the records, in the order of codec.rs, and their sizes.
//
// Ported from crates/opc-consensus/src/voter_slots/codec.rs of openpacketcore-sdk, commit
// 717de332e7, Apache-2.0 (see NOTICE). Changed: groups of fields that stand together have a writer
// of their own (layout's parts.rt); the size of what varies is computed first.
ghost use Rattle.std.specs.Prelude.{◌≡◌, ◌+◌, ◌≤◌, length};
ghost use Rattle.format.specs.Put.{Put};
ghost use Rattle.format.specs.Through.{boxed};
ghost use Rattle.layout.specs.Parts.{NamesFit, ReplacementFits, TableFits, binding_of, result_head_of, claims_request_of, claims_slot_of, claims_end_of};
ghost use Rattle.layout.specs.Layout as layout;
ghost use Rattle.writer.specs.Size.{attestation_size, slots_size, cut_size, three_cuts_size, configuration_size, evidence_size, replacement_size};
ghost use Rattle.writer.specs.Writes.{HasRoom, IsSized, Wrote};

use crate::writer::{Encode, Writer};
use identity::identity::VoterSlotIdentity;
use layout::parts::*;
use records::records::*;

// The sizes of fields and records, without what varies: names, ids and optional parts.
const FLAG_SIZE: usize = 1;

const U8_SIZE: usize = 1;

const U16_SIZE: usize = 2;

const U64_SIZE: usize = 8;

const REQUEST_ID_SIZE: usize = 16;

const DIGEST_SIZE: usize = 32;

const SIGNATURE_SIZE: usize = 64;

// The magic.
const FORMAT_SIZE: usize = 4;

// Term and index.
const LOG_ID_SIZE: usize = U64_SIZE + U64_SIZE;

// A cut that may be absent, where it is present.
const PRESENT_CUT_SIZE: usize = FLAG_SIZE + LOG_ID_SIZE;

// Slot, incarnation, two digests and the admission generation.
const MEMBER_SIZE: usize = U16_SIZE + U64_SIZE + 2 * DIGEST_SIZE + U64_SIZE;

// Id, digest, incarnation, revision, epoch, kind and the terminal cut.
const RESULT_SIZE: usize = REQUEST_ID_SIZE + DIGEST_SIZE + 3 * U64_SIZE + U8_SIZE + LOG_ID_SIZE;

// Member, retired_through, phase and the flag of the result.
const SLOT_SIZE: usize = MEMBER_SIZE + U64_SIZE + U8_SIZE + FLAG_SIZE;

const FULL_SLOT_SIZE: usize = SLOT_SIZE + RESULT_SIZE;

// Epoch and count.
const CONFIGURATION_SIZE: usize = U64_SIZE + U8_SIZE;

// Version, id, two digests; slot, incarnation, two digests, generation; the lengths of two names;
// two digests, the reason, four times and the signature.
const ATTESTATION_SIZE: usize = U16_SIZE
    + REQUEST_ID_SIZE
    + U16_SIZE
    + 2 * U64_SIZE
    + 2 * U16_SIZE
    + U8_SIZE
    + 6 * DIGEST_SIZE
    + 4 * U64_SIZE
    + SIGNATURE_SIZE;

// The cut of prepare and the flag of the snapshot.
const EVIDENCE_SIZE: usize = LOG_ID_SIZE + FLAG_SIZE;

// Cut, length of the id and digest.
const SNAPSHOT_SIZE: usize = LOG_ID_SIZE + U16_SIZE + DIGEST_SIZE;

const FULL_EVIDENCE_SIZE: usize = EVIDENCE_SIZE + SNAPSHOT_SIZE;

// Expected revision, size of the attestation and phase.
const REPLACEMENT_SIZE: usize = U64_SIZE + U16_SIZE + U8_SIZE;

// Magic, version, two digests, revision, epoch, count and the flag of the replacement.
const TABLE_SIZE: usize = FORMAT_SIZE
    + U16_SIZE
    + 2 * DIGEST_SIZE
    + 2 * U64_SIZE
    + U8_SIZE
    + FLAG_SIZE;

impl<'a> Writer<'a> {
    // `binding`: what follows an identity.
    #[tactic(auto, using(crate::specs::PutLaws::writing), unfolding(layout::specs::Layout::binding))]
    fn binding(&mut self, member: &VoterSlotMember)
        requires { HasRoom ((layout.binding).enc (binding_of member.now)) self.old }
        ensures { Wrote ((layout.binding).enc (binding_of member.now)) self.old self.new }
    {
        self.bytes(&member.key_digest);
        self.bytes(&member.descriptor_digest);
        self.u64(member.admission_generation);
    }

    // The front of a receipt. It is a function of its own, since the search for a proof gives up at a
    // limit of steps: it finds one for this half and one for the whole receipt that calls it, and none
    // for both in one function.
    #[tactic(auto, using(crate::specs::PutLaws::writing), unfolding(layout::specs::Layout::result_head))]
    fn result_head(&mut self, res: &VoterReplacementResult)
        requires { HasRoom ((layout.result_head).enc (result_head_of res.now)) self.old }
        ensures { Wrote ((layout.result_head).enc (result_head_of res.now)) self.old self.new }
    {
        self.bytes(&res.request_id);
        self.bytes(&res.request_digest);
        self.u64(res.incarnation);
        self.u64(res.revision);
    }

    // `unsigned_claims`, and the signature after it, are written in three groups and the names. This is
    // the first group: which request the attestation is of.
    #[tactic(auto, using(crate::specs::PutLaws::writing), unfolding(layout::specs::Layout::claims_request))]
    fn claims_request(&mut self, claims: &LostVoterAttestationV1)
        requires { HasRoom ((layout.claims_request).enc (claims_request_of claims.now)) self.old }
        ensures { Wrote ((layout.claims_request).enc (claims_request_of claims.now)) self.old self.new }
    {
        self.version();
        self.bytes(&claims.request_id);
        self.bytes(&claims.request_digest);
    }

    // The second group: of which slot the attestation is, and for which candidate.
    #[tactic(auto, using(crate::specs::PutLaws::writing), unfolding(layout::specs::Layout::claims_slot))]
    fn claims_slot(&mut self, claims: &LostVoterAttestationV1)
        requires { HasRoom ((layout.claims_slot).enc (claims_slot_of claims.now)) self.old }
        ensures { Wrote ((layout.claims_slot).enc (claims_slot_of claims.now)) self.old self.new }
    {
        let identity = VoterSlotIdentity {
            slot: claims.slot,
            incarnation: claims.expected_incarnation,
        };
        self.bytes(&claims.cluster_instance);
        identity.put(self);
        self.bytes(&claims.old_descriptor_digest);
        self.bytes(&claims.candidate_key_digest);
    }

    // The last group: why and when the candidate is admitted, and the signature.
    #[tactic(auto, using(crate::specs::PutLaws::writing), unfolding(layout::specs::Layout::claims_end))]
    fn claims_end(&mut self, claims: &LostVoterAttestationV1)
        requires { HasRoom ((layout.claims_end).enc (claims_end_of claims.now)) self.old }
        ensures { Wrote ((layout.claims_end).enc (claims_end_of claims.now)) self.old self.new }
    {
        self.u8(claims.reason);
        self.bytes(&claims.policy_digest);
        self.times(claims);
        self.bytes(&claims.signature);
    }

    // `sized_bytes`, of an attestation
    #[tactic(auto, using(crate::specs::PutLaws::writing, crate::specs::PutLaws::of_boxed))]
    fn boxed_attestation(&mut self, claims: &LostVoterAttestationV1)
        requires room { HasRoom ((boxed layout.attestation 8192).enc claims.now) self.old }
        requires small { NamesFit claims.now }
        requires sized { IsSized claims.now }
        ensures { Wrote ((boxed layout.attestation 8192).enc claims.now) self.old self.new }
    {
        self.u16(attestation_size(claims) as u16);
        claims.put(self);
    }
}

// A member of a configuration.
impl Encode for VoterSlotMember {
    ghost bytes = { (layout.member).enc };

    #[tactic(auto, using(crate::specs::PutLaws::writing), unfolding(layout::specs::Layout::member))]
    fn put(&self, output: &mut Writer) {
        self.identity.put(output);
        output.binding(self);
    }
}

// `configuration`
impl Encode for VoterConfiguration {
    ghost bytes = { (layout.configuration).enc };

    ghost fits = { λ c. c.count ≤ 9 };

    #[tactic(auto, using(crate::specs::PutLaws::listed), unfolding(layout::specs::Layout::configuration))]
    fn put(&self, output: &mut Writer) {
        output.u64(self.epoch);
        output.u8(self.count as u8);
        output.all(self.members_in_use());
    }
}

// A receipt.
impl Encode for VoterReplacementResult {
    ghost bytes = { (layout.replacement_result).enc };

    #[tactic(auto, using(crate::specs::PutLaws::writing), unfolding(layout::specs::Layout::replacement_result))]
    fn put(&self, output: &mut Writer) {
        output.result_head(self);
        output.u64(self.configuration_epoch);
        output.u8(self.kind);
        self.terminal.put(output);
    }
}

// A slot.
impl Encode for VoterSlotRecord {
    ghost bytes = { (layout.slot).enc };

    #[tactic(auto, using(crate::specs::PutLaws::optional), unfolding(layout::specs::Layout::slot, layout::specs::Layout::slot_member))]
    fn put(&self, output: &mut Writer) {
        self.member.identity.put(output);
        output.u64(self.retired_through);
        output.binding(&self.member);
        output.u8(self.phase);
        output.optional(self.has_last_result, &self.last_result);
    }
}

// `encode_lost_voter_attestation`, of one that is valid.
impl Encode for LostVoterAttestationV1 {
    ghost bytes = { (layout.claims).enc };

    ghost fits = { NamesFit };

    #[tactic(auto, using(crate::specs::PutLaws::writing), unfolding(layout::specs::Layout::claims, layout::specs::Layout::claims_names))]
    fn put(&self, output: &mut Writer) {
        output.claims_request(self);
        output.claims_slot(self);
        output.u64(self.admission_generation);
        self.candidate_spiffe_id.put(output);
        self.controller_spiffe_id.put(output);
        output.bytes(&self.signing_key_digest);
        output.claims_end(self);
    }
}

// The evidence of a snapshot.
impl Encode for VoterSnapshotEvidence {
    ghost bytes = { (layout.snapshot).enc };

    ghost fits = { λ s. s.snapshot_id.len ≤ 256 };

    #[tactic(auto, using(crate::specs::PutLaws::writing), unfolding(layout::specs::Layout::snapshot))]
    fn put(&self, output: &mut Writer) {
        self.cut.put(output);
        self.snapshot_id.put(output);
        output.bytes(&self.digest);
    }
}

// The evidence of a replacement.
impl Encode for VoterReplacementEvidence {
    ghost bytes = { (layout.evidence).enc };

    ghost fits = { λ e. e.snapshot.snapshot_id.len ≤ 256 };

    #[tactic(auto, using(crate::specs::PutLaws::optional), unfolding(layout::specs::Layout::evidence))]
    fn put(&self, output: &mut Writer) {
        self.prepare.put(output);
        output.optional(self.has_snapshot, &self.snapshot);
        early_cuts(self).put(output);
        late_cuts(self).put(output);
    }
}

// An open request.
impl Encode for VoterReplacementRecord {
    ghost bytes = { (layout.replacement).enc };

    ghost fits = { λ r. ReplacementFits r × IsSized r.attestation };

    #[tactic(auto, using(crate::specs::PutLaws::writing), unfolding(layout::specs::Layout::replacement, layout::specs::Layout::change))]
    fn put(&self, output: &mut Writer) {
        output.u64(self.expected_revision);
        output.boxed_attestation(&self.attestation);
        self.predecessor.put(output);
        self.successor.put(output);
        output.u8(self.phase);
        self.evidence.put(output);
    }
}

// `encode_voter_slot_table`, of a table that is valid.
impl Encode for VoterSlotTable {
    ghost bytes = { (layout.table).enc };

    ghost fits = { λ t. TableFits t × IsSized t.replacement.attestation };

    #[tactic(auto, using(crate::specs::PutLaws::tabled), unfolding(layout::specs::Layout::table_head))]
    fn put(&self, output: &mut Writer) {
        output.magic_and_version();
        output.bytes(&self.cluster_instance);
        output.bytes(&self.manifest_digest);
        output.u64(self.revision);
        output.u64(self.configuration_epoch);
        output.u8(self.count as u8);
        output.all(self.slots_in_use());
        output.optional(self.has_replacement, &self.replacement);
    }
}

// `encode_voter_slot_table`, of a table that is valid. It takes the place in the buffer as `put_bytes`
// does, which all that is written goes through. It and `table_size` take the table by value: of
// one that lies behind a `&` the check does not know that its arrays have their lengths, and so not
// how many bytes they take.
pub fn put_table(buffer: &mut [u8], at: usize, table: VoterSlotTable) -> usize
    requires { (at + length ((layout.table).enc table) ≤ length buffer.old) × TableFits table }
    ensures { Put ((layout.table).enc table) at buffer.old buffer.new result }
{
    let mut output = Writer::new(buffer, at);
    table.put(&mut output);
    output.at
}

// The functions from here on say how many bytes a value takes, as Size.antt does. Each has a size of
// its own, and is called once or twice: as a method of `Encode` there would be a size, with its clause,
// of the other writers too, which nobody asks for.
//
// How many bytes an attestation takes.
fn attestation_size(claims: &LostVoterAttestationV1) -> usize
    requires { NamesFit claims.now }
    ensures { result ≡ attestation_size claims.now }
{
    ATTESTATION_SIZE + claims.candidate_spiffe_id.len + claims.controller_spiffe_id.len
}

// How many bytes the slots in use take. The definition is a sum over the places below a count, and so
// is the loop's.
#[tactic(auto, using(crate::specs::SizeLaws::sizes), unfolding(crate::specs::Size::slots_size))]
fn slots_size(slots: &[VoterSlotRecord]) -> usize
    requires { length slots.now ≤ 9 }
    ensures { result ≡ slots_size slots.now (length slots.now) }
{
    let mut size = 0;
    for slot in slots {
        size += if slot.has_last_result {
            FULL_SLOT_SIZE
        } else {
            SLOT_SIZE
        };
    }
    size
}

// How many bytes a cut takes, with its flag.
fn cut_size(optional: OptionalLogId) -> usize
    ensures { result ≡ cut_size optional }
{
    if optional.is_some {
        PRESENT_CUT_SIZE
    } else {
        FLAG_SIZE
    }
}

// How many bytes three cuts take.
#[tactic(auto, using(crate::specs::SizeLaws::sizes))]
fn three_cuts_size(cuts: ThreeCuts) -> usize
    ensures { result ≡ three_cuts_size cuts }
{
    cut_size(cuts.first) + cut_size(cuts.second) + cut_size(cuts.third)
}

// How many bytes a configuration takes. It asks for the count, as `slots_size` does, so that the sum
// is no more than a number holds; where a table is written `TableFits` has it.
fn configuration_size(configuration: &VoterConfiguration) -> usize
    requires { configuration.now.count ≤ 9 }
    ensures { result ≡ configuration_size configuration.now }
{
    CONFIGURATION_SIZE + MEMBER_SIZE * configuration.count
}

// How many bytes the evidence of a replacement takes.
#[tactic(auto, using(crate::specs::SizeLaws::sizes), unfolding(crate::specs::Size::evidence_size))]
fn evidence_size(evidence: &VoterReplacementEvidence) -> usize
    requires { evidence.now.snapshot.snapshot_id.len ≤ 256 }
    ensures { result ≡ evidence_size evidence.now }
{
    let cuts = three_cuts_size(early_cuts(evidence)) + three_cuts_size(late_cuts(evidence));
    if evidence.has_snapshot {
        return FULL_EVIDENCE_SIZE + evidence.snapshot.snapshot_id.len + cuts;
    }
    EVIDENCE_SIZE + cuts
}

// How many bytes an open request takes.
#[tactic(auto, using(crate::specs::SizeLaws::sizes), unfolding(crate::specs::Size::replacement_size))]
fn replacement_size(operation: &VoterReplacementRecord) -> usize
    requires { ReplacementFits operation.now }
    ensures { result ≡ replacement_size operation.now }
{
    let configurations = configuration_size(&operation.predecessor)
        + configuration_size(&operation.successor);
    REPLACEMENT_SIZE
        + attestation_size(&operation.attestation)
        + configurations
        + evidence_size(&operation.evidence)
}

// How many bytes a table takes.
#[tactic(auto, using(crate::specs::SizeLaws::sizes))]
pub fn table_size(table: VoterSlotTable) -> usize
    requires { TableFits table }
    ensures { result ≡ length ((layout.table).enc table) }
{
    let front = TABLE_SIZE + slots_size(table.slots_in_use());
    if table.has_replacement {
        return front + replacement_size(&table.replacement);
    }
    front
}
