// Observed memberships.
//
// Ported from `observe_membership` of crates/opc-consensus/src/voter_slots/control.rs of
// openpacketcore-sdk, commit 717de332e7, Apache-2.0 (see NOTICE). Changed: what is seen is judged
// before anything is made, and the tests of a changed table stand here as tests of the evidence.
// Nothing is validated first: ids may repeat there, and stand in any order.
ghost use Rattle.std.specs.Prelude.{Ok, ◌+◌, ◌<◌, ◌≤◌, ◌≡◌, cond, eqb, false, true, set};
ghost use Rattle.std.specs.List.{position};
ghost use Rattle.identity.specs.Answer.{Accepted, InvalidTransition, is_accepted};
ghost use Rattle.records.specs.Records.{slot_at};
ghost use Rattle.records.specs.Successor.{slot_index};
ghost use Rattle.records.specs.Validation.{target_phase, validate, validity};
ghost use Rattle.records.specs.With.{in_phase, operation_with, present, table_with};
ghost use Rattle.control.specs.Control.{target_index, target_slot};
ghost use Rattle.control.specs.Judgement.{added, carried, joint_test, learner_test, uniform_test};
ghost use Rattle.control.specs.Judgement.Addition.{adds_joint, adds_learner, adds_uniform};
ghost use Rattle.control.specs.Judgement.Verdict.{refused};
ghost use Rattle.control.specs.Observation.{is_obsolete, member_index, observe_membership, see, see_phase, split_sets};
ghost use Rattle.control.specs.ObserveSight.{Room, answer_of_observed, confirmed, entry_weighed, few_members, is_change, judge_closed, judge_known, judge_members, judge_seen, judge_sets, lingers_as, seen_by, seen_of, seen_old, sight_of, tests_of, verdict_of_observed, weighed};

use crate::apply::Controlled;
use crate::judge::fits_continuation;
use crate::sets::*;
use identity::answer::{Answer, Refusal};
use identity::identity::*;
use records::evidence::log_id_follows;
use records::records::*;
use records::validation::target_phase;

// What sets and nodes are to the open request.
#[derive(Clone, Copy)]
pub enum Seen {
    // Not what this phase allows.
    Strange,
    // What this phase has already.
    NothingNew,
    // The learner was added.
    NewLearner,
    // The joint membership.
    NewJoint,
    // The successor's membership alone.
    NewUniform,
}

// What an observation that is accepted does to the table: nothing, or which change.
#[derive(Clone, Copy)]
pub enum Observed {
    Keep,
    AddLearner,
    AddJoint,
    AddUniform,
}

// The tests of the sets and the nodes. Each is a yes or no with no value beside it.
#[derive(Clone, Copy)]
pub struct SetTests {
    // The successor has no id that the predecessor lacks.
    pub no_candidate: bool,
    // The one set is the predecessor's.
    pub is_old: bool,
    // The phase and the nodes fit the predecessor's set.
    pub fits_old: bool,
    // The candidate is among the nodes.
    pub has_candidate: bool,
    // The sets are the predecessor's and the successor's, and the nodes fit them.
    pub is_joint: bool,
    // The one set is the successor's, and so are the nodes.
    pub is_new: bool,
}

// ---- what is seen

// The predecessor's set of voters, with or without the candidate's node.
#[tactic(auto, unfolding(crate::specs::ObserveSight::seen_old))]
fn see_old(phase: u8, fits: bool, candidate: bool) -> Seen
    ensures { sight_of result ≡ seen_old phase fits candidate }
{
    if !fits {
        return Seen::Strange;
    }
    if candidate {
        if phase < SNAPSHOT_INSTALLED {
            return Seen::Strange;
        }
        if phase == SNAPSHOT_INSTALLED {
            return Seen::NewLearner;
        }
        return Seen::NothingNew;
    }
    if LEARNER_ADDED <= phase {
        return Seen::Strange;
    }
    Seen::NothingNew
}

// What is new in the phase before a phase, and is there in that phase.
#[tactic(auto, using(crate::specs::ObserveSetsLaws::eqb_next))]
fn see_phase(phase: u8, from: u8, at: u8, new: Seen) -> Seen
    requires { from + 1 ≡ at }
    ensures { sight_of result ≡ see_phase phase at (sight_of new) }
{
    if phase == from {
        return new;
    }
    if phase == at {
        return Seen::NothingNew;
    }
    Seen::Strange
}

// What sets and nodes are to the open request, by the tests.
#[tactic(auto, unfolding(crate::specs::ObserveSight::seen_by))]
fn see_by(phase: u8, tests: SetTests) -> Seen
    ensures { sight_of result ≡ seen_by phase tests }
{
    if tests.no_candidate {
        return Seen::Strange;
    }
    if tests.is_old {
        return see_old(phase, tests.fits_old, tests.has_candidate);
    }
    if tests.is_joint {
        return see_phase(phase, FENCED, JOINT, Seen::NewJoint);
    }
    if tests.is_new {
        return see_phase(phase, JOINT, UNIFORM, Seen::NewUniform);
    }
    Seen::Strange
}

// The tests: `old` and `new` are the ids of the members of the predecessor and of the successor.
fn test_sets(
    old: &[ConsensusNodeId],
    new: &[ConsensusNodeId],
    membership: &Membership,
    phase: u8,
    known: bool,
    lingers: bool,
) -> SetTests
    ensures { result ≡ tests_of phase old.now new.now membership.now.observation.sets.now membership.now.observation.counts.now membership.now.observation.nodes.now known lingers }
{
    let observation = &membership.observation;
    let nodes = observation.nodes;
    let candidate = least_new(old, new);
    let has_old = is_subset(old, nodes);
    let has_new = is_subset(new, nodes);
    let only_new = is_subset(nodes, new);
    // Asked only where the one set is the predecessor's: then its length is the `old.len()` of the
    // original.
    let one_more = is_one_more(nodes.len(), observation.sets.len());
    SetTests {
        no_candidate: candidate == NO_ID,
        is_old: observation.is_one_set(old),
        fits_old: (((phase < JOINT) & has_old) & one_more) & lingers,
        has_candidate: contains(nodes, candidate),
        is_joint: observation.are_two_sets(old, new) & (known & (has_old & has_new)),
        is_new: observation.is_one_set(new) & (only_new & has_new),
    }
}

// ---- a superseded candidate, which may stay until the engine removes it

// The place of the first of the members of that slot.
fn member_place(members: &[VoterSlotMember], slot: SlotId) -> Option<usize>
    ensures { result ≡ position (λ m. eqb m.identity.slot slot) members.now }
{
    members
        .iter()
        .position(|member| member.identity.slot == slot)
}

// The place of the member of that slot, or the count: the definition `member_index` gives the count
// where there is none, and `is_obsolete` compares it with the count. That it counts nine members at most
// is what an `OpenRequest` knows.
fn member_index(configuration: &VoterConfiguration, slot: SlotId) -> usize
    requires { configuration.now.count ≤ 9 }
    ensures { result ≡ member_index configuration.now slot }
{
    member_place(configuration.members_in_use(), slot).unwrap_or(configuration.count)
}

// ---- what an open request is seen to be

// An open request whose two configurations count nine members at most, so that the code may go by
// their counts.
#[derive(Clone, Copy)]
struct OpenRequest<'a> {
    operation: &'a VoterReplacementRecord,
    ghost few_before: { operation.now.predecessor.count ≤ 9 },
    ghost few_after: { operation.now.successor.count ≤ 9 },
}

impl OpenRequest<'_> {
    // The identity is a superseded candidate's: of the slot being replaced, after the predecessor's
    // incarnation, and not after the attested one.
    #[tactic(auto, unfolding(crate::specs::Observation::is_obsolete))]
    fn is_obsolete(&self, identity: VoterSlotIdentity) -> bool
        ensures { result ≡ is_obsolete self.now.operation.now (Ok identity) }
    {
        let operation = self.operation;
        let predecessor = &operation.predecessor;
        let slot = operation.attestation.slot;
        let at = member_index(predecessor, slot);
        if predecessor.count <= at {
            return false;
        }
        let retired = predecessor.members[at].identity.incarnation;
        (((operation.phase <= SNAPSHOT_INSTALLED) & (identity.slot == slot))
            & (retired < identity.incarnation))
            & (identity.incarnation <= operation.attestation.expected_incarnation)
    }

    // Whether the node of neither configuration, if there is one, is a superseded candidate.
    #[tactic(auto, unfolding(crate::specs::Observation::is_obsolete))]
    fn may_linger(&self, node: Option<ConsensusNodeId>) -> bool
        ensures { result ≡ lingers_as self.now.operation.now node }
    {
        match node.map(VoterSlotIdentity::from_node_id) {
            None => true,
            Some(Ok(identity)) => self.is_obsolete(identity),
            Some(Err(_)) => false,
        }
    }

    // `old` and `new` are the ids of the members of the predecessor and of the successor.
    fn see_ids(
        &self,
        old: &[ConsensusNodeId],
        new: &[ConsensusNodeId],
        membership: &Membership,
    ) -> Seen
        ensures { sight_of result ≡ seen_of self.now.operation.now old.now new.now membership.now.observation.sets.now membership.now.observation.counts.now membership.now.observation.nodes.now }
    {
        let outside = first_outside(membership.observation.nodes, old, new);
        let lingers = self.may_linger(outside);
        let phase = self.operation.phase;
        let tests = test_sets(old, new, membership, phase, outside.is_none(), lingers);
        see_by(phase, tests)
    }

    // `observe_membership` with a request open: what its arms tell apart.
    fn see(&self, membership: &Membership) -> Seen
        ensures { sight_of result ≡ see self.now.operation.now (split_sets membership.now.observation.sets.now membership.now.observation.counts.now) membership.now.observation.nodes.now }
    {
        let predecessor = &self.operation.predecessor;
        let successor = &self.operation.successor;
        let before = ids_of(predecessor);
        let after = ids_of(successor);
        let old = &before[..predecessor.count];
        let new = &after[..successor.count];
        self.see_ids(old, new, membership)
    }
}

// ---- the verdict

// A verdict, or else 25.
fn accept_if(test: bool, accepted: Observed) -> Result<Observed, Refusal>
    ensures { verdict_of_observed result ≡ cond test (verdict_of_observed (Ok accepted)) (refused InvalidTransition) }
{
    if test {
        return Ok(accepted);
    }
    Err(Refusal::InvalidTransition)
}

// Whether the cut comes next in the evidence as that of the learner. This test and the two after it
// are a definition each (`learner_test`, `joint_test`, `uniform_test`), with another part of the
// evidence before it.
fn is_learner_cut(evidence: &VoterReplacementEvidence, cut: VoterSlotLogId) -> bool
    ensures { result ≡ learner_test evidence.now cut }
{
    let later = log_id_follows(cut, evidence.snapshot.cut, false);
    later & fits_continuation(evidence.continuation, cut, false)
}

// Whether the cut comes next in the evidence as that of the joint membership.
fn is_joint_cut(evidence: &VoterReplacementEvidence, cut: VoterSlotLogId) -> bool
    ensures { result ≡ joint_test evidence.now cut }
{
    log_id_follows(cut, evidence.fence.cut, false)
}

// Whether the cut comes next in the evidence as that of the uniform membership.
fn is_uniform_cut(evidence: &VoterReplacementEvidence, cut: VoterSlotLogId) -> bool
    ensures { result ≡ uniform_test evidence.now cut }
{
    log_id_follows(cut, evidence.joint.cut, false)
}

// ---- the judgement of what is seen

// What is seen of a table that is known to be valid, whose slot being replaced is in this phase.
#[tactic(auto, unfolding(crate::specs::ObserveSight::judge_known))]
fn judge_known(
    table: &VoterSlotTable,
    phase: u8,
    seen: Seen,
    cut: VoterSlotLogId,
) -> Result<Observed, Refusal>
    requires { (target_slot table.now).phase ≡ phase }
    ensures { verdict_of_observed result ≡ judge_known table.now (sight_of seen) cut }
{
    let evidence = &table.replacement.evidence;
    match seen {
        Seen::Strange => Err(Refusal::InvalidTransition),
        Seen::NothingNew => {
            let right = target_phase(table.replacement.phase);
            accept_if(phase == right, Observed::Keep)
        }
        Seen::NewLearner => accept_if(is_learner_cut(evidence, cut), Observed::AddLearner),
        Seen::NewJoint => accept_if(is_joint_cut(evidence, cut), Observed::AddJoint),
        Seen::NewUniform => accept_if(is_uniform_cut(evidence, cut), Observed::AddUniform),
    }
}

// A table without the slot being replaced is refused with 25. The place is that of the definition
// `target_index`, which gives the count where there is no such slot.
//
// This judge and `judge_closed` ask for the count: past the nine places the definitions go on over
// blanks, which the code has not.
fn judge_seen(table: &VoterSlotTable, seen: Seen, cut: VoterSlotLogId) -> Result<Observed, Refusal>
    requires { table.now.count ≤ 9 }
    ensures { verdict_of_observed result ≡ judge_seen table.now (sight_of seen) cut }
{
    let at = table.slot_index(table.replacement.attestation.slot);
    if table.count <= at {
        return Err(Refusal::InvalidTransition);
    }
    judge_known(table, table.slots[at].phase, seen, cut)
}

// No request is open: `members` are the ids of the slots.
fn judge_members(members: &[ConsensusNodeId], membership: &Membership) -> Result<Observed, Refusal>
    ensures { verdict_of_observed result ≡ judge_members members.now membership.now.observation.sets.now membership.now.observation.counts.now membership.now.observation.nodes.now }
{
    let one = membership.observation.is_one_set(members);
    let same = is_same(membership.observation.nodes, members);
    accept_if(one & same, Observed::Keep)
}

// `observe_membership` with no request open.
fn judge_closed(table: &VoterSlotTable, membership: &Membership) -> Result<Observed, Refusal>
    requires { (table.now.count ≤ 9) × (table.now.has_replacement ≡ false) }
    ensures { verdict_of_observed result ≡ judge_closed table.now (split_sets membership.now.observation.sets.now membership.now.observation.counts.now) membership.now.observation.nodes.now }
{
    let ids = ids_of_slots(table);
    judge_members(&ids[..table.count], membership)
}

// Past 30 and 31 of what is supplied.
#[tactic(auto, unfolding(crate::specs::ObserveSight::judge_sets))]
fn judge_sets(
    table: &VoterSlotTable,
    membership: &Membership,
    cut: VoterSlotLogId,
) -> Result<Observed, Refusal>
    requires { few_members table.now ≡ true }
    ensures { verdict_of_observed result ≡ judge_sets table.now (split_sets membership.now.observation.sets.now membership.now.observation.counts.now) membership.now.observation.nodes.now cut }
{
    if table.revision == u64::MAX {
        return Err(Refusal::RevisionExhausted);
    }
    if !table.has_replacement {
        return judge_closed(table, membership);
    }
    let open = OpenRequest {
        operation: &table.replacement,
    };
    let seen = open.see(membership);
    judge_seen(table, seen, cut)
}

// No count that the code goes by is above nine.
fn has_few_members(table: &VoterSlotTable) -> bool
    ensures { result ≡ few_members table.now }
{
    let old = table.replacement.predecessor.count;
    let new = table.replacement.successor.count;
    (table.count <= MAX_FIXED_VOTER_SLOTS)
        & (!table.has_replacement
            | ((old <= MAX_FIXED_VOTER_SLOTS) & (new <= MAX_FIXED_VOTER_SLOTS)))
}

// The verdict. On a table not known to be valid a change still needs `confirm`. It takes the table by
// value, for a caller that holds it so; what is judged is the table that is lent (`weigh_lent`).
pub fn weigh(table: VoterSlotTable, observation: VoterObservation) -> Result<Observed, Refusal>
    ensures { verdict_of_observed result ≡ weighed table observation.entry.sets.now observation.entry.counts.now observation.entry.nodes.now observation.entry.cut }
{
    weigh_lent(&table, observation)
}

// The same on a table that is lent. A caller that judges one table many times lends it: by value, the
// table is copied for each observation.
#[tactic(auto, unfolding(crate::specs::Observation::representable_sets, crate::specs::ObserveSight::weighed))]
pub fn weigh_lent(
    table: &VoterSlotTable,
    observation: VoterObservation,
) -> Result<Observed, Refusal>
    ensures { verdict_of_observed result ≡ weighed table.now observation.entry.sets.now observation.entry.counts.now observation.entry.nodes.now observation.entry.cut }
{
    let few = has_few_members(table);
    let counted = add_up(observation.counts, observation.sets.len());
    let held = are_held(observation.sets);
    let nodes_held = are_held(observation.nodes);
    if !(few & ((counted & held) & nodes_held)) {
        return Err(Refusal::Unrepresentable);
    }
    let rising = sets_rise(observation.sets, observation.counts);
    let nodes_rise = rises(observation.nodes);
    if !(rising & nodes_rise) {
        return Err(Refusal::NotRising);
    }
    let membership = Membership { observation };
    judge_sets(table, &membership, observation.cut)
}

// The whole validity is asked for only where something is new.
#[tactic(auto, unfolding(crate::specs::ObserveSight::confirmed))]
fn confirm(table: &VoterSlotTable, judged: Result<Observed, Refusal>) -> Result<Observed, Refusal>
    ensures { verdict_of_observed result ≡ confirmed (is_accepted (validity table.now)) (verdict_of_observed judged) }
{
    let observed = judged?;
    if let Observed::Keep = observed {
        return judged;
    }
    let valid = table.validate().is_ok();
    accept_if(valid, observed)
}

// The answer of an observation that was so judged. It is not one function with `answer_of` of
// judge.rt: both are public, each with the clause of its own definition.
pub fn answer_of_observed(judged: Result<Observed, Refusal>) -> Answer
    ensures { result ≡ answer_of_observed (verdict_of_observed judged) }
{
    judged.and(Ok(()))
}

// ---- the next table

// The next revision, in that phase of the request; the slot being replaced has the phase that goes
// with it.
fn enter_phase(table: &mut VoterSlotTable, phase: u8)
    requires { Room table.old }
    ensures { table.new ≡ table_with table.old (table.old.revision + 1) table.old.configuration_epoch (set table.old.slots (target_index table.old) (in_phase (target_slot table.old) (target_phase phase))) true (operation_with table.old.replacement phase table.old.replacement.evidence) }
{
    let at = table.slot_index(table.replacement.attestation.slot);
    table.slots[at].phase = target_phase(phase);
    table.replacement.phase = phase;
    table.has_replacement = true;
    table.revision += 1;
}

// A cut that is present. Its clause names the definition `present`. A `From` in `records` would be an
// impl with a clause of its own for this file and one line of judge.rt, and no shorter.
fn present(cut: VoterSlotLogId) -> OptionalLogId
    ensures { result ≡ present cut }
{
    OptionalLogId { is_some: true, cut }
}

// What an accepted observation does to the table.
#[tactic(auto, unfolding(crate::specs::Judgement::carried, crate::specs::Judgement::added))]
fn carry_out(table: &mut VoterSlotTable, observed: Observed, cut: VoterSlotLogId)
    requires { is_change (verdict_of_observed (Ok observed)) ≡ true → Room table.old }
    ensures { (Accepted, table.new) ≡ carried (added table.old cut) table.old (verdict_of_observed (Ok observed)) }
{
    match observed {
        Observed::Keep => {}
        Observed::AddLearner => {
            enter_phase(table, LEARNER_ADDED);
            table.replacement.evidence.learner = present(cut);
        }
        Observed::AddJoint => {
            enter_phase(table, JOINT);
            table.replacement.evidence.joint = present(cut);
        }
        Observed::AddUniform => {
            enter_phase(table, UNIFORM);
            table.replacement.evidence.uniform = present(cut);
            table.configuration_epoch = table.replacement.successor.epoch;
        }
    }
}

// ---- the next table, of a table by value
//
// All nine places are passed, and the place is compared in each turn: such a loop is written out by
// the compiler, with a constant index in each turn. An index that is no constant has the table
// copied.

// `slot_index`, with the places passed from the last to the first.
fn slot_place(table: VoterSlotTable, slot: SlotId) -> usize
    requires { table.count ≤ 9 }
    ensures { result ≡ slot_index table slot }
{
    let mut at: usize = MAX_FIXED_VOTER_SLOTS;
    let mut i: usize = MAX_FIXED_VOTER_SLOTS;
    while 0 < i {
        i -= 1;
        if (table.count <= i) | (table.slots[i].member.identity.slot == slot) {
            at = i;
        }
    }
    at
}

// The table with the phase of the slot at a place.
fn with_phase(table: VoterSlotTable, at: usize, phase: u8) -> VoterSlotTable
    requires { at < 9 }
    ensures { result ≡ table_with table table.revision table.configuration_epoch (set table.slots at (in_phase (slot_at table at) phase)) table.has_replacement table.replacement }
{
    let mut next = table;
    let mut i: usize = 0;
    while i < MAX_FIXED_VOTER_SLOTS {
        if i == at {
            next.slots[i].phase = phase;
        }
        i += 1;
    }
    next
}

// The membership with the learner.
//
// This maker and the two after it are public, and each has a clause with no case in it. One maker that
// is given what was observed would have a case for `Keep`, at which no maker is called. None goes by
// `carry_out`: a table by value that is lent there is copied, and the replay makes its tables by these.
pub fn learner_table(table: VoterSlotTable, cut: VoterSlotLogId) -> VoterSlotTable
    requires { Room table }
    ensures { result ≡ added table cut adds_learner }
{
    let mut next = table;
    let slot = table.replacement.attestation.slot;
    let at = slot_place(table, slot);
    next.replacement.evidence.learner.is_some = true;
    next.replacement.evidence.learner.cut.term = cut.term;
    next.replacement.evidence.learner.cut.index = cut.index;
    next.replacement.phase = LEARNER_ADDED;
    next.has_replacement = true;
    next.revision = table.revision + 1;
    with_phase(next, at, CATCHING_UP)
}

// The joint membership.
pub fn joint_table(table: VoterSlotTable, cut: VoterSlotLogId) -> VoterSlotTable
    requires { Room table }
    ensures { result ≡ added table cut adds_joint }
{
    let mut next = table;
    let slot = table.replacement.attestation.slot;
    let at = slot_place(table, slot);
    next.replacement.evidence.joint.is_some = true;
    next.replacement.evidence.joint.cut.term = cut.term;
    next.replacement.evidence.joint.cut.index = cut.index;
    next.replacement.phase = JOINT;
    next.has_replacement = true;
    next.revision = table.revision + 1;
    with_phase(next, at, VOTING)
}

// The successor's membership.
pub fn uniform_table(table: VoterSlotTable, cut: VoterSlotLogId) -> VoterSlotTable
    requires { Room table }
    ensures { result ≡ added table cut adds_uniform }
{
    let mut next = table;
    let slot = table.replacement.attestation.slot;
    let at = slot_place(table, slot);
    next.replacement.evidence.uniform.is_some = true;
    next.replacement.evidence.uniform.cut.term = cut.term;
    next.replacement.evidence.uniform.cut.index = cut.index;
    next.replacement.phase = UNIFORM;
    next.configuration_epoch = table.replacement.successor.epoch;
    next.has_replacement = true;
    next.revision = table.revision + 1;
    with_phase(next, at, VOTING)
}

// ---- the calls
//
// The definition `observe_membership` has the four parts of an observation as four parameters, so that
// each clause takes them out. The calls by value are for a Rust caller that holds its table so.

// An observation of a table that is known to be valid, by value.
pub fn observe_valid(mut table: VoterSlotTable, observation: VoterObservation) -> Controlled
    requires { validate table ≡ Accepted }
    ensures { (result.answer, result.table) ≡ observe_membership table observation.entry.sets.now observation.entry.counts.now observation.entry.nodes.now observation.entry.cut }
{
    let answer = observe_in_place(&mut table, observation);
    Controlled { answer, table }
}

// `VoterSlotTable::observe_membership`.
pub fn observe_membership(mut table: VoterSlotTable, observation: VoterObservation) -> Controlled
    ensures { (result.answer, result.table) ≡ observe_membership table observation.entry.sets.now observation.entry.counts.now observation.entry.nodes.now observation.entry.cut }
{
    let answer = observe_membership_in_place(&mut table, observation);
    Controlled { answer, table }
}

// The verdict of the entry point: 30 of the table, and its validity where something is new.
fn weigh_entry(table: &VoterSlotTable, observation: VoterObservation) -> Result<Observed, Refusal>
    ensures { verdict_of_observed result ≡ entry_weighed table.now observation.entry.sets.now observation.entry.counts.now observation.entry.nodes.now observation.entry.cut }
{
    if !table.is_representable() {
        return Err(Refusal::Unrepresentable);
    }
    let judged = weigh_lent(table, observation);
    confirm(table, judged)
}

// `observe_membership` on a table that is lent: any table, any sets, any nodes and any cut.
#[tactic(auto, using(crate::proofs::Stored::observed_entry, crate::proofs::Stored::entry_room), unfolding(crate::specs::Judgement::carried))]
pub fn observe_membership_in_place(
    table: &mut VoterSlotTable,
    observation: VoterObservation,
) -> Answer
    ensures { (result, table.new) ≡ observe_membership table.old observation.entry.sets.now observation.entry.counts.now observation.entry.nodes.now observation.entry.cut }
{
    let observed = weigh_entry(table, observation)?;
    carry_out(table, observed, observation.cut);
    Ok(())
}

// An observation of a table that is lent and known to be valid.
#[tactic(auto, using(crate::proofs::Stored::observed_valid, crate::proofs::Stored::weighed_room), unfolding(crate::specs::Judgement::carried))]
pub fn observe_in_place(table: &mut VoterSlotTable, observation: VoterObservation) -> Answer
    requires { validate table.old ≡ Accepted }
    ensures { (result, table.new) ≡ observe_membership table.old observation.entry.sets.now observation.entry.counts.now observation.entry.nodes.now observation.entry.cut }
{
    let observed = weigh_lent(table, observation)?;
    carry_out(table, observed, observation.cut);
    Ok(())
}
