// Sets of node ids, as the caller of an observation supplies them: one set after another in one
// slice, with their counts in a second one. The ids of a table's members stand in the order of the
// members.
//
// Ported from `observe_membership` of crates/opc-consensus/src/voter_slots/control.rs of
// openpacketcore-sdk, commit 717de332e7, Apache-2.0 (see NOTICE). Changed: a BTreeSet is a slice
// that rises strictly; a set is compared with the members' ids in any order, and nothing is sorted.
ghost use Rattle.std.specs.Prelude.{◌+◌, ◌≤◌, ◌≡◌, true, ◌&&◌, eqb, leb, length};
ghost use Rattle.identity.specs.Text.{every};
ghost use Rattle.control.specs.Observation.{all_rising, contains, difference, is_held_node_id, is_rising, member_node, is_subset, split_sets, total, union_ids};
ghost use Rattle.control.specs.ObserveSets.{are_two_sets, first_of, is_one_set, least_new, listed, no_id, slot_members};

use identity::identity::*;
use records::records::{
    MAX_FIXED_VOTER_SLOTS, VoterConfiguration, VoterSlotLogId, VoterSlotMember, VoterSlotTable,
};

// An observation as its caller supplies it: ids of sets of voters, one set after another, how many
// ids each set has, the nodes, and the engine's cut. Nothing is known of them. Document 01 has the sets
// one behind another in one slice, with their counts beside it, since no set is on a heap.
#[derive(Clone, Copy)]
pub struct VoterObservation<'a> {
    // The sets, one after another.
    pub sets: &'a [ConsensusNodeId],
    // How many ids each of them has.
    pub counts: &'a [usize],
    // The nodes.
    pub nodes: &'a [ConsensusNodeId],
    // Engine cut of the observation.
    pub cut: VoterSlotLogId,
}

impl VoterObservation<'_> {
    // Whether the sets are this one alone. Their number is tested first: ids are compared each with
    // each.
    pub fn is_one_set(&self, ids: &[ConsensusNodeId]) -> bool
        ensures { result ≡ is_one_set self.now.sets.now self.now.counts.now ids.now }
    {
        (self.counts.len() == 1) && is_same(self.sets, ids)
    }

    // Whether the sets are these two.
    #[tactic(auto, using(crate::specs::ObserveSetsLaws::first_count))]
    pub fn are_two_sets(&self, old: &[ConsensusNodeId], new: &[ConsensusNodeId]) -> bool
        requires { total self.now.counts.now ≤ length self.now.sets.now }
        ensures { result ≡ are_two_sets self.now.sets.now self.now.counts.now old.now new.now }
    {
        if self.counts.len() != 2 {
            return false;
        }
        let (before, after) = self.sets.split_at(self.counts[0]);
        is_same(before, old) & is_same(after, new)
    }
}

// An observed membership: an observation whose counts add up to its ids, whose sets and nodes rise,
// and whose nodes are ids that the Rust type can hold.
#[derive(Clone, Copy)]
pub struct Membership<'a> {
    pub observation: VoterObservation<'a>,
    pub ghost counted: { total observation.counts.now ≡ length observation.sets.now },
    pub ghost held: { every is_held_node_id observation.nodes.now ≡ true },
    pub ghost rising: { all_rising (split_sets observation.sets.now observation.counts.now) ≡ true },
    pub ghost nodes_rise: { is_rising observation.nodes.now ≡ true },
}

// No id of a member or a node: those lie below 2^63.
pub const NO_ID: ConsensusNodeId = u64::MAX;

// Whether the counts add up to the length. What is left of it is counted down, so that no sum
// wraps.
#[tactic(auto, using(crate::specs::ObserveSetsLaws::total_more, crate::specs::ObserveSetsLaws::total_end))]
pub fn add_up(counts: &[usize], len: usize) -> bool
    ensures { result ≡ eqb (total counts.now) len }
{
    let mut left = len;
    for count in counts {
        if left < *count {
            return false;
        }
        left -= *count;
    }
    left == 0
}

// Whether the Rust type can hold every id.
//
// `all` is as fast in this loop and those of `rises` and `is_subset`, but says what it answers index
// by index, where the definitions go along the list: the proofs did not close. `sets_rise` takes one
// set after another off the front of a slice, which an iterator of the counts does not have.
#[tactic(auto, using(identity::specs::TextLaws::all_more), unfolding(identity::specs::Text::every))]
pub fn are_held(ids: &[ConsensusNodeId]) -> bool
    ensures { result ≡ every is_held_node_id ids.now }
{
    let mut all = true;
    for id in ids {
        all = all & (*id <= CONSENSUS_NODE_ID_MAX);
    }
    all
}

// Whether the ids rise strictly. (By their index: `windows(2)` with `all` was tried, and so was
// `is_sorted_by`, of which the proof did not close either.)
#[tactic(auto, using(crate::specs::ObserveSetsLaws::rising_more, crate::specs::ObserveSetsLaws::rising_one))]
pub fn rises(ids: &[ConsensusNodeId]) -> bool
    ensures { result ≡ is_rising ids.now }
{
    let mut all = true;
    for i in 1..ids.len() {
        all = all & (ids[i - 1] < ids[i]);
    }
    all
}

// Whether each set rises.
#[tactic(auto, using(crate::specs::ObserveSetsLaws::total_more, crate::specs::ObserveSetsLaws::sets_more, crate::specs::ObserveSetsLaws::sets_end))]
pub fn sets_rise(sets: &[ConsensusNodeId], counts: &[usize]) -> bool
    requires { total counts.now ≤ length sets.now }
    ensures { result ≡ all_rising (split_sets sets.now counts.now) }
{
    let mut all = true;
    let mut rest = sets;
    for count in counts {
        let (set, later) = rest.split_at(*count);
        all = all & rises(set);
        rest = later;
    }
    all
}

// Whether the id is in the set. All ids are compared: by the library's `contains`, which leaves at the
// first that is the same, thousands of ids of which none is take twice as long.
pub fn contains(set: &[ConsensusNodeId], id: ConsensusNodeId) -> bool
    ensures { result ≡ contains id set.now }
{
    let mut found = false;
    for i in 0..set.len() {
        found = found | (id == set[i]);
    }
    found
}

// Whether every id of the one stands in the other.
#[tactic(auto, using(identity::specs::TextLaws::all_more), unfolding(identity::specs::Text::every))]
pub fn is_subset(ids: &[ConsensusNodeId], set: &[ConsensusNodeId]) -> bool
    ensures { result ≡ is_subset ids.now set.now }
{
    let mut all = true;
    for id in ids {
        all = all & contains(set, *id);
    }
    all
}

// Whether the two have the same ids.
pub fn is_same(set: &[ConsensusNodeId], ids: &[ConsensusNodeId]) -> bool
    ensures { result ≡ (is_subset set.now ids.now && is_subset ids.now set.now) }
{
    is_subset(set, ids) & is_subset(ids, set)
}

// The first id of the set that neither of the others has, if there is one. A `find` in place of the
// loop would take a closure with a clause of its own and give a reference that is copied out again, so
// that it is no shorter.
//
// `old` and `new`, here and in observe.rt, are the ids of an open request's two configurations. A
// struct of the two would be put together in one place (`see`), and each function that is given them
// would take both out again.
#[tactic(auto, using(crate::specs::ObserveSetsLaws::outside_passed, crate::specs::ObserveSetsLaws::outside_found, crate::specs::ObserveSetsLaws::outside_none), unfolding(crate::specs::ObserveSets::first_of))]
pub fn first_outside(
    set: &[ConsensusNodeId],
    old: &[ConsensusNodeId],
    new: &[ConsensusNodeId],
) -> Option<ConsensusNodeId>
    ensures { result ≡ first_of (difference set.now (union_ids old.now new.now)) }
{
    for id in set {
        if !(contains(old, *id) | contains(new, *id)) {
            return Some(*id);
        }
    }
    None
}

// The least of the new ids that is not an old one, or `NO_ID` where there is none.
//
// The least so far begins at the greatest number: with an `Option` each turn has one test more. The
// result is that number too and no `Option`, since the definition `least_new` gives it.
#[tactic(auto, using(crate::specs::ObserveSetsLaws::least_more, crate::specs::ObserveSetsLaws::least_end))]
pub fn least_new(old: &[ConsensusNodeId], new: &[ConsensusNodeId]) -> ConsensusNodeId
    ensures { result ≡ least_new old.now new.now no_id }
{
    let mut least = NO_ID;
    for id in new {
        if (*id < least) & !contains(old, *id) {
            least = *id;
        }
    }
    least
}

// Whether a length is at most one more than another. No sum is made, so that none can overflow.
pub fn is_one_more(len: usize, than: usize) -> bool
    ensures { result ≡ leb len (than + 1) }
{
    (len <= than) || (len - than == 1)
}

// ---- the ids of members

// What `member_ids` takes for a member's id: that of its identity. A member whose identity is not
// in range, which the representability check refuses, has 0.
fn id_of(member: &VoterSlotMember) -> ConsensusNodeId
    ensures { result ≡ member_node member.now }
{
    member.identity.node_id().unwrap_or(0)
}

// `member_ids` in the order of the nine places; the caller lends those in use.
//
// A loop over the places and no `map`, here and in `ids_of_slots`: the definition `listed` goes by the
// place, so that one lemma of a turn (`listed_more`) proves both. The closure of a `map` would take a
// clause of its own, and its list would have to be proved to be `listed` besides.
#[tactic(auto, using(crate::specs::ObserveSetsLaws::listed_more), unfolding(crate::specs::ObserveSets::listed))]
pub fn ids_of(configuration: &VoterConfiguration) -> [ConsensusNodeId; MAX_FIXED_VOTER_SLOTS]
    ensures { result ≡ listed configuration.now 9 }
{
    let mut ids = [0; MAX_FIXED_VOTER_SLOTS];
    for i in 0..MAX_FIXED_VOTER_SLOTS {
        ids[i] = id_of(&configuration.members[i]);
    }
    ids
}

// The ids of the slots' members in the order of the nine places. It is not one function with `ids_of`:
// a place would have to be read by a closure, which takes a clause of its own.
#[tactic(auto, using(crate::specs::ObserveSetsLaws::listed_more), unfolding(crate::specs::ObserveSets::listed))]
pub fn ids_of_slots(table: &VoterSlotTable) -> [ConsensusNodeId; MAX_FIXED_VOTER_SLOTS]
    ensures { result ≡ listed (slot_members table.now) 9 }
{
    let mut ids = [0; MAX_FIXED_VOTER_SLOTS];
    for i in 0..MAX_FIXED_VOTER_SLOTS {
        ids[i] = id_of(&table.slots[i].member);
    }
    ids
}
