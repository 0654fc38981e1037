// Commands: the calls on a table that is known to be valid, by value and in place, and the entry
// point.
//
// Ported from crates/opc-consensus/src/voter_slots/control.rs (`apply_control`) of
// openpacketcore-sdk, commit 717de332e7, Apache-2.0 (see NOTICE). Changed: what a command does is
// judged first, and then the next table is made, if there is one. It is neither validated nor
// compared: that it would pass the successor check is proved (specs/SettleLaws.antt). A table is
// lent, and a thin call changes it in place; or it goes in by value, and comes back with the answer.
ghost use Rattle.std.specs.Prelude.{◌≡◌};
ghost use Rattle.identity.specs.Answer.{Accepted};
ghost use Rattle.records.specs.Validation.{validate};
ghost use Rattle.control.specs.Control.{apply_control};
ghost use Rattle.control.specs.Judgement.{judge_marker};
ghost use Rattle.control.specs.Verdicts.{advance_outcome, answer_of, applied_of, checked_of};

use crate::begin::{VoterBegin, begin_in_place};
use crate::control::*;
use crate::judge::*;
use crate::make::*;
use crate::representable::is_representable_control;
use identity::answer::{Answer, Refusal};
use records::evidence::is_valid_log_id;
use records::records::{VoterSlotLogId, VoterSlotTable};

// An answer, and the table: the next one, or the one that was given. No `Result`: a call that is
// refused gives the table back too (document 01).
#[derive(Clone, Copy)]
pub struct Controlled {
    pub answer: Answer,
    pub table: VoterSlotTable,
}

// `apply_control`: any table, any command and any cut.
//
// By value it is the call in place, and the table handed back; so are the other calls by value, which
// are for a Rust caller that holds its table so. One function for all of them would take the call in
// place as a closure, whose clause says again what the call's own says: it is no shorter than the two
// lines.
pub fn apply_control(
    mut table: VoterSlotTable,
    control: VoterSlotControl,
    cut: VoterSlotLogId,
) -> Controlled
    ensures { (result.answer, result.table) ≡ apply_control table control cut }
{
    let answer = apply_control_in_place(&mut table, VoterCommand { control, cut });
    Controlled { answer, table }
}

// The tests of the entry point: 30, and 25 for an invalid table or a zero in the cut.
#[tactic(auto, unfolding(crate::specs::Verdicts::checked_of))]
fn checked(table: &VoterSlotTable, control: VoterSlotControl, cut: VoterSlotLogId) -> Answer
    ensures { result ≡ checked_of table.now control cut }
{
    let fits = table.is_representable();
    let command = is_representable_control(control);
    if !(fits & command) {
        return Err(Refusal::Unrepresentable);
    }
    let valid = table.validate().is_ok();
    let nonzero = is_valid_log_id(cut);
    if !(valid & nonzero) {
        return Err(Refusal::InvalidTransition);
    }
    Ok(())
}

// `apply_control` on a table that is lent: any table, any command and any cut.
#[tactic(auto, using(crate::proofs::Stored::entry_refused, crate::proofs::Stored::entry_passed))]
pub fn apply_control_in_place(table: &mut VoterSlotTable, command: VoterCommand) -> Answer
    ensures { (result, table.new) ≡ apply_control table.old command.control command.cut }
{
    checked(table, command.control, command.cut)?;
    apply_in_place(table, command)
}

// A command on a table that is known to be valid, by value. The caller has tested that the cut has
// no zero and that the command is representable (`checked_of` accepted); then the answer is
// `apply_control`'s (`entry-passed` of VerdictLaws; by the two tests, `valid-applied` of ApplyLaws).
//
// That the table is valid is asked by a clause, here and in the seven other calls on such a table. A
// type of valid tables could not hold what they give back: none tests the cut, and of a Begin at the
// cut (0, 0), which a closed table accepts, the table that is made is not valid. So the caller would
// wrap its table anew for each call.
pub fn apply_to_valid(mut table: VoterSlotTable, command: VoterCommand) -> Controlled
    requires { validate table ≡ Accepted }
    ensures { (result.answer, result.table) ≡ applied_of table command.control command.cut }
{
    let answer = apply_in_place(&mut table, command);
    Controlled { answer, table }
}

// `apply_to_valid` on a table that is lent: the same tests. It takes a command of any kind, which has
// 5 KB; an Advance has a twentieth of that. So each kind has a call of its own besides.
#[tactic(auto, using(crate::proofs::Stored::applied_begin, crate::proofs::Stored::applied_advance, crate::proofs::Stored::applied_marker))]
pub fn apply_in_place(table: &mut VoterSlotTable, command: VoterCommand) -> Answer
    requires { validate table.old ≡ Accepted }
    ensures { (result, table.new) ≡ applied_of table.old command.control command.cut }
{
    let kind = command.control.kind;
    match kind {
        BEGIN => begin_in_place(table, VoterBegin::from(command)),
        ADVANCE => advance_in_place(table, VoterAdvance::from(command)),
        _ => mark(*table, command),
    }
}

// A Marker: the table stays as it is.
fn mark(table: VoterSlotTable, command: VoterCommand) -> Answer
    ensures { result ≡ answer_of (judge_marker table command.control.request_id command.control.request_digest) }
{
    let request_id = command.control.request_id;
    let request_digest = command.control.request_digest;
    answer_of(judge_marker(table, request_id, request_digest))
}

// An Advance, by value. The caller has made the tests that `apply_to_valid` names
// (`valid-advance`).
pub fn advance(mut table: VoterSlotTable, advance: VoterAdvance) -> Controlled
    requires { validate table ≡ Accepted }
    ensures { (result.answer, result.table) ≡ advance_outcome table advance }
{
    let answer = advance_in_place(&mut table, advance);
    Controlled { answer, table }
}

// `advance` on a table that is lent: the caller has made the same tests.
#[tactic(auto, unfolding(crate::specs::Judgement::carried, crate::specs::Verdicts::step_made))]
pub fn advance_in_place(table: &mut VoterSlotTable, advance: VoterAdvance) -> Answer
    requires { validate table.old ≡ Accepted }
    ensures { (result, table.new) ≡ advance_outcome table.old advance }
{
    match judge_advance(*table, advance)? {
        Judged::RecordSnapshot => *table = snapshot_table(*table, advance),
        Judged::RecordCaughtUp => *table = catch_up_table(*table, advance),
        Judged::Continue => *table = continue_table(*table, advance),
        Judged::Fence => *table = fence_table(*table, advance),
        Judged::Finalize => *table = finalize_table(*table, advance),
        Judged::Keep | Judged::Begin => {}
    }
    Ok(())
}
