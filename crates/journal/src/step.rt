// One record at the table that stands: what it asks is judged, and the next table, if there is one,
// is made by one of nine makers. A body that changes the table is read twice, so that what was judged
// is a small value.
//
// Document 01, section "Replay program". No part of the original has it.
ghost use Rattle.std.specs.Prelude.{◌≤◌, ◌≡◌, length};
ghost use Rattle.identity.specs.Answer.{Accepted};
ghost use Rattle.records.specs.Validation.{validate};
ghost use Rattle.control.specs.Verdicts.{verdict_of};
ghost use Rattle.control.specs.ObserveSight.{verdict_of_observed};
ghost use Rattle.journal.specs.declared.replay.Mark.TheVariants.{Ad, Bg, Mk, Ob};
ghost use Rattle.journal.specs.Replay.{asking};
ghost use Rattle.journal.specs.Step.{HoldsAdvance, HoldsBegin, Makes, MakesCommand, MakesObservation, answer_of_called, is_changing, checked_call, command_verdict, cut_at, made_by, made_by_command, made_by_observation, numbered, observation_verdict};

use crate::bodies::*;
use crate::observation::*;
use control::begin::{VoterBegin, begin_table, judge_begin};
use control::control::*;
use control::judge::*;
use control::make::*;
use control::observe::*;
use control::representable::{is_representable_request, is_representable_step};
use identity::answer::{Answer, Refusal};
use reader::reader::Reader;
use records::evidence::is_valid_log_id;
use records::records::{VoterSlotLogId, VoterSlotTable};

// What a record comes to at a table that stands, before anything is made.
#[derive(Clone, Copy)]
pub enum Called {
    Command(Result<Judged, Refusal>),
    Observation(Result<Observed, Refusal>),
}

// The answer of a record that was so judged.
pub fn answer_of_called(called: Called) -> Answer
    ensures { result ≡ answer_of_called called }
{
    match called {
        Called::Command(judged) => answer_of(judged),
        Called::Observation(observed) => answer_of_observed(observed),
    }
}

// Whether the table changes.
pub fn is_change(called: Called) -> bool
    ensures { result ≡ is_changing called }
{
    match called {
        Called::Command(judged) => !matches!(judged, Err(_) | Ok(Judged::Keep)),
        Called::Observation(observed) => !matches!(observed, Err(_) | Ok(Observed::Keep)),
    }
}

// What a call on a valid table asks before it is judged: 30, and 25 for a zero in the cut. It was
// judged before these are asked: between them and the judge there would be an early return, after
// which the compiler copies the table for its judge.
fn check_call(
    fits: bool,
    cut: VoterSlotLogId,
    judged: Result<Judged, Refusal>,
) -> Result<Judged, Refusal>
    ensures { verdict_of result ≡ checked_call fits cut (verdict_of judged) }
{
    if !fits {
        return Err(Refusal::Unrepresentable);
    }
    if !is_valid_log_id(cut) {
        return Err(Refusal::InvalidTransition);
    }
    judged
}

// The verdict of an MK's body: 33 where it is not of its form, and else as the call.
//
// That the table is valid is a clause, here and in the calls on these. A type of its own, which lends
// the table, was tried: the judges of `control` take it by value, and copy what is lent. By the count of
// instructions a marker then took 30 percent more, an advance 16, and a replacement 8. On a loaded
// machine the rate of replacements of nine slots was 1.8 - 2.1 times the original's, where it had been
// 2.2 - 2.8 times; the bar is 2. By value, as a field, the table is copied as well.
#[tactic(auto, using(crate::proofs::StepLaws::marker_entry), unfolding(crate::specs::Step::command_verdict, crate::specs::Replay::marker_asked))]
pub fn judge_marker_body(table: VoterSlotTable, body: &[u8]) -> Result<Judged, Refusal>
    requires { validate table ≡ Accepted }
    ensures { numbered (verdict_of result) ≡ command_verdict table (asking Mk body.now) }
{
    let Some(marker) = read_marker(body) else {
        return Err(Refusal::BadRecord);
    };
    let request_id = marker.request_id;
    let request_digest = marker.request_digest;
    let judged = judge_marker(table, request_id, request_digest);
    check_call(true, marker.cut, judged)
}

// The verdict of an AD's body: 33 where it is not of its form, and else as the call.
#[tactic(auto, using(crate::proofs::StepLaws::advance_entry), unfolding(crate::specs::Step::command_verdict))]
pub fn judge_advance_body(table: VoterSlotTable, body: &[u8]) -> Result<Judged, Refusal>
    requires { validate table ≡ Accepted }
    ensures { numbered (verdict_of result) ≡ command_verdict table (asking Ad body.now) }
{
    let Some(advance) = read_advance(body) else {
        return Err(Refusal::BadRecord);
    };
    let judged = judge_advance(table, advance);
    let fits = is_representable_step(advance.step);
    check_call(fits, advance.cut, judged)
}

// The verdict of a BG's body: 33 where it is not of its form, the number of its attestation's reader
// where that refuses it, and else as the call.
#[tactic(auto, using(crate::proofs::StepLaws::begin_entry), unfolding(crate::specs::Step::command_verdict))]
pub fn judge_begin_body(table: VoterSlotTable, body: &[u8]) -> Result<Judged, Refusal>
    requires { validate table ≡ Accepted }
    ensures { numbered (verdict_of result) ≡ command_verdict table (asking Bg body.now) }
{
    match read_begin(body) {
        None => Err(Refusal::BadRecord),
        Some(Err(refusal)) => Err(refusal),
        Some(Ok(begin)) => {
            let judged = judge_begin(table, begin);
            let fits = is_representable_request(begin.request);
            check_call(fits, begin.cut, judged)
        }
    }
}

// The verdict of an OB's body, whose ids and counts are read into the room that is lent: 33 where it is
// not of its form, and else as the call. It takes the table by value, for a caller that holds it so.
pub fn judge_observation_body(
    table: VoterSlotTable,
    body: &[u8],
    room: &mut IdRoom<MOST_IDS>,
) -> Result<Observed, Refusal>
    requires { length body.now ≤ 65535 }
    ensures { numbered (verdict_of_observed result) ≡ observation_verdict table (asking Ob body.now) }
{
    judge_observation_lent(&table, body, room)
}

// The same at a table that is lent, so that none is copied.
#[tactic(auto, unfolding(crate::specs::Step::observation_verdict))]
pub fn judge_observation_lent(
    table: &VoterSlotTable,
    body: &[u8],
    room: &mut IdRoom<MOST_IDS>,
) -> Result<Observed, Refusal>
    requires { length body.now ≤ 65535 }
    ensures { numbered (verdict_of_observed result) ≡ observation_verdict table.now (asking Ob body.now) }
{
    let observation = room.read(body).ok_or(Refusal::BadRecord)?;
    weigh_lent(table, observation)
}

// The table after the record. Where the table that stands is to be changed, its owner chooses the
// maker itself, by the same arms, as `play_on` does: what this returns is copied.
//
// That what was judged may be made (`Makes`) is a clause. It is a statement by the cases of `Called`, and
// of such a one the ghost field of a struct of table, body and `Called` keeps only that there is a proof.
// Each maker would have to take the proof out of it again.
pub fn make_record(table: VoterSlotTable, body: &[u8], called: Called) -> VoterSlotTable
    requires { Makes table body.now called }
    ensures { result ≡ made_by table body.now called }
{
    match called {
        Called::Command(judged) => make_command(table, body, judged),
        Called::Observation(observed) => make_observation(table, body, observed),
    }
}

// The table after a command: its maker is given the body that was judged, read again.
#[tactic(auto, unfolding(crate::specs::Step::made_by_command))]
fn make_command(
    table: VoterSlotTable,
    body: &[u8],
    judged: Result<Judged, Refusal>,
) -> VoterSlotTable
    requires { MakesCommand table body.now (verdict_of judged) }
    ensures { result ≡ made_by_command table body.now (verdict_of judged) }
{
    match judged {
        Ok(Judged::RecordSnapshot) => snapshot_table(table, advance_in(body)),
        Ok(Judged::RecordCaughtUp) => catch_up_table(table, advance_in(body)),
        Ok(Judged::Continue) => continue_table(table, advance_in(body)),
        Ok(Judged::Fence) => fence_table(table, advance_in(body)),
        Ok(Judged::Finalize) => finalize_table(table, advance_in(body)),
        Ok(Judged::Begin) => begin_table(table, begin_in(body)),
        Ok(Judged::Keep) | Err(_) => table,
    }
}

// The table after an observation, of which its maker is given the cut. Its three arms are one maker
// each, since each maker has a clause of its own (observe.rt).
#[tactic(auto, unfolding(crate::specs::Step::made_by_observation))]
fn make_observation(
    table: VoterSlotTable,
    body: &[u8],
    observed: Result<Observed, Refusal>,
) -> VoterSlotTable
    requires { MakesObservation table body.now (verdict_of_observed observed) }
    ensures { result ≡ made_by_observation table body.now (verdict_of_observed observed) }
{
    match observed {
        Ok(Observed::AddLearner) => learner_table(table, cut_in(body)),
        Ok(Observed::AddJoint) => joint_table(table, cut_in(body)),
        Ok(Observed::AddUniform) => uniform_table(table, cut_in(body)),
        Ok(Observed::Keep) | Err(_) => table,
    }
}

// ---- what a body that was judged holds, read again for a maker
//
// What was judged does not carry it: `Called` would need a case for each kind of body, with a value
// of up to 5 KB that `play_on` and `make_record` take apart again, and a law for each. So a maker's
// body is read from the bytes. What is returned of bytes that hold none is a default, which nobody
// looks at.

// The Advance.
pub fn advance_in(body: &[u8]) -> VoterAdvance
    ensures { HoldsAdvance body.now result }
{
    read_advance(body).unwrap_or_default()
}

// The Begin.
pub fn begin_in(body: &[u8]) -> VoterBegin
    ensures { HoldsBegin body.now result }
{
    match read_begin(body) {
        Some(Ok(begin)) => begin,
        _ => VoterBegin::default(),
    }
}

// The cut that a body begins with. The value in place of none is named: the law of this cut
// (`cut_taken`) is of `unwrap_or`, which is given it.
#[tactic(auto, using(crate::proofs::MakerLaws::cut_taken))]
pub fn cut_in(body: &[u8]) -> VoterSlotLogId
    ensures { result ≡ cut_at body.now }
{
    Reader::new(body)
        .log_id()
        .unwrap_or(VoterSlotLogId::default())
}
