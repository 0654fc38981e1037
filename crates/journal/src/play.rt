// A log played: records from a lent slice, from any table or none, and a line for each.
//
// Document 01, section "Replay program". No part of the original has it.
ghost use Rattle.std.specs.Prelude.{◌+◌, ◌*◌, ◌-◌, ◌/◌, ◌<◌, ◌≤◌, min, cond, false, true, ◌≡◌, length, IfOk};
ghost use Rattle.identity.specs.Answer.{Accepted};
ghost use Rattle.records.specs.Validation.{validate};
ghost use Rattle.control.specs.Control.{full};
ghost use Rattle.journal.specs.Play.{Goes, PutTurn, Safe, longest_line, new_journal, opened_at, opened_to, play_of, played_to, ready_of, start_answer, start_place, turns_after};
ghost use Rattle.control.specs.ObserveSight.{verdict_of_observed};
ghost use Rattle.journal.specs.declared.replay.Mark.TheVariants.{Ob};
ghost use Rattle.journal.specs.Replay.{asking, opening};
ghost use Rattle.journal.specs.Step.{numbered, observation_verdict};
ghost use Rattle.journal.specs.RunHistory.{LineOfRun};

use crate::line::{LONGEST_LINE, put_line};
use crate::observation::{IdRoom, MOST_IDS};
use crate::record::{Record, record_at};
use crate::replay::Mark;
use crate::step::*;
use codec::codec::read_voter_slot_table;
use control::begin::begin_table;
use control::judge::*;
use control::make::*;
use control::observe::{Observed, joint_table, learner_table, uniform_table};
use identity::answer::{Answer, Refusal};
use records::records::VoterSlotTable;
use records::validation::validate_table;

// Where a log stands.
#[derive(Clone, Copy)]
pub struct Journal {
    // There is a table. No `Option` has both: a log with no table keeps the value that it was given, and
    // a start that is refused gives its table back, as document 01 has it of every refused call.
    pub stands: bool,
    // How many records were read.
    pub count: u64,
    // A record has ended the reading.
    pub ended: bool,
    // The table, if there is one.
    pub table: VoterSlotTable,
}

// What was played. A start whose table is not valid is refused, and nothing is played. The answer stands
// beside the journal, and is no `Result`: a refused start gives its journal back, by document 01.
#[derive(Clone, Copy)]
pub struct Played {
    // Accepted, or why the start is refused.
    pub answer: Answer,
    // How many bytes of the input were read.
    pub read: usize,
    // How many bytes of the output were written.
    pub written: usize,
    // Where the log stands after them.
    pub journal: Journal,
}

// How far the records are played.
#[derive(Clone, Copy)]
struct Place {
    // How many bytes of the input were read.
    read: usize,
    // How many bytes of the output were written.
    written: usize,
    // How many records were read.
    count: u64,
    // How many more may be read.
    turns: u64,
    // A record has ended the reading.
    ended: bool,
}

// A place, and the table, if one stands. No `Option` has it: where none stands, `play` gives back
// the table that it was given.
#[derive(Clone, Copy)]
struct Opened {
    // How far it was played.
    place: Place,
    // There is a table.
    stands: bool,
    // The table, if there is one.
    table: VoterSlotTable,
}

// No table, and nothing read. It is a function and no `Default`, whose clause would be a definition of
// the impl: this one names the definition `new_journal`.
pub fn new_journal() -> Journal
    ensures { result ≡ new_journal }
{
    let table = VoterSlotTable::default();
    Journal {
        stands: false,
        count: 0,
        ended: false,
        table,
    }
}

// Plays the records that the bytes hold, as many as there is room for: a line has room where 66
// bytes are left. `last`: no bytes come after these, so that a record that is cut short ends the
// reading. The second clause: the tables that the records go through are a line of history.
pub fn play(from: Journal, input: &[u8], last: bool, out: &mut [u8]) -> Played
    ensures played { ((result.answer, (result.read, (result.written, result.journal))), out.new) ≡ play_of from input.now last out.old }
    ensures line { from.stands ≡ true → validate from.table ≡ Accepted → LineOfRun from.table (ready_of from input.now last out.old) }
{
    let table = from.table;
    let answer = start_answer(from.stands, table);
    let start = start_place(answer, from, out.len());
    let mut opened = Opened {
        place: start,
        stands: from.stands,
        table,
    };
    if !opened.stands {
        opened = open_log(opened, input, last, out);
    }
    if opened.stands {
        opened = play_on(opened, input, last, out);
    }
    played_to(answer, opened)
}

// With no table: each record gets its line, until a TB brings one. The turns are counted in the
// place: a record that ends the reading takes all that are left, so a `for` would test them again.
fn open_log(from: Opened, input: &[u8], last: bool, out: &mut [u8]) -> Opened
    requires { Safe input.now (length out.old) from × (from.stands ≡ false) }
    ensures { Goes input.now last from out.old result out.new × (Safe input.now (length out.new) result × (result.stands ≡ false → result.place.turns ≡ 0)) }
{
    let mut place = from.place;
    let mut table = from.table;
    let mut stands = false;
    while (0 < place.turns) & !stands {
        let found = record_at(input, place.read, last);
        let opened = open_record(found.asks, &input[found.body..found.end]);
        let answer = opened.and(Ok(()));
        stands = opened.is_ok();
        table = opened.unwrap_or(table);
        let revision = revision_of(stands, table.revision);
        place = put_turn(out, place, found, answer, revision);
    }
    Opened {
        place,
        stands,
        table,
    }
}

// With a table: each record is a call on it, or a bad record. Judges and makers are chosen in the
// loop, where the table is: so each is called at one place, works on the table itself, and no table
// is copied. The turns are counted as in `open_log`.
fn play_on(from: Opened, input: &[u8], last: bool, out: &mut [u8]) -> Opened
    requires { Safe input.now (length out.old) from × (from.stands ≡ true) }
    ensures { Goes input.now last from out.old result out.new × (result.place.turns ≡ 0) }
{
    let mut room = IdRoom::<MOST_IDS>::new();
    let mut place = from.place;
    let mut t = from.table;
    let mut kept = Kept {
        table: t,
        behind: false,
    };
    while 0 < place.turns {
        let found = record_at(input, place.read, last);
        let body = &input[found.body..found.end];
        let called = match found.asks {
            Mark::Mk => Called::Command(judge_marker_body(t, body)),
            Mark::Ad => Called::Command(judge_advance_body(t, body)),
            Mark::Bg => Called::Command(judge_begin_body(t, body)),
            Mark::Ob => Called::Observation(judge_observed(t, &mut kept, body, &mut room)),
            // Each has its arm: what is said of a second TB is not said of an unknown mark.
            Mark::Tb => Called::Command(Err(Refusal::BadRecord)),
            Mark::Unknown => Called::Command(Err(Refusal::BadRecord)),
        };
        match called {
            Called::Command(judged) => match judged {
                Ok(Judged::RecordSnapshot) => t = snapshot_table(t, advance_in(body)),
                Ok(Judged::RecordCaughtUp) => t = catch_up_table(t, advance_in(body)),
                Ok(Judged::Continue) => t = continue_table(t, advance_in(body)),
                Ok(Judged::Fence) => t = fence_table(t, advance_in(body)),
                Ok(Judged::Finalize) => t = finalize_table(t, advance_in(body)),
                Ok(Judged::Begin) => t = begin_table(t, begin_in(body)),
                Ok(Judged::Keep) | Err(_) => {}
            },
            Called::Observation(observed) => match observed {
                Ok(Observed::AddLearner) => t = learner_table(t, cut_in(body)),
                Ok(Observed::AddJoint) => t = joint_table(t, cut_in(body)),
                Ok(Observed::AddUniform) => t = uniform_table(t, cut_in(body)),
                Ok(Observed::Keep) | Err(_) => {}
            },
        }
        kept.behind = kept.behind | is_change(called);
        let answer = answer_of_called(called);
        place = put_turn(out, place, found, answer, t.revision);
    }
    with_table(place, t)
}

// A copy of the table that stands, which is lent to the judge of observations: so the table is copied
// once after a change, and not for each observation. The table itself is not lent, since the other
// judges and the makers would then be given copies of it.
#[derive(Clone, Copy)]
struct Kept {
    table: VoterSlotTable,
    // The table that stands has changed since.
    behind: bool,
}

// The verdict of an OB's body at a table of which there is a copy, which is made anew where it is
// behind.
fn judge_observed(
    table: VoterSlotTable,
    kept: &mut Kept,
    body: &[u8],
    room: &mut IdRoom<MOST_IDS>,
) -> Result<Observed, Refusal>
    requires { (length body.now ≤ 65535) × (kept.old.behind ≡ false → kept.old.table ≡ table) }
    ensures judged { numbered (verdict_of_observed result) ≡ observation_verdict table (asking Ob body.now) }
    ensures copied { kept.new.table ≡ table }
{
    if kept.behind {
        kept.table = table;
        kept.behind = false;
    }
    judge_observation_lent(&kept.table, body, room)
}

// A place with the table that stands.
fn with_table(place: Place, table: VoterSlotTable) -> Opened
    ensures { result ≡ opened_at place true table }
{
    Opened {
        place,
        stands: true,
        table,
    }
}

// The line of a record, where there is one, and the place after it.
fn put_turn(out: &mut [u8], place: Place, found: Record, answer: Answer, revision: u64) -> Place
    requires { (0 < place.turns) × ((place.written + longest_line * place.turns ≤ length out.old) × (place.count + place.turns ≤ full)) }
    ensures { PutTurn place found answer revision out.old out.new result }
{
    if found.end == place.read {
        return Place { turns: 0, ..place };
    }
    let mark = found.mark;
    let count = place.count + 1;
    let written = put_line(out, place.written, count, mark, answer, revision);
    let turns = turns_after(place.turns, found.ends);
    Place {
        read: found.end,
        written,
        count,
        turns,
        ended: place.ended | found.ends,
    }
}

// A record that ends the reading leaves no turns.
fn turns_after(turns: u64, ends: bool) -> u64
    requires { 0 < turns }
    ensures { result ≡ turns_after turns ends }
{
    if ends {
        return 0;
    }
    turns - 1
}

// A record with no table: a TB is read, and any other is a bad record.
#[tactic(auto, unfolding(crate::specs::Replay::opening))]
fn open_record(asks: Mark, body: &[u8]) -> Result<VoterSlotTable, Refusal>
    ensures { (opened_to result ≡ opening asks body.now) × IfOk result (λ table. validate table ≡ Accepted) }
{
    match asks {
        Mark::Tb => read_voter_slot_table(body),
        Mark::Mk | Mark::Ad | Mark::Bg | Mark::Ob | Mark::Unknown => Err(Refusal::BadRecord),
    }
}

// Validity's number of a start with a table.
fn start_answer(stands: bool, table: VoterSlotTable) -> Answer
    ensures { result ≡ start_answer stands table }
{
    if stands {
        return validate_table(table);
    }
    Ok(())
}

// Nothing is read yet. There are as many turns as lines have room, and the count of records too.
#[tactic(auto, unfolding(crate::specs::Play::turns_of))]
fn start_place(answer: Answer, from: Journal, room: usize) -> Place
    ensures { (result ≡ start_place answer from room) × (from.count ≤ full) }
{
    let count = from.count;
    let turns = start_turns(from.ended | answer.is_err(), count, room);
    Place {
        read: 0,
        written: 0,
        count,
        turns,
        ended: from.ended,
    }
}

// As many as lines have room, and as records can be counted.
fn start_turns(stops: bool, count: u64, room: usize) -> u64
    ensures { (result ≡ cond stops 0 (min (room / longest_line) (full - count))) × (count ≤ full) }
{
    let lines = (room / LONGEST_LINE) as u64;
    let counts = u64::MAX - count;
    if stops {
        return 0;
    }
    if counts < lines {
        return counts;
    }
    lines
}

// "revision afterwards (0 if no table)"
fn revision_of(stands: bool, revision: u64) -> u64
    ensures { result ≡ cond stands revision 0 }
{
    if stands {
        return revision;
    }
    0
}

// What was played, as it is returned.
fn played_to(answer: Answer, to: Opened) -> Played
    ensures { (result.answer, (result.read, (result.written, result.journal))) ≡ played_to answer to }
{
    let table = to.table;
    let journal = Journal {
        stands: to.stands,
        count: to.place.count,
        ended: to.place.ended,
        table,
    };
    Played {
        answer,
        read: to.place.read,
        written: to.place.written,
        journal,
    }
}
