// What the benchmark times of reading a table, exported to Rust with nothing around it.

#![tactic(auto)]

use codec::codec::{DecodedTable, decode_voter_slot_table};
use identity::answer::{Refusal, accepted, number};
use records::records::VoterSlotTable;

// Reading a table's bytes, so many times. The last table is asked for the phase of a slot, 0 to 2,
// by a number that the compiler does not know: so each table is kept, and kept whole.
#[unsafe(no_mangle)]
pub extern "C" fn bench_decode(bytes: &[u8], turns: u64) -> u64 {
    let mut kept = VoterSlotTable::default();
    let mut answers = 0;
    for _ in 0..turns {
        let decoded = decode_voter_slot_table(bytes);
        answers |= u64::from(number(decoded.answer));
        kept = decoded.table;
    }
    let place = (turns % 9) as usize;
    answers | third(kept.slots[place].phase)
}

// The least that a reading of this form does, so many times: a table is returned with an answer,
// the blank one with a refusal, and kept where it is accepted. Nothing is read.
#[unsafe(no_mangle)]
pub extern "C" fn bench_returned(turns: u64) -> u64 {
    let mut kept = VoterSlotTable::default();
    for i in 0..turns {
        let given = returned(i);
        if accepted(given.answer) {
            kept = given.table;
        }
    }
    let place = (turns % 9) as usize;
    third(kept.slots[place].phase)
}

fn returned(revision: u64) -> DecodedTable {
    let mut table = VoterSlotTable::default();
    if revision == u64::MAX {
        return DecodedTable {
            answer: Err(Refusal::InvalidRecord),
            table,
        };
    }
    table.revision = revision;
    DecodedTable {
        answer: Ok(()),
        table,
    }
}

fn third(x: u8) -> u64 {
    u64::from(x / 3)
}
