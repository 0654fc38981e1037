// The exports on a table value that the caller lends: a service that keeps its table in memory pays
// for no reading and no writing. Each is a call of `lent`, with its refusal as a number.
ghost use Rattle.std.specs.Prelude.{◌≡◌};
ghost use Rattle.voter_slots.specs.Lent.{table_apply_of, table_observe_of, table_read_of, table_retired_of, table_write_of};

use crate::lent::*;
use crate::result::{VoterSlotsResult, said};
use records::records::VoterSlotTable;

// Reads a table into the one that is lent.
#[unsafe(no_mangle)]
pub extern "C" fn voter_slots_table_read(
    table: &mut VoterSlotTable,
    bytes: &[u8],
) -> VoterSlotsResult
    ensures { (result, table.new) ≡ table_read_of table.old bytes.now }
{
    said(read_over(table, bytes))
}

// Writes the table.
#[unsafe(no_mangle)]
pub extern "C" fn voter_slots_table_write(
    table: &VoterSlotTable,
    out: &mut [u8],
) -> VoterSlotsResult
    ensures { (result, out.new) ≡ table_write_of table.now out.old }
{
    said(write_lent(*table, out))
}

// Applies a command to the table.
#[unsafe(no_mangle)]
pub extern "C" fn voter_slots_table_apply(
    table: &mut VoterSlotTable,
    mark: u32,
    body: &[u8],
) -> VoterSlotsResult
    ensures { (result, table.new) ≡ table_apply_of table.old mark body.now }
{
    said(apply_to(table, mark, body))
}

// Applies an observation to the table.
#[unsafe(no_mangle)]
pub extern "C" fn voter_slots_table_observe(
    table: &mut VoterSlotTable,
    body: &[u8],
) -> VoterSlotsResult
    ensures { (result, table.new) ≡ table_observe_of table.old body.now }
{
    said(observe_at(table, body))
}

// Whether the table says that a node must not count any more.
#[unsafe(no_mangle)]
pub extern "C" fn voter_slots_table_retired(table: &VoterSlotTable, node: u64) -> u32
    ensures { result ≡ table_retired_of table.now node }
{
    retired_in(*table, node)
}
