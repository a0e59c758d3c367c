// The hall's schedule: a gate control list read, written back, and its holds and releases listed. Entries and events are rows of words, so that
// C can lend them too.
#![tactic(auto)]

ghost use Rattle.std.specs.Prelude.{◌≡◌, length};
ghost use Rattle.gate_lists.specs.Lists.{said};
ghost use Rattle.gates.specs.Gates.{Met, counted, told_cycle, read_of, write_of, events_of, cycle_of};

use gate_entries::SIZE;
use gate_events::Total;
use gate_lists::{Accepted, Answer, Error};

// The entries of a list: of each its operation, gates and interval in nanoseconds.
pub fn read_list(list: &[u8], entries: &mut [[u32; 3]]) -> Answer
    ensures { Met (read_of list.now (length entries.old)) entries.old (said result) entries.new }
{
    let n = gate_lists::of_octets(list)?;
    if entries.len() < n as usize {
        return Err(Error::Short(n));
    }
    let accepted = Accepted {
        octets: list,
        entries: n,
    };
    gate_contents::put_entries(accepted, entries);
    Ok(n)
}

// The octets of entries, seven each.
pub fn write_list(entries: &[[u32; 3]], list: &mut [u8]) -> Answer
    ensures { Met (write_of entries.now (length list.old)) list.old (said result) list.new }
{
    let n = gate_lists::of_entries(entries)?;
    let octets = n * SIZE as u32;
    if list.len() < octets as usize {
        return Err(Error::Short(octets));
    }
    gate_contents::put_octets(entries, list);
    Ok(octets)
}

// The holds and releases of a list: of each its time in nanoseconds from the cycle's start, and 1 for hold or 2 for release. It answers how many
// there are, and the length of the cycle in nanoseconds.
pub fn list_events(list: &[u8], events: &mut [[u64; 2]]) -> Result<Total, Error>
    ensures met { Met (events_of list.now (length events.old)) events.old (said (counted result)) events.new }
    ensures cycle { told_cycle result ≡ cycle_of (said (counted result)) list.now }
{
    let n = gate_lists::of_octets(list)?;
    let accepted = Accepted {
        octets: list,
        entries: n,
    };
    let total = gate_events::totals(accepted);
    if events.len() < total.events as usize {
        return Err(Error::Short(total.events));
    }
    gate_events::put_events(accepted, events);
    Ok(total)
}
