// The events of a gate control list that was judged good: how many there are, when the cycle ends, and each with its time.
#![tactic(auto)]

ghost use Rattle.std.specs.Prelude.{◌≡◌, ◌+◌, ◌≤◌, length};
ghost use Rattle.octets.specs.Laid.{laid, over};
ghost use Rattle.gate_lists.specs.Lists.{most, entries_from};
ghost use Rattle.gate_events.specs.Events.{sum_of, event_at, events_from};

use gate_entries::SIZE;
use gate_lists::Accepted;

// What a list comes to.
#[derive(Clone, Copy)]
pub struct Total {
    // How many events it has.
    pub events: u32,
    // The sum of all its intervals, in nanoseconds.
    pub cycle: u64,
}

// How many events an operation has.
#[tactic(auto, using(rules::proofs::Tests::tests), unfolding(crate::specs::Events::event_at))]
fn counted(operation: u32) -> u32
    ensures { (result ≡ length (event_at 0 operation)) × (result ≤ 1) }
{
    if operation == 0 { 0 } else { 1 }
}

// An interval as it is summed up, with its bound: with `u64::from` alone the invariant of `totals` did not close (`loop-i-preserved`).
fn wide(interval: u32) -> u64
    ensures { (result ≡ interval) × (result ≤ 4294967295) }
{
    u64::from(interval)
}

// What a list comes to. By places, as all that goes through a list: an entry is read at its place.
pub fn totals(list: Accepted<'_>) -> Total
    ensures events { result.events ≡ length (events_from 0 (entries_from list.entry.entries list.entry.octets.now 0)) }
    ensures cycle { result.cycle ≡ sum_of (entries_from list.entry.entries list.entry.octets.now 0) }
{
    let mut events = 0u32;
    let mut cycle = 0u64;
    for i in 0..list.entries {
        let entry = gate_entries::entry_at(list.octets, i as usize * SIZE);
        events += counted(entry[0]);
        cycle += wide(entry[2]);
    }
    Total { events, cycle }
}

// The event of an operation, where it has one, at a place of lent memory; the place behind it.
fn put_event(time: u64, operation: u32, events: &mut [[u64; 2]], at: usize) -> usize
    requires { (at ≤ most) × (at + length (event_at 0 operation) ≤ length events.old) }
    ensures place { result ≡ at + length (event_at time operation) }
    ensures output { events.new ≡ laid events.old at (event_at time operation) }
{
    if operation == 0 {
        return at;
    }
    events[at] = [time, u64::from(operation)];
    at + 1
}

// The events of a list.
pub fn put_events(list: Accepted<'_>, events: &mut [[u64; 2]])
    requires { length (events_from 0 (entries_from list.entries list.octets.now 0)) ≤ length events.old }
    ensures { events.new ≡ over (events_from 0 (entries_from list.entry.entries list.entry.octets.now 0)) events.old }
{
    let mut next = 0;
    let mut time = 0u64;
    for i in 0..list.entries {
        let entry = gate_entries::entry_at(list.octets, i as usize * SIZE);
        next = put_event(time, entry[0], events, next);
        time += wide(entry[2]);
    }
}
