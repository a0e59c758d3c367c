// What a continuation does to the receiving record (document 01, "Receiving"): its tests 22, 23, 24 and 25, and what one that passes them does.
// All of it is by value.
#![tactic(auto)]

ghost use Rattle.std.specs.Prelude.{◌≡◌, not, ◌&&◌, ◌+◌, ◌-◌, eqb};
ghost use Rattle.outcomes.specs.Outcomes.{told};
ghost use Rattle.continuing.specs.Continuing.{continuation_of};
ghost use Rattle.continuing.specs.Tests.{Assembled, other, Fits, check_of, taken_of};

use codes::{FragmentCount, FrameCount};
use endings::Ending;
use mframe::{BODY_MOST, CHECK};
use outcomes::Received;
use receiver_answers::{Answer, Drop};
use receiver_record::Record;

// Test 22: the assembly that a continuation goes on with, as the record has it.
#[derive(Clone, Copy)]
struct Assembly {
    frame: FrameCount,
    fragment: FragmentCount,
    kept: usize,
    running: u32,
}

// The record stays flat (test 11), so these four are taken out of it.
fn assembly_of(record: Record) -> Option<Assembly>
    ensures { Assembled «record» result }
{
    let assembly = Assembly {
        frame: record.frame,
        fragment: record.fragment,
        kept: record.kept,
        running: record.running,
    };
    record.assembling.then_some(assembly)
}

// Test 23: each count against its like. An enum of its own and no bool, as document 01 has each test's answer taken by a let .. else.
#[derive(Clone, Copy)]
enum Counts {
    Expected,
    Other,
}

#[tactic(auto, using(rules::proofs::Tests::tests))]
fn counts_of(assembly: Assembly, f: FrameCount, g: FragmentCount) -> Counts
    ensures { other result ≡ not (eqb f.0 assembly.frame.0 && eqb g.0 assembly.fragment.0) }
{
    if f == assembly.frame && g == assembly.fragment {
        Counts::Expected
    } else {
        Counts::Other
    }
}

// Test 24: the octets kept and the data, so many in all, where there is room for them.
fn room_for(kept: usize, octets: usize) -> Option<usize>
    ensures { Fits (kept + (octets - 4)) result }
{
    let total = kept.checked_add(octets.saturating_sub(CHECK))?;
    (total <= BODY_MOST).then_some(total)
}

// What good last octets leave of the frame: nothing, or more, from this register on.
// No Option: test 25 answers an Option of it, and of two Nones one could not see which says done and which damaged.
#[derive(Clone, Copy)]
enum Rest {
    Done,
    More(u32),
}

// Test 25: the last four octets, unless they are damaged.
fn check_of(ending: Ending) -> Option<Rest>
    ensures { result ≡ check_of ending }
{
    match ending {
        Ending::Done(_) => Some(Rest::Done),
        Ending::More(_, running) => Some(Rest::More(running)),
        Ending::Damaged => None,
    }
}

// A continuation that passed them all, with the octets kept and its data so many in all.
fn taken(total: usize, rest: Rest, record: Record) -> Received
    ensures { told result ≡ taken_of total rest «record» }
{
    match rest {
        Rest::Done => Received {
            answer: Answer::Delivered(total),
            after: Record::shut(record.counters.completed()),
        },
        Rest::More(running) => Received {
            answer: Answer::Kept(total),
            after: Record {
                assembling: true,
                frame: record.frame,
                fragment: record.fragment.next(),
                kept: total,
                running,
                counters: record.counters.joined(),
            },
        },
    }
}

// A continuation tests 22, 23, 24, 25. Its check goes on from the running CRC.
pub fn continuation(f: FrameCount, g: FragmentCount, octets: &[u8], record: Record) -> Received
    ensures { told result ≡ continuation_of f g octets.now «record» }
{
    let Some(assembly) = assembly_of(record) else {
        return outcomes::strayed(Answer::Dropped(Drop::Closed), record);
    };
    let Counts::Expected = counts_of(assembly, f, g) else {
        return outcomes::abandoned(Drop::Count, record);
    };
    let Some(total) = room_for(assembly.kept, octets.len()) else {
        return outcomes::abandoned(Drop::Over, record);
    };
    let Some(rest) = check_of(endings::judge(assembly.running, octets)) else {
        return outcomes::abandoned(Drop::Damaged, record);
    };
    taken(total, rest, record)
}
