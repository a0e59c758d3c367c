// The sending side of document 01: the next mFrame of a preemptable frame.
#![tactic(auto)]

ghost use Rattle.std.specs.Prelude.{◌≡◌, ◌+◌, ◌≤◌, length};
ghost use Rattle.send.specs.Preemptable.{check_of, frame_after, fragment_after, record_after, sent_of, preemptable_of, Sent};

use codes::{FragmentCount, FrameCount};
use sender_answers::{Refusal, Written};
use sender_part::End;
use sender_record::Record;

// What a call answers, and the record that it hands back.
#[derive(Clone, Copy)]
pub struct Sending {
    pub answer: Result<Written, Refusal>,
    pub after: Record,
}

// The check octets of the frame's octets so far.
fn check(register: u32, done: bool) -> [u8; 4]
    ensures { result ≡ check_of register done }
{
    if done {
        crc::fcs(register)
    } else {
        crc::mcrc(register)
    }
}

#[tactic(auto, unfolding(crate::specs::Preemptable::frame_after))]
fn frame_after(r: Record) -> FrameCount
    ensures { result ≡ frame_after r }
{
    if r.length == 0 && r.active {
        r.next.next()
    } else {
        r.next
    }
}

#[tactic(auto, unfolding(crate::specs::Preemptable::fragment_after))]
fn fragment_after(r: Record) -> FragmentCount
    ensures { result ≡ fragment_after r }
{
    if r.length == 0 {
        FragmentCount::ZERO
    } else {
        r.fragment.next()
    }
}

fn moved(r: Record, n: usize, to: usize, done: bool) -> Record
    ensures { result ≡ record_after r n to done }
{
    let next = frame_after(r);
    if done {
        return Record {
            next,
            length: 0,
            sent: 0,
            fragment: FragmentCount::ZERO,
            ..r
        };
    }
    Record {
        next,
        length: n,
        sent: to,
        fragment: fragment_after(r),
        ..r
    }
}

// The part that no test refused. The record holds no register, so the frame's octets so far are summed once here, and the part is copied once.
fn send(r: Record, body: &[u8], ask: Option<usize>, out: &mut [u8]) -> Sending
    requires enough_body { (r.sent + 60 ≤ length body.now) × (length body.now ≤ 1518) }
    requires enough_room { 1530 ≤ length out.old }
    ensures { Sent (sent_of r body.now ask) out.old result out.new }
{
    let End { to, done } = sender_part::stretch(r, body.len(), ask);
    let octets = check(crc::over(crc::ALL_ONES, &body[..to]), done);
    let length = mframe::lay(sender_part::kind(r), &body[r.sent..to], octets, out);
    Sending {
        answer: Ok(Written { length, done }),
        after: moved(r, body.len(), to, done),
    }
}

// The next mFrame of a preemptable frame, whose body is handed in again at each call.
#[tactic(auto, using(sender_record::proofs::Laws::passed))]
pub fn preemptable(record: Record, body: &[u8], ask: Option<usize>, out: &mut [u8]) -> Sending
    ensures { Sent (preemptable_of «record» body.now ask (length out.old)) out.old result out.new }
{
    match sender_record::rule(record, body.len(), out.len()) {
        Ok(()) => send(record, body, ask, out),
        Err(why) => Sending {
            answer: Err(why),
            after: record,
        },
    }
}
