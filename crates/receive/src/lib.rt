// The receiving side (document 01, "Receiving"): one mFrame to an answer, the record to keep and the assembly buffer.
#![tactic(auto)]

ghost use Rattle.std.specs.Prelude.{◌≡◌, ◌+◌, ◌≤◌, length};
ghost use Rattle.endings.specs.Judge.{data_of};
ghost use Rattle.receive.specs.Receive.{keeps, up_to, Taken, Answered};

use mframe::{BODY_MOST, CHECK, Kind};
use outcomes::Received;
use receiver_answers::{Answer, Refusal};
use receiver_record::Record;

// Whether an answer has the data written.
fn keeps(answer: Answer) -> bool
    ensures { result ≡ keeps answer }
{
    matches!(answer, Answer::Delivered(_) | Answer::Kept(_))
}

// The data of an mFrame's octets, laid so that they end at a place.
fn keep(octets: &[u8], end: usize, buffer: &mut [u8])
    requires { (4 ≤ length octets.now) × ((length octets.now ≤ 4 + end) × (end ≤ length buffer.old)) }
    ensures { buffer.new ≡ up_to end (data_of octets.now) buffer.old }
{
    let data = octets.len() - CHECK;
    octets::copy_into(&octets[0..data], buffer, end - data)
}

// An mFrame of known kind: its data and check octets.
fn take(kind: Kind, octets: &[u8], record: Record, buffer: &mut [u8]) -> Received
    requires { (4 ≤ length octets.now) × ((length octets.now ≤ 1522) × (1518 ≤ length buffer.old)) }
    ensures { Taken kind octets.now «record» buffer.old result buffer.new }
{
    let got = assembly::decide(kind, octets, record);
    let answer = got.answer;
    if keeps(answer) {
        keep(octets, answer.detail(), buffer);
    }
    got
}

// Record and buffer stay two: the record goes by value, the buffer is the caller's memory.
// One mFrame, as a slice from its first octet, a 55 or the delimiter, to its last check octet.
pub fn receive(mframe: &[u8], record: Record, buffer: &mut [u8]) -> Received
    ensures { Answered mframe.now «record» buffer.old result buffer.new }
{
    if buffer.len() < BODY_MOST {
        return Received {
            answer: Answer::Refused(Refusal::Buffer),
            after: record,
        };
    }
    if !record.in_range() {
        return Received {
            answer: Answer::Refused(Refusal::Record),
            after: record,
        };
    }
    match heads::head_of(mframe) {
        Ok(head) => take(head.kind, &mframe[head.place..], record, buffer),
        Err(fault) => outcomes::refuse(fault, record),
    }
}
