// A record of a capture for eyes: an mFrame whose mCRC is right by document 01 has the standard's in its place, which the usual viewer expects.
#![tactic(auto)]

ghost use Rattle.std.specs.Prelude.{◌≡◌, map, ◌+◌, ◌-◌, ◌≤◌, length};
ghost use Rattle.octets.specs.Laid.{laid};
ghost use Rattle.crc.specs.Crc.{inverted};
ghost use Rattle.endings.specs.Judge.{last_four};
ghost use Rattle.eyes_records.specs.Shown.{has_mcrc, Shows};

use mframe::CHECK;
use receiver_answers::Answer;
use receiver_record::Record;

// Whether an answer says that the mCRC is right.
fn has_mcrc(answer: Answer) -> bool
    ensures { result ≡ has_mcrc answer }
{
    matches!(
        answer,
        Answer::Kept(_) | Answer::VerifyHeard | Answer::RespondHeard
    )
}

// The last four octets inverted, so that they end at a place: of an mCRC of document 01 they are the standard's.
fn put_inverted(mframe: &[u8], out: &mut [u8], end: usize)
    requires { (4 ≤ length mframe.now) × ((4 ≤ end) × (end ≤ length out.old)) }
    ensures { out.new ≡ laid out.old (end - 4) (map inverted (last_four mframe.now)) }
{
    let check = fours::load(mframe, mframe.len() - CHECK);
    octets::copy_into(&fours::split(crc::ALL_ONES - check), out, end - CHECK)
}

// The record of an mFrame, from place at on; the receiver's record behind it, to be handed on with its buffer to the next.
pub fn put_shown_record(
    mframe: &[u8],
    record: Record,
    buffer: &mut [u8],
    out: &mut [u8],
    at: usize,
) -> Record
    requires { (length mframe.now ≤ 1600) × (at + 16 + length mframe.now ≤ length out.old) }
    ensures { Shows mframe.now «record» buffer.old out.old at result buffer.new out.new }
{
    let got = receive::receive(mframe, record, buffer);
    pcap_headers::put_capture_record(mframe, out, at);
    let answer = got.answer;
    if has_mcrc(answer) {
        put_inverted(mframe, out, at + pcap_records::HEADER + mframe.len());
    }
    got.after
}
