// The capture for eyes of a trace, which the usual viewer puts together: that of document 02, (vii), but for the check octets of fragments, V and R.
#![tactic(auto)]

ghost use Rattle.std.specs.Prelude.{◌≡◌, ◌≤◌, length};
ghost use Rattle.octets.specs.Laid.{over};
ghost use Rattle.pcap_headers.specs.Headers.{capture_of};
ghost use Rattle.pcap_lists.specs.Lists.{said};
ghost use Rattle.pcap.specs.Captures.{Met};
ghost use Rattle.eyes.specs.Eyes.{shown_in, eyes_of};

use mframe::BODY_MOST;
use pcap_lists::Error;
use pcap_records::FILE_HEADER;
use receiver_record::Record;
use trace::Cursor;

// A capture of the trace's contents as they are shown, up to its end or to a record that is refused.
fn put_shown(trace: &[u8], out: &mut [u8])
    requires { length (capture_of (shown_in trace.now)) ≤ length out.old }
    ensures { out.new ≡ over (capture_of (shown_in trace.now)) out.old }
{
    let mut buffer = [0u8; BODY_MOST];
    let mut record = Record::fresh();
    pcap_headers::put_file_header(out);
    // No `pcap_contents::Writer`: the receiver's buffer would be part of it, and of the definition of what it is behind each record.
    let mut from = 0;
    let mut at = FILE_HEADER;
    loop {
        match (Cursor { at: from }).read(trace) {
            Ok(Some(span)) => {
                let content = &trace[span.start..span.next];
                record = eyes_records::put_shown_record(content, record, &mut buffer, out, at);
                at += pcap_records::HEADER + span.length;
                from = span.next;
            }
            Ok(None) => return,
            Err(_) => return,
        }
    }
}

// The capture for eyes of a trace, at the front of the memory lent. It is as long as the plain one.
#[tactic(auto, using(crate::proofs::Lengths::unwritten))]
pub fn write(trace: &[u8], capture: &mut [u8]) -> Result<usize, Error>
    ensures { Met (eyes_of trace.now (length capture.old)) capture.old (said result) capture.new }
{
    let octets = pcap::answer_for(trace, capture.len())?;
    put_shown(trace, capture);
    Ok(octets)
}
