// Captures for the usual viewer: a pcap file from a trace, and back.
#![tactic(auto)]

ghost use Rattle.std.specs.Prelude.{◌≡◌, ◌+◌, ◌*◌, length};
ghost use Rattle.pcap_lists.specs.Lists.{said};
ghost use Rattle.pcap.specs.Captures.{Tells, Met, write_of, read_of};

use pcap_lists::{Capture, Error, Trace, Why};
use pcap_records::FILE_HEADER;

// How many octets more a record has in a capture than in a trace.
const MORE: usize = pcap_records::HEADER - trace::HEADER;

// How many octets a capture has, where a number has room for that.
fn capture_length(length: usize, records: usize) -> Option<usize>
    ensures { Tells result (24 + length + 12 * records) }
{
    MORE.checked_mul(records)?
        .checked_add(FILE_HEADER)?
        .checked_add(length)
}

// What a call that writes the capture of a trace into so much room answers: of `write` what it answers, and it writes nothing.
pub fn answer_for(trace: &[u8], room: usize) -> Result<usize, Error>
    ensures { said result ≡ (write_of trace.now room).answer }
{
    let records = pcap_lists::count(&Trace { octets: trace })?;
    match capture_length(trace.len(), records) {
        None => Err(Error::Short(usize::MAX)),
        Some(octets) => {
            if room < octets {
                return Err(Error::Short(octets));
            }
            Ok(octets)
        }
    }
}

// The capture of a trace, at the front of the memory lent.
#[tactic(auto, using(crate::proofs::Laws::met_unwritten))]
pub fn write(trace: &[u8], capture: &mut [u8]) -> Result<usize, Error>
    ensures { Met (write_of trace.now (length capture.old)) capture.old (said result) capture.new }
{
    let octets = answer_for(trace, capture.len())?;
    pcap_contents::put_capture(trace, capture);
    Ok(octets)
}

// The trace of a capture, at the front of the memory lent.
pub fn read(capture: &[u8], trace: &mut [u8]) -> Result<usize, Error>
    ensures { Met (read_of capture.now (length trace.old)) trace.old (said result) trace.new }
{
    let order = match pcap_records::open(capture) {
        Ok(order) => order,
        Err(why) => {
            return Err(Error::Refused {
                why: Why::Capture(why),
                record: 0,
            });
        }
    };
    let file = Capture {
        order,
        octets: capture,
    };
    let records = pcap_lists::count(&file)?;
    let octets = capture.len() - FILE_HEADER - MORE * records;
    if trace.len() < octets {
        return Err(Error::Short(octets));
    }
    pcap_contents::put_trace(order, capture, trace);
    Ok(octets)
}
