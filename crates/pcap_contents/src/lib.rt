// The contents of a trace as the records of a capture, and those of a capture as the records of a trace.
#![tactic(auto)]

ghost use Rattle.std.specs.Prelude.{◌≡◌, ℕ, ◌+◌, ◌≤◌, List, length};
ghost use Rattle.octets.specs.Laid.{laid, over};
ghost use Rattle.trace_layout.specs.Layout.{record_of, trace_of, read_all, rest_from};
ghost use Rattle.pcap_headers.specs.Headers.{capture_record, capture_of};
ghost use Rattle.pcap_lists.specs.Lists.{records_in};
ghost use Rattle.pcap_contents.specs.Written.{written_of};

use pcap_fields::Order;
use pcap_lists::{Capture, Records, Trace};
use pcap_records::FILE_HEADER;

// What lays contents out as records, one behind the other.
pub trait Writer {
    ghost one: { Self → List ℕ → List ℕ };

    ghost next: { Self → List ℕ → Self };

    // The record of a content, from place at on, and the place behind it.
    fn put(&mut self, content: &[u8], out: &mut [u8], at: usize) -> usize
        requires { (length content.now ≤ 1600) × (at + length (one self.old content.now) ≤ length out.old) }
        ensures octets { out.new ≡ laid out.old at (one self.old content.now) }
        ensures behind { result ≡ at + length (one self.old content.now) }
        ensures after { self.new ≡ next self.old content.now };
}

// Records of a capture.
#[derive(Clone, Copy)]
pub struct ToCapture;

impl Writer for ToCapture {
    ghost one = { λ _. capture_record };

    ghost next = { λ writer _. writer };

    fn put(&mut self, content: &[u8], out: &mut [u8], at: usize) -> usize {
        pcap_headers::put_capture_record(content, out, at);
        at + pcap_records::HEADER + content.len()
    }
}

// Records of a trace.
#[derive(Clone, Copy)]
pub struct ToTrace;

impl Writer for ToTrace {
    ghost one = { λ _. record_of };

    ghost next = { λ writer _. writer };

    fn put(&mut self, content: &[u8], out: &mut [u8], at: usize) -> usize {
        pcap_headers::put_trace_record(content, out, at);
        at + trace::HEADER + content.len()
    }
}

// The contents of a file, up to its end or to a record that is refused, from place at on.
pub fn put_all<R: Records, W: Writer>(file: &R, writer: &mut W, out: &mut [u8], at: usize)
    requires { at + length (written_of W.one W.next writer.old (rest_from (R.read_at file.now) (R.octets file.now) (R.front file.now)).contents) ≤ length out.old }
    ensures { out.new ≡ laid out.old at (written_of W.one W.next writer.old (rest_from (R.read_at file.now) (R.octets file.now) (R.front file.now)).contents) }
{
    let octets = file.octets();
    // No iterator: what stands next is a Result of an Option, and the law of `Records` speaks of a place.
    let mut from = file.front();
    let mut end = at;
    loop {
        match file.read(from) {
            Ok(Some(span)) => {
                end = writer.put(&octets[span.start..span.next], out, end);
                from = span.next;
            }
            Ok(None) => return,
            Err(_) => return,
        }
    }
}

// A capture of the trace's contents, up to its end or to a record that is refused.
pub fn put_capture(trace: &[u8], out: &mut [u8])
    requires { length (capture_of (read_all trace.now).contents) ≤ length out.old }
    ensures { out.new ≡ over (capture_of (read_all trace.now).contents) out.old }
{
    pcap_headers::put_file_header(out);
    put_all(&Trace { octets: trace }, &mut ToCapture, out, FILE_HEADER)
}

// A trace of the capture's contents, up to its end or to a record that is refused. Order and octets, and no `Capture`: the call is promised so.
pub fn put_trace(order: Order, capture: &[u8], out: &mut [u8])
    requires { length (trace_of (records_in order capture.now).contents) ≤ length out.old }
    ensures { out.new ≡ over (trace_of (records_in order capture.now).contents) out.old }
{
    let file = Capture {
        order,
        octets: capture,
    };
    put_all(&file, &mut ToTrace, out, 0)
}
