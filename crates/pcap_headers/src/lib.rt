// The pieces of a capture file and of a trace, as they are written: a file's header, and a record with its header. Memory and place stay two
// parameters, as in octets: the caller has counted the place (docs/DECISIONS.md, 101).
#![tactic(auto)]

ghost use Rattle.std.specs.Prelude.{◌≡◌, ◌+◌, ◌≤◌, length};
ghost use Rattle.octets.specs.Laid.{laid};
ghost use Rattle.trace_layout.specs.Layout.{record_of};
ghost use Rattle.pcap_headers.specs.Headers.{file_header, capture_header, capture_record};

// Magic, version, time zone, accuracy, snap length and link type.
const FILE_HEADER: [u8; 24] = [
    0xD4, 0xC3, 0xB2, 0xA1, 2, 0, 4, 0, 0, 0, 0, 0, 0, 0, 0, 0, 0x40, 0x06, 0, 0, 0x12, 0x01, 0, 0,
];

// The header of a capture, at the front of the memory lent.
pub fn put_file_header(out: &mut [u8])
    requires { 24 ≤ length out.old }
    ensures { out.new ≡ laid out.old 0 file_header }
{
    let header = FILE_HEADER;
    octets::copy_into(&header, out, 0)
}

// The header of a record in a capture: no time, and how long the content is, stored and original.
fn capture_header(length: u32) -> [u8; 16]
    ensures { result ≡ capture_header length }
{
    let n = fours::split(length);
    [
        0, 0, 0, 0, 0, 0, 0, 0, n[0], n[1], n[2], n[3], n[0], n[1], n[2], n[3],
    ]
}

// A record of a capture, from place at on. That a content is no longer than 1,600 octets is asked for at each call: a type over a slice would ask
// callers for a value of it.
pub fn put_capture_record(content: &[u8], out: &mut [u8], at: usize)
    requires { (length content.now ≤ 1600) × (at + 16 + length content.now ≤ length out.old) }
    ensures { out.new ≡ laid out.old at (capture_record content.now) }
{
    octets::copy_into(&capture_header(content.len() as u32), out, at);
    octets::copy_into(content, out, at + pcap_records::HEADER)
}

// A record of a trace, from place at on: how long the content is, and that it is an mFrame.
pub fn put_trace_record(content: &[u8], out: &mut [u8], at: usize)
    requires { (length content.now ≤ 1600) × (at + 4 + length content.now ≤ length out.old) }
    ensures { out.new ≡ laid out.old at (record_of content.now) }
{
    let n = fours::split(content.len() as u32);
    let header = [n[0], n[1], 1, 0];
    octets::copy_into(&header, out, at);
    octets::copy_into(content, out, at + trace::HEADER)
}
