// One file made from the other, record by record. Memory does not grow with them: a window of what is read, one frame in assembly and some
// records to be written are kept.
ghost use Rattle.std.specs.Prelude.{◌+◌, ◌≤◌};

use crate::trouble::{File, RefusedCapture, Trouble};
use mframe::BODY_MOST;
use pcap_fields::Order;
use pcap_records::FILE_HEADER;
use receiver_record::Record;
use sentences::RefusedRecord;
use std::fs;
use std::io::Read;
use trace::{Cursor, LIMIT, Span};
use windows::{LONGEST, Waiting, Window, front, part};

// The octets of the window, and of what waits to be written.
const ROOM: usize = 65536;

// What stands next in the input.
#[derive(Clone, Copy)]
enum Next {
    // A capture's header.
    FileHeader,
    TraceRecord,
    // A record of a capture whose fields stand in this order.
    CaptureRecord(Order),
}

// What was found at the window's front.
#[derive(Clone, Copy)]
enum Found {
    // Too little to tell.
    Part,
    // The header of a capture whose fields stand in this order.
    FileHeader(Order),
    // A good record, and where it lies.
    Record(Span),
    End,
}

impl From<Option<Span>> for Found {
    fn from(record: Option<Span>) -> Found {
        match record {
            Some(span) => Found::Record(span),
            None => Found::End,
        }
    }
}

// What is made: which file, the receiver's record, by which a capture for eyes is made, its assembly buffer, and what waits to be written.
#[derive(Drop)]
struct Making {
    made: File,
    receiver: Record,
    assembly: [u8; BODY_MOST],
    out: Waiting<ROOM>,
}

impl Making {
    // A record, behind what waits. Never drawn into its caller, where content and out would be parts of one struct: the compiler then takes them for
    // places that may overlap, and copies a long record word by word (1.8 times the instructions).
    #[inline(never)]
    fn put(&mut self, content: &[u8])
        requires { self.old.out.end + 1616 ≤ 65536 }
    {
        let content = front(content, LIMIT);
        let out = &mut self.out;
        let at = out.end;
        let in_capture = at + pcap_records::HEADER + content.len();
        match self.made {
            File::Trace => {
                pcap_headers::put_trace_record(content, &mut out.octets, at);
                out.end = at + trace::HEADER + content.len();
            }
            File::Capture => {
                pcap_headers::put_capture_record(content, &mut out.octets, at);
                out.end = in_capture;
            }
            File::CaptureForEyes => {
                self.receiver = eyes_records::put_shown_record(
                    content,
                    self.receiver,
                    &mut self.assembly,
                    &mut out.octets,
                    at,
                );
                out.end = in_capture;
            }
        }
    }
}

// Where the copying stands: what is made, what comes next, the number of the record that is read next, and the part of the input that was read and
// not yet copied.
#[derive(Drop)]
struct Copying {
    making: Making,
    next: Next,
    number: u64,
    window: Window<ROOM>,
}

impl Copying {
    // Before the first record: a capture that is made begins with its header, and so does one that is read.
    fn new(made: File) -> Copying {
        let mut octets = [0u8; ROOM];
        let (next, end) = match made {
            File::Trace => (Next::FileHeader, 0),
            File::Capture | File::CaptureForEyes => {
                pcap_headers::put_file_header(&mut octets);
                (Next::TraceRecord, FILE_HEADER)
            }
        };
        Copying {
            making: Making {
                made,
                receiver: Record::fresh(),
                assembly: [0; BODY_MOST],
                out: Waiting { octets, end },
            },
            next,
            number: 1,
            window: Window::new(),
        }
    }

    // What stands at the window's front. A match over an enum: each arm takes other values of the same struct, so closures would be no plainer.
    fn find(&self) -> Result<Found, Trouble> {
        if self.window.is_short() {
            return Ok(Found::Part);
        }
        let octets = self.window.rest();
        let number = self.number;
        match self.next {
            Next::FileHeader => pcap_records::open(octets)
                .map(Found::FileHeader)
                .map_err(|why| Trouble::Capture(RefusedCapture { number: 0, why })),
            Next::TraceRecord => Cursor::new()
                .read(octets)
                .map(Found::from)
                .map_err(|why| Trouble::Trace(RefusedRecord { number, why })),
            Next::CaptureRecord(order) => pcap_records::record_at(order, octets, 0)
                .map(Found::from)
                .map_err(|why| Trouble::Capture(RefusedCapture { number, why })),
        }
    }

    // A good record, whose content lies here in the window.
    fn copy_record(&mut self, output: &mut fs::File, span: Span) -> Result<(), Trouble> {
        self.making.out.make_room(LONGEST, output)?;
        self.making
            .put(part(self.window.rest(), span.start, span.next));
        self.number = self.number.wrapping_add(1);
        self.window.pass(span.next);
        Ok(())
    }

    // The end of the input: what waits is written, and all of it reaches the disk.
    fn finish(&mut self, output: &mut fs::File) -> Result<(), Trouble> {
        self.making.out.write(output)?;
        output.sync_all().map_err(|_| Trouble::Unwritten)
    }

    // Copies what stands at the window's front, or reads on; whether more is to come. Where a read fails, what was read before is not made into
    // anything.
    fn turn<R: Read>(&mut self, input: &mut R, output: &mut fs::File) -> Result<bool, Trouble> {
        match self.find()? {
            Found::Part => self.window.read_on(input).map_err(|_| Trouble::Unread)?,
            Found::FileHeader(order) => {
                self.next = Next::CaptureRecord(order);
                self.window.pass(FILE_HEADER);
            }
            Found::Record(span) => self.copy_record(output, span)?,
            Found::End => {
                self.finish(output)?;
                return Ok(false);
            }
        }
        Ok(true)
    }
}

// The turns, or what is wrong. A proved loop has to end, and nothing says that the input does: it has more turns than any input.
pub(crate) fn copy_all<R: Read>(
    made: File,
    input: &mut R,
    output: &mut fs::File,
) -> Result<(), Trouble> {
    let mut copying = Copying::new(made);
    for _ in 0..u64::MAX {
        if !copying.turn(input, output)? {
            return Ok(());
        }
    }
    Err(Trouble::Unread)
}
