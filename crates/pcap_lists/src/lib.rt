// Whether a trace or a capture is accepted, record by record, and how many records it has.
#![tactic(auto)]

ghost use Rattle.std.specs.Prelude.{◌≡◌, ℕ, List, length};
ghost use Rattle.trace.specs.Trace as trace;
ghost use Rattle.trace_layout.specs.Layout.{Headed, rest_from};
ghost use Rattle.trace_layout.proofs.Inside.{trace_headed};
ghost use Rattle.pcap_records.specs.Records as capture;
ghost use Rattle.pcap_lists.specs.Lists.{why_number, read_said, said, number_of, value_of, judged};
ghost use Rattle.pcap_lists.specs.declared.Why.TheVariants as W;
ghost use Rattle.pcap_records.proofs.Inside.{capture_headed};

use pcap_fields::Order;
use pcap_records::FILE_HEADER;
use trace::{Cursor, Span};

// Why a trace is refused, 50 to 53, or a capture, 70 to 77.
#[derive(Clone, Copy)]
pub enum Why {
    Trace(trace::Refusal),
    Capture(pcap_records::Refusal),
}

impl Why {
    pub fn number(self) -> u32
        ensures { result ≡ why_number self }
    {
        match self {
            Why::Trace(why) => why.number(),
            Why::Capture(why) => why.number(),
        }
    }
}

impl From<trace::Refusal> for Why {
    ghost from_gives = { λ why w. w ≡ W.Trace why };

    fn from(why: trace::Refusal) -> Why {
        Why::Trace(why)
    }
}

impl From<pcap_records::Refusal> for Why {
    ghost from_gives = { λ why w. w ≡ W.Capture why };

    fn from(why: pcap_records::Refusal) -> Why {
        Why::Capture(why)
    }
}

// What a call that is given a trace or a capture answers where it does nothing. gate_lists has its like over u32: one type of both would need a trait
// of refusals with numbers and a const for each of 64 and 78, which is no plainer.
#[derive(Clone, Copy)]
pub enum Error {
    // Why it is refused, and the record's number, the first being 1, and 0 where it is a capture's header.
    Refused { why: Why, record: usize },
    // The output has no room for so many octets. Nothing was written.
    Short(usize),
}

// The number of an answer: 0, or that of the refusal, 50 to 53 or 70 to 77, or 78 where the output is short.
pub fn number(answer: Result<usize, Error>) -> u32
    ensures { result ≡ number_of (said answer) }
{
    match answer {
        Ok(_) => 0,
        Err(Error::Refused { why, record: _ }) => why.number(),
        Err(Error::Short(_)) => 78,
    }
}

// How many records are good or octets written, the number of the refused record, or how many octets there must be room for.
pub fn value(answer: Result<usize, Error>) -> usize
    ensures { result ≡ value_of (said answer) }
{
    match answer {
        Ok(n) => n,
        Err(Error::Refused { why: _, record }) => record,
        Err(Error::Short(n)) => n,
    }
}

// A file that is read record by record.
pub trait Records {
    ghost octets: { Self → List ℕ };

    fn octets(&self) -> &[u8]
        ensures { result.now ≡ octets self.now };

    ghost front: { Self → ℕ };

    // The place of the first record.
    fn front(&self) -> usize
        ensures { result ≡ front self.now };

    ghost read_at: { Self → ℕ → trace.Said };

    // The record at a place, the end, or why the record there is refused.
    fn read(&self, at: usize) -> Result<Option<Span>, Why>
        ensures { read_said result ≡ read_at self.now at };

    ghost reading: { (file : Self) → Headed (read_at file) (octets file) };
}

// A trace that is to be written as a capture.
#[derive(Clone, Copy)]
pub struct Trace<'a> {
    pub octets: &'a [u8],
}

impl<'a> Records for Trace<'a> {
    ghost octets = { λ file. file.octets.now };

    fn octets(&self) -> &[u8] {
        self.octets
    }

    ghost read_at = { λ file. trace.read_at file.octets.now };

    ghost front = { λ _. 0 };

    fn front(&self) -> usize {
        0
    }

    ghost reading = { λ file. trace_headed file.octets.now };

    #[inline(always)]
    fn read(&self, at: usize) -> Result<Option<Span>, Why> {
        Ok(Cursor { at }.read(self.octets)?)
    }
}

// A capture whose fields are in this order.
#[derive(Clone, Copy)]
pub struct Capture<'a> {
    pub order: Order,
    pub octets: &'a [u8],
}

impl<'a> Records for Capture<'a> {
    ghost octets = { λ file. file.octets.now };

    fn octets(&self) -> &[u8] {
        self.octets
    }

    ghost read_at = { λ file. capture.record_at file.order file.octets.now };

    ghost front = { λ _. capture.file_header };

    fn front(&self) -> usize {
        FILE_HEADER
    }

    ghost reading = { λ file. capture_headed file.order file.octets.now };

    #[inline(always)]
    fn read(&self, at: usize) -> Result<Option<Span>, Why> {
        Ok(pcap_records::record_at(self.order, self.octets, at)?)
    }
}

// How many records a trace or a capture has, if all of it is good.
pub fn count<R: Records>(file: &R) -> Result<usize, Error>
    ensures { said result ≡ judged (rest_from (R.read_at file.now) (R.octets file.now) (R.front file.now)) }
{
    // No iterator: what stands next is a Result of an Option, and the law of the trait speaks of a place.
    let mut records = 0;
    let mut at = file.front();
    loop {
        match file.read(at) {
            Ok(Some(span)) => at = span.next,
            Ok(None) => return Ok(records),
            Err(why) => {
                return Err(Error::Refused {
                    why,
                    record: records + 1,
                });
            }
        }
        records += 1;
    }
}
