// A capture file (pcap), as it is read: its header, and the record at a place.
#![tactic(auto)]

ghost use Rattle.std.specs.Prelude.{◌≡◌, ◌≤◌, length};
ghost use Rattle.pcap_records.specs.Records.{refusal_number, opening, said, version_fits, fields_of, open_of, record_at};

use pcap_fields::Order;
use trace::Span;

// The octets of the file's header, and of a record's.
pub const FILE_HEADER: usize = 24;

pub const HEADER: usize = 16;

const MAGIC: u32 = 0xA1B2C3D4;

const MAJOR: u32 = 2;

const MINOR: u32 = 4;

// Ethernet mPackets, from the preamble on.
const LINK_TYPE: u32 = 274;

// The greatest length of a content.
const LIMIT: u32 = 1600;

// Why a capture is refused: 70 to 77.
#[derive(Clone, Copy)]
pub enum Refusal {
    // The file's header is cut.
    FileHeader,
    Magic,
    Version,
    LinkType,
    // A record's header is cut.
    Header,
    // More than the limit is stored.
    Length,
    // The stored and the original length differ.
    Original,
    // The content is cut.
    Content,
}

impl Refusal {
    pub fn number(self) -> u32
        ensures { result ≡ refusal_number self }
    {
        match self {
            Refusal::FileHeader => 70,
            Refusal::Magic => 71,
            Refusal::Version => 72,
            Refusal::LinkType => 73,
            Refusal::Header => 74,
            Refusal::Length => 75,
            Refusal::Original => 76,
            Refusal::Content => 77,
        }
    }
}

// Whether the version is 2.4.
fn version_fits(order: Order, capture: &[u8]) -> bool
    requires { 24 ≤ length capture.now }
    ensures { result ≡ version_fits order capture.now }
{
    pcap_fields::half(order, capture, 4) == MAJOR && pcap_fields::half(order, capture, 6) == MINOR
}

// The header's other fields, once its magic has told the order.
fn fields(order: Order, capture: &[u8]) -> Result<Order, Refusal>
    requires { 24 ≤ length capture.now }
    ensures { opening result ≡ fields_of order capture.now }
{
    if !version_fits(order, capture) {
        return Err(Refusal::Version);
    }
    if pcap_fields::word(order, capture, 20) != LINK_TYPE {
        return Err(Refusal::LinkType);
    }
    Ok(order)
}

// The file's header: the order of all fields, or why it is refused. The first record stands behind 24 octets.
pub fn open(capture: &[u8]) -> Result<Order, Refusal>
    ensures { opening result ≡ open_of capture.now }
{
    if capture.len() < FILE_HEADER {
        return Err(Refusal::FileHeader);
    }
    if pcap_fields::word(Order::Little, capture, 0) == MAGIC {
        return fields(Order::Little, capture);
    }
    if pcap_fields::word(Order::Big, capture, 0) == MAGIC {
        return fields(Order::Big, capture);
    }
    Err(Refusal::Magic)
}

// The record at a place, the end, or why the record there is refused. Drawn into its callers, as trace's is.
#[inline(always)]
pub fn record_at(order: Order, capture: &[u8], at: usize) -> Result<Option<Span>, Refusal>
    ensures { said result ≡ record_at order capture.now at }
{
    let end = capture.len();
    if end <= at {
        return Ok(None);
    }
    if end - at < HEADER {
        return Err(Refusal::Header);
    }
    let stored = pcap_fields::word(order, capture, at + 8);
    let original = pcap_fields::word(order, capture, at + 12);
    if LIMIT < stored {
        return Err(Refusal::Length);
    }
    if stored != original {
        return Err(Refusal::Original);
    }
    let start = at + HEADER;
    let length = stored as usize;
    if end - start < length {
        return Err(Refusal::Content);
    }
    let next = start + length;
    Ok(Some(Span {
        start,
        length,
        next,
    }))
}
