// The second receiver, which is given an mFrame as its octets come.
ghost use Rattle.stream_words.specs.State.{octet_of, Octet};
ghost use Rattle.seatport.specs.Streaming.{end_of, Ended};

#[unsafe(no_mangle)]
pub extern "C" fn seatport_octet(stream: &mut [u32; 2], area: &mut [u8], octet: u8) -> u32
    ensures { Octet (octet_of stream.old area.old octet) result stream.new area.new }
{
    seatport::seatport_octet(stream, area, octet)
}

#[unsafe(no_mangle)]
pub extern "C" fn seatport_end(
    stream: &mut [u32; 2],
    area: &[u8],
    receiver: &mut [u32; 9],
    buffer: &mut [u8],
    detail: &mut u32,
) -> u32
    ensures { Ended (end_of stream.old area.now receiver.old buffer.old) result stream.new detail.new receiver.new buffer.new }
{
    seatport::seatport_end(stream, area, receiver, buffer, detail)
}
