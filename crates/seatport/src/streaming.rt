// The second receiver, which is given an mFrame as its octets come.
ghost use Rattle.stream_words.specs.State.{octet_of, Octet};
ghost use Rattle.seatport.specs.Streaming.{end_of, Ended};

use crate::receiving::seatport_receive;

#[unsafe(no_mangle)]
pub extern "C" fn seatport_octet(stream: &mut [u32; 2], area: &mut [u8], octet: u8) -> u32
    ensures { Octet (octet_of stream.old area.old octet) result stream.new area.new }
{
    stream_words::number_of(stream_words::octet(stream, area, octet))
}

#[unsafe(no_mangle)]
pub extern "C" fn seatport_end(
    stream: &mut [u32; 2],
    area: &[u8],
    receiver: &mut [u32; 9],
    buffer: &mut [u8],
    detail: &mut u32,
) -> u32
    ensures { Ended (end_of stream.old area.now receiver.old buffer.old) result stream.new detail.new receiver.new buffer.new }
{
    let words = *stream;
    *detail = 0;
    if let Err(refusal) = stream_words::refusal(words, area.len()) {
        return refusal.number();
    }
    *stream = [0, 0];
    let count = words[0] as usize;
    let kept = &area[0..count];
    if stream::runs_over(words[1] == 1, kept) {
        return stream_words::too_long(*receiver, buffer.len()).number();
    }
    seatport_receive(receiver, kept, buffer, detail)
}
