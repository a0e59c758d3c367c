// The calls on captures.
ghost use Rattle.std.specs.Prelude.{length};
ghost use Rattle.pcap.specs.Captures.{write_of, read_of};
ghost use Rattle.seatport.specs.Capturing.{Captured};

#[unsafe(no_mangle)]
pub extern "C" fn seatport_capture_write(trace: &[u8], capture: &mut [u8], value: &mut u64) -> u32
    ensures { Captured (write_of trace.now (length capture.old)) capture.old result value.new capture.new }
{
    let written = pcap::write(trace, capture);
    *value = pcap_lists::value(written) as u64;
    pcap_lists::number(written)
}

#[unsafe(no_mangle)]
pub extern "C" fn seatport_capture_read(capture: &[u8], trace: &mut [u8], value: &mut u64) -> u32
    ensures { Captured (read_of capture.now (length trace.old)) trace.old result value.new trace.new }
{
    let read = pcap::read(capture, trace);
    *value = pcap_lists::value(read) as u64;
    pcap_lists::number(read)
}
