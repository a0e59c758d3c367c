// One record of a trace.
ghost use Rattle.trace.specs.Trace.{read_at};
ghost use Rattle.seatport.specs.Tracing.{Traced};

#[unsafe(no_mangle)]
pub extern "C" fn seatport_trace(trace: &[u8], content: &mut [u32; 3]) -> u32
    ensures { Traced (read_at trace.now 0) result content.new }
{
    seatport::seatport_trace(trace, content)
}
