// The sending calls.
ghost use Rattle.std.specs.Prelude.{length};
ghost use Rattle.single.specs.Single.{express_of, order_of};
ghost use Rattle.mframe.specs.declared.Kind.TheVariants as Kinds;
ghost use Rattle.seatport.specs.Sending.{Wrote, sending_of, Sent};

#[unsafe(no_mangle)]
pub extern "C" fn seatport_express(body: &[u8], out: &mut [u8], written: &mut [u32; 2]) -> u32
    ensures { Wrote (express_of body.now (length out.old)) out.old result written.new out.new }
{
    seatport::seatport_express(body, out, written)
}

#[unsafe(no_mangle)]
pub extern "C" fn seatport_verify(out: &mut [u8], written: &mut [u32; 2]) -> u32
    ensures { Wrote (order_of Kinds.Verify (length out.old)) out.old result written.new out.new }
{
    seatport::seatport_verify(out, written)
}

#[unsafe(no_mangle)]
pub extern "C" fn seatport_respond(out: &mut [u8], written: &mut [u32; 2]) -> u32
    ensures { Wrote (order_of Kinds.Respond (length out.old)) out.old result written.new out.new }
{
    seatport::seatport_respond(out, written)
}

#[unsafe(no_mangle)]
pub extern "C" fn seatport_preemptable(
    sender: &mut [u32; 7],
    body: &[u8],
    ask: usize,
    out: &mut [u8],
    written: &mut [u32; 2],
) -> u32
    ensures { Sent (sending_of sender.old body.now ask (length out.old)) out.old result sender.new written.new out.new }
{
    seatport::seatport_preemptable(sender, body, ask, out, written)
}
