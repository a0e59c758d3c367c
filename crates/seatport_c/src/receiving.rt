// The receiving calls.
ghost use Rattle.std.specs.Prelude.{◌≡◌};
ghost use Rattle.seatport.specs.Receiving.{receiving_of, Received, part_of};

#[unsafe(no_mangle)]
pub extern "C" fn seatport_receive(
    receiver: &mut [u32; 9],
    mframe: &[u8],
    buffer: &mut [u8],
    detail: &mut u32,
) -> u32
    ensures { Received (receiving_of receiver.old mframe.now buffer.old) result detail.new receiver.new buffer.new }
{
    seatport::seatport_receive(receiver, mframe, buffer, detail)
}

#[unsafe(no_mangle)]
pub extern "C" fn seatport_express_body(mframe: &[u8], body: &mut [u32; 2])
    ensures { body.new ≡ part_of mframe.now }
{
    seatport::seatport_express_body(mframe, body)
}
