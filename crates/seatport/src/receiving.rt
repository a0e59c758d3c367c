// The receiving calls.
ghost use Rattle.std.specs.Prelude.{◌≡◌};
ghost use Rattle.seatport.specs.Receiving.{receiving_of, Received, part_of};

use mframe::BODY_MOST;
use receiver_answers::Refusal;

#[unsafe(no_mangle)]
pub extern "C" fn seatport_receive(
    receiver: &mut [u32; 9],
    mframe: &[u8],
    buffer: &mut [u8],
    detail: &mut u32,
) -> u32
    ensures { Received (receiving_of receiver.old mframe.now buffer.old) result detail.new receiver.new buffer.new }
{
    let Some(record) = receiver_words::receiver_in(*receiver) else {
        *detail = 0;
        return if buffer.len() < BODY_MOST {
            Refusal::Buffer.number()
        } else {
            Refusal::Record.number()
        };
    };
    let got = receive::receive(mframe, record, buffer);
    let answer = got.answer;
    // Before the words are written: the answer then need not outlive them, which saves instructions in every call.
    let number = answer.number();
    *receiver = receiver_words::receiver_words(got.after);
    *detail = answer.detail() as u32;
    number
}

#[unsafe(no_mangle)]
pub extern "C" fn seatport_express_body(mframe: &[u8], body: &mut [u32; 2])
    ensures { body.new ≡ part_of mframe.now }
{
    let part = express_body::part_in(mframe);
    let start = part.start as u32;
    let length = part.length as u32;
    *body = [start, length];
}
