// The sending calls. Each is an exported function of its own, with the same last lines: C has no generic ones.
ghost use Rattle.std.specs.Prelude.{length};
ghost use Rattle.single.specs.Single.{express_of, order_of};
ghost use Rattle.mframe.specs.declared.Kind.TheVariants as Kinds;
ghost use Rattle.seatport.specs.Sending.{Wrote, sending_of, Sent};

use mframe::OUTPUT_LEAST;
use sender_answers::Refusal;

#[unsafe(no_mangle)]
pub extern "C" fn seatport_express(body: &[u8], out: &mut [u8], written: &mut [u32; 2]) -> u32
    ensures { Wrote (express_of body.now (length out.old)) out.old result written.new out.new }
{
    let answer = single::express(body, out);
    *written = sent_words::written_of(answer);
    sent_words::number_of(answer)
}

#[unsafe(no_mangle)]
pub extern "C" fn seatport_verify(out: &mut [u8], written: &mut [u32; 2]) -> u32
    ensures { Wrote (order_of Kinds.Verify (length out.old)) out.old result written.new out.new }
{
    let answer = single::verify(out);
    *written = sent_words::written_of(answer);
    sent_words::number_of(answer)
}

#[unsafe(no_mangle)]
pub extern "C" fn seatport_respond(out: &mut [u8], written: &mut [u32; 2]) -> u32
    ensures { Wrote (order_of Kinds.Respond (length out.old)) out.old result written.new out.new }
{
    let answer = single::respond(out);
    *written = sent_words::written_of(answer);
    sent_words::number_of(answer)
}

#[unsafe(no_mangle)]
pub extern "C" fn seatport_preemptable(
    sender: &mut [u32; 7],
    body: &[u8],
    ask: usize,
    out: &mut [u8],
    written: &mut [u32; 2],
) -> u32
    ensures { Sent (sending_of sender.old body.now ask (length out.old)) out.old result sender.new written.new out.new }
{
    let Some(record) = sender_words::sender_in(*sender) else {
        *written = [0, 0];
        return if out.len() < OUTPUT_LEAST {
            Refusal::Output.number()
        } else {
            Refusal::Record.number()
        };
    };
    let sent = send::preemptable(record, body, sent_words::ask_of(ask), out);
    let answer = sent.answer;
    *sender = sender_words::sender_words(sent.after);
    *written = sent_words::written_of(answer);
    sent_words::number_of(answer)
}
