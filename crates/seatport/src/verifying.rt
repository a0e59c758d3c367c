// The verification event, with the wait that an enable carries.
ghost use Rattle.seatport.specs.Verifying.{verifying_of, Taken};

use verify_answers::Refusal;

#[unsafe(no_mangle)]
pub extern "C" fn seatport_step(
    link: &mut [u32; 5],
    event: u32,
    wait: u32,
    ordered: &mut u32,
) -> u32
    ensures { Taken (verifying_of link.old event wait) result ordered.new link.new }
{
    *ordered = 0;
    // What words that are no record's get, and a number that is no event's.
    let unfit = Refusal::Record.number();
    let Some(record) = verify_words::link_in(*link) else {
        return unfit;
    };
    let Some(event) = event_words::event_at(event, wait) else {
        return unfit;
    };
    let stepped = verify::step(record, event);
    *link = verify_words::link_words(stepped.after);
    *ordered = event_words::ordered_of(stepped.answer);
    event_words::number_of(stepped.answer)
}
