// The verification event, with the wait that an enable carries.
ghost use Rattle.seatport.specs.Verifying.{verifying_of, Taken};

#[unsafe(no_mangle)]
pub extern "C" fn seatport_step(
    link: &mut [u32; 5],
    event: u32,
    wait: u32,
    ordered: &mut u32,
) -> u32
    ensures { Taken (verifying_of link.old event wait) result ordered.new link.new }
{
    seatport::seatport_step(link, event, wait, ordered)
}
