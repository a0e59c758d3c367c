// The calls on the hall's schedule.
ghost use Rattle.std.specs.Prelude.{length};
ghost use Rattle.gates.specs.Gates.{read_of, write_of, events_of};
ghost use Rattle.seatport.specs.Scheduling.{Scheduled, Listed};

#[unsafe(no_mangle)]
pub extern "C" fn seatport_gates_read(list: &[u8], entries: &mut [[u32; 3]], count: &mut u32) -> u32
    ensures { Scheduled (read_of list.now (length entries.old)) entries.old result count.new entries.new }
{
    let read = gates::read_list(list, entries);
    *count = gate_lists::value(read);
    gate_lists::number(read)
}

#[unsafe(no_mangle)]
pub extern "C" fn seatport_gates_write(
    entries: &[[u32; 3]],
    list: &mut [u8],
    written: &mut u32,
) -> u32
    ensures { Scheduled (write_of entries.now (length list.old)) list.old result written.new list.new }
{
    let wrote = gates::write_list(entries, list);
    *written = gate_lists::value(wrote);
    gate_lists::number(wrote)
}

#[unsafe(no_mangle)]
pub extern "C" fn seatport_gates_events(
    list: &[u8],
    events: &mut [[u64; 2]],
    count: &mut u32,
    cycle: &mut u64,
) -> u32
    ensures { Listed (events_of list.now (length events.old)) list.now events.old result count.new cycle.new events.new }
{
    match gates::list_events(list, events) {
        Ok(total) => {
            *count = total.events;
            *cycle = total.cycle;
            gate_lists::number(Ok(total.events))
        }
        Err(error) => {
            *count = gate_lists::value(Err(error));
            *cycle = 0;
            gate_lists::number(Err(error))
        }
    }
}
