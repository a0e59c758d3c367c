// The listing of a trace, record by record.
ghost use Rattle.std.specs.Prelude.{◌≡◌, length};

use crate::trouble::Trouble;
use mframe::BODY_MOST;
use programs::Unwritten;
use receiver_record::Record;
use sentences::RefusedRecord;
use std::io::Print;
use text::Page;
use trace::{Cursor, Refusal, Span};
use windows::{Waiting, Window, part};

// The longest line.
const LINE: usize = 88;

// The octets of the window, and of the text that waits to be written.
const ROOM: usize = 65536;

// Where the listing stands: the receiving record, its assembly buffer, the next record's number, the part of the trace that was read and not yet
// listed, the text that waits to be written, and why the trace is listed no further.
#[derive(Drop)]
pub(crate) struct Listing {
    receiver: Record,
    assembly: [u8; BODY_MOST],
    number: u64,
    window: Window<ROOM>,
    text: Waiting<ROOM>,
    trouble: Option<Trouble>,
}

// What stands at the window's front.
#[derive(Clone, Copy)]
enum Found {
    // Too little to tell.
    Part,
    // A good record, and where it lies.
    Record(Span),
    Refused(Refusal),
    End,
}

// The page that begins behind what waits.
fn behind(text: &mut Waiting<ROOM>) -> Page<'_>
    ensures { (result.at ≡ text.old.end) × (length result.out.now ≡ 65536) }
{
    let at = text.end;
    Page {
        out: &mut text.octets,
        at,
    }
}

impl Listing {
    // Before the first record: the receiver is fresh, and the title waits.
    fn new() -> Listing {
        let mut octets = [0u8; ROOM];
        let mut page = Page {
            out: &mut octets,
            at: 0,
        };
        lines::title(&mut page);
        let end = page.at;
        Listing {
            receiver: Record::fresh(),
            assembly: [0; BODY_MOST],
            number: 1,
            window: Window::new(),
            text: Waiting { octets, end },
            trouble: None,
        }
    }

    // A refused record. Where the input failed, nothing is known of a record that it did not give whole: that one is not refused.
    fn refused(&self, why: Refusal) -> Found {
        match why {
            Refusal::Header | Refusal::Content if self.trouble.is_some() => Found::End,
            _ => Found::Refused(why),
        }
    }

    fn find(&self) -> Found {
        if self.window.is_short() {
            return Found::Part;
        }
        match Cursor::new().read(self.window.rest()) {
            Ok(Some(span)) => Found::Record(span),
            Ok(None) => Found::End,
            Err(why) => self.refused(why),
        }
    }

    // One more read. Behind one that fails nothing comes; what was read before is listed all the same.
    fn read_on(&mut self, rt: HostRuntime) {
        if self.window.read_on(&mut rt.stdin()).is_err() {
            self.trouble = Some(Trouble::Unread);
        }
    }

    // A good record, whose content lies here in the window: given to the receiver, and its line.
    fn list_record(&mut self, rt: HostRuntime, span: Span) -> Result<(), Unwritten> {
        self.text.make_room(LINE, &mut rt.stdout())?;
        let content = part(self.window.rest(), span.start, span.next);
        let mut page = behind(&mut self.text);
        self.receiver = listing::list(
            &mut page,
            self.number,
            content,
            self.receiver,
            &mut self.assembly,
        );
        self.text.end = page.at;
        self.number = self.number.wrapping_add(1);
        self.window.pass(span.next);
        Ok(())
    }

    // A refused record: its line, and nothing is read behind it.
    fn stop(&mut self, rt: HostRuntime, why: Refusal) -> Result<(), Unwritten> {
        self.text.make_room(LINE, &mut rt.stdout())?;
        let number = self.number;
        let mut page = behind(&mut self.text);
        lines::stop_line(&mut page, number, u64::from(why.number()));
        self.text.end = page.at;
        self.trouble = Some(Trouble::Refused(RefusedRecord { number, why }));
        Ok(())
    }

    // The last line, written with all that waits.
    fn finish(&mut self, rt: HostRuntime) -> Result<(), Unwritten> {
        self.text.make_room(LINE, &mut rt.stdout())?;
        let counters = self.receiver.counters;
        let mut page = behind(&mut self.text);
        lines::end_line(
            &mut page,
            u64::from(counters.errors),
            u64::from(counters.delimiters),
            u64::from(counters.assembled),
            u64::from(counters.fragments),
        );
        self.text.end = page.at;
        self.text.write(&mut rt.stdout())
    }

    // Lists what stands at the window's front, or reads on; whether more is to come. A match over an enum: each arm takes other values of the same
    // struct, so closures would be no plainer.
    fn turn(&mut self, rt: HostRuntime) -> Result<bool, Unwritten> {
        match self.find() {
            Found::Part => {
                self.read_on(rt);
                Ok(true)
            }
            Found::Record(span) => {
                self.list_record(rt, span)?;
                Ok(true)
            }
            Found::Refused(why) => {
                self.stop(rt, why)?;
                Ok(false)
            }
            Found::End => Ok(false),
        }
    }
}

// The listing of standard input, on standard output; why it goes no further, if anything is wrong with the trace. A proved loop has to end, and
// nothing says that the input does: it has more turns than any input. A function by itself: the listing is off the stack before a sentence is said.
#[inline(never)]
pub(crate) fn list_all(rt: HostRuntime) -> Result<Option<Trouble>, Unwritten> {
    let mut listing = Listing::new();
    for _ in 0..u64::MAX {
        if !listing.turn(rt)? {
            break;
        }
    }
    listing.finish(rt)?;
    Ok(listing.trouble)
}
