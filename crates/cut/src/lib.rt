// Where an mFrame is cut (document 01, "Sending"; document 02, (ii)).
#![tactic(auto)]

ghost use Rattle.std.specs.Prelude.{◌≡◌};
ghost use Rattle.cut.specs.Cut.{part_of, minimum};

// Of the frame, its FCS counted, this many octets at least are left behind a cut.
const LEFT: usize = 64;

// The least number of data octets before a cut: with the four of the mCRC behind them they make 64, 128, 192 or 256.
fn least(extra: u8) -> usize
    ensures { result ≡ minimum extra }
{
    64 * (1 + usize::from(extra)) - 4
}

// After how many octets a frame of so many, its FCS counted, of which some are sent, is cut now; none where all that is left goes. The ask is
// how many of the mFrame's data octets are on the wire when it has to make way, or none. A lawful cut needs both the ask and the least number,
// so the greater of the two is the only candidate: it is lawful, or none is.
#[tactic(auto, using(crate::proofs::Laws::cut_at, crate::proofs::Laws::cut_none, crate::proofs::Laws::unasked))]
pub fn next_part(frame: usize, sent: usize, extra: u8, ask: Option<usize>) -> Option<usize>
    ensures { result ≡ part_of frame sent (minimum extra) ask }
{
    let asked = ask?;
    let room = frame.checked_sub(sent)?.checked_sub(LEFT)?;
    let m = least(extra);
    let n = m.max(asked);
    if n <= room { Some(n) } else { None }
}
