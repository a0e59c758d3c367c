// As much of a list as can matter, read in as many pieces as it comes in.
ghost use Rattle.std.specs.Prelude.{◌≤◌, length, IfOk};

use std::io;
use std::io::Read;

// 256 entries of seven octets, and behind them a header of two and the longest value, of 255: what stands behind so many octets changes nothing
// (the theorem `enough` of the crate schedule).
pub(crate) const ENOUGH: usize = 2049;

// Reads until there is no more room, or nothing comes any more; how many octets were read.
pub(crate) fn take<R: Read>(file: &mut R, octets: &mut [u8]) -> io::Result<usize>
    ensures { IfOk result (λ count. count ≤ length octets.old) }
{
    let mut count = 0;
    // No iterator is plainer: each turn adds as many octets as a read gave.
    while count < octets.len() {
        let more = file.read(&mut octets[count..])?;
        if more == 0 {
            break;
        }
        count += more;
    }
    Ok(count)
}
