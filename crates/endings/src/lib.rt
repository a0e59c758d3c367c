// What the last four octets of an mFrame decide (document 01, "Receiving").
#![tactic(auto)]

ghost use Rattle.std.specs.Prelude.{◌≡◌};
ghost use Rattle.endings.specs.Judge.{ending_of};

// What the last four octets say of a frame.
#[derive(Clone, Copy)]
pub enum Ending {
    // It ends here, after so many data octets more.
    Done(usize),
    // More of it is to come, after so many data octets more, which leave this register.
    More(usize, u32),
    // They are neither its FCS nor its mCRC.
    Damaged,
}

// An mFrame's data and check octets, of a frame whose octets before them left this register. No octet is summed twice.
pub fn judge(register: u32, octets: &[u8]) -> Ending
    ensures { result ≡ ending_of register octets.now }
{
    let n = octets.len();
    if n < 4 {
        return Ending::Damaged;
    }
    let data = n - 4;
    let after = crc::over(register, &octets[0..data]);
    let last = fours::load(octets, data);
    if last == crc::fcs_word(after) {
        return Ending::Done(data);
    }
    if last == crc::mcrc_word(after) {
        return Ending::More(data, after);
    }
    Ending::Damaged
}
