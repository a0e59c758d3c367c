// Writes the words of an answer to standard output. Words are parted by one blank.
use crate::stop::Stop;

pub fn text(rt: HostRuntime, words: &[u8]) {
    let _ = rt.write_all(words);
}

// Whether the line could be ended. An output that took no word does not take a line's end either, so that nobody else has to ask.
pub fn line_end(rt: HostRuntime) -> Result<(), Stop> {
    rt.write_all(b"\n")
        .map_err(|error| Stop::Unwritten(error.into()))
}

pub fn number(rt: HostRuntime, n: u64) {
    let _ = print!(rt; " {n}");
}

pub fn small(rt: HostRuntime, n: u8) {
    number(rt, u64::from(n));
}

// A word and a number.
pub fn kind(rt: HostRuntime, words: &[u8], n: u8) {
    text(rt, words);
    small(rt, n);
}

// A number of 32 bits in eight hexadecimal digits, highest first.
pub fn word(rt: HostRuntime, n: u64) {
    let _ = print!(rt; " {n:08x}");
}

// Four octets in hexadecimal digits, first octet first.
pub fn octets(rt: HostRuntime, x: [u8; 4]) {
    text(rt, b" ");
    hex_octets(rt, &x);
}

// The FCS of octets, which stands for all of them.
pub fn check(rt: HostRuntime, x: &[u8]) {
    octets(rt, crc::fcs(crc::over(crc::ALL_ONES, x)));
}

// Any number of octets, each in two digits.
pub fn hex_octets(rt: HostRuntime, x: &[u8]) {
    for octet in x {
        let _ = print!(rt; "{octet:02x}");
    }
}

// 1 or 0.
pub fn flag(rt: HostRuntime, x: bool) {
    small(rt, u8::from(x));
}

// A number at the front of a line.
pub fn first(rt: HostRuntime, n: u64) {
    let _ = print!(rt; "{n}");
}
