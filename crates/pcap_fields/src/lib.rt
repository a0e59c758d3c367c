// Numbers in a capture file, whose fields all stand in one of two byte orders.
#![tactic(auto)]

ghost use Rattle.std.specs.Prelude.{◌≡◌, ◌+◌, ◌≤◌, length};
ghost use Rattle.pcap_fields.specs.Fields.{half_in, word_in};

// The order of a field's octets.
#[derive(Clone, Copy)]
pub enum Order {
    // The lowest octet first.
    Little,
    // The highest octet first.
    Big,
}

// The number in the two octets from place i on. Two sizes, each by its octets: over a const size they would stand in a loop.
pub fn half(order: Order, octets: &[u8], i: usize) -> u32
    requires { i + 2 ≤ length octets.now }
    ensures { result ≡ half_in order octets.now i }
{
    let first = octets[i];
    let last = octets[i + 1];
    match order {
        Order::Little => fours::joined(first, last, 0, 0),
        Order::Big => fours::joined(last, first, 0, 0),
    }
}

// The number in the four octets from place i on.
pub fn word(order: Order, octets: &[u8], i: usize) -> u32
    requires { i + 4 ≤ length octets.now }
    ensures { result ≡ word_in order octets.now i }
{
    let a = octets[i];
    let b = octets[i + 1];
    let c = octets[i + 2];
    let d = octets[i + 3];
    match order {
        Order::Little => fours::joined(a, b, c, d),
        Order::Big => fours::joined(d, c, b, a),
    }
}
