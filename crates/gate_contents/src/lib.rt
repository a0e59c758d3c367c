// The contents of a gate control list that was judged good, from one form into the other: octets into entries, and entries into octets.
#![tactic(auto)]

ghost use Rattle.std.specs.Prelude.{◌≡◌, ◌+◌, ◌*◌, ◌≤◌, length};
ghost use Rattle.octets.specs.Laid.{laid, over};
ghost use Rattle.gate_entries.specs.Entries.{size};
ghost use Rattle.gate_lists.specs.Lists.{good, of_entries, entries_from, octets_of_all};

use gate_entries::SIZE;
use gate_lists::Accepted;

// The entries of a list, as words.
pub fn put_entries(list: Accepted<'_>, entries: &mut [[u32; 3]])
    requires { list.entries ≤ length entries.old }
    ensures { entries.new ≡ over (entries_from list.entry.entries list.entry.octets.now 0) entries.old }
{
    for i in 0..list.entries {
        entries[i as usize] = gate_entries::entry_at(list.octets, i as usize * SIZE);
    }
}

// The octets of an entry at a place of a list.
fn put_at(octets: [u8; SIZE], list: &mut [u8], at: usize)
    requires { at + 7 ≤ length list.old }
    ensures { list.new ≡ laid list.old at octets }
{
    list[at..at + SIZE].copy_from_slice(&octets);
}

// The octets of entries that were all judged good.
pub fn put_octets(entries: &[[u32; 3]], list: &mut [u8])
    requires { (of_entries entries.now ≡ good (length entries.now)) × (length entries.now * size ≤ length list.old) }
    ensures { list.new ≡ over (octets_of_all entries.now) list.old }
{
    // Counted in a u32: counted in a usize, which has 64 bits on the board too, a list that is written misses its goal.
    for i in 0..entries.len() as u32 {
        let octets = gate_entries::octets_of(entries[i as usize]);
        put_at(octets, list, i as usize * SIZE);
    }
}
