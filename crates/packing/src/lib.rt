// Octets unpacked into septets: the same number, its digits to base 256 and to base 128.
#![tactic(auto)]

ghost use Rattle.std.specs.Prelude.{◌≡◌, ◌+◌, ◌/◌, ◌<◌, ◌≤◌, length};
ghost use Rattle.laws.specs.Radix.{value, digits};
ghost use Rattle.packing.specs.Inner.{Word, unpacked_into};

// The number of some digits, lowest first.
fn number(base: u64, list: &[u8]) -> u64
    requires { Word base list.now }
    ensures { result ≡ value base list.now }
{
    let mut sum: u64 = 0;
    for i in (0..list.len()).rev() {
        sum = sum * base + u64::from(list[i]);
    }
    sum
}

// As many digits of a number as there is room for, lowest first.
fn put(word: u64, base: u64, out: &mut [u8])
    requires { (0 < base) × (base ≤ 256) }
    ensures { out.new ≡ digits base (length out.old) word }
{
    let mut rest = word;
    for digit in out.iter_mut() {
        *digit = (rest % base) as u8;
        rest /= base;
    }
}

// Unpacks octets into one septet for each, and one more for each seven. Where there is other room, nothing is written.
pub fn unpack(octets: &[u8], septets: &mut [u8])
    ensures { septets.new ≡ unpacked_into octets.now septets.old }
{
    if septets.len() < octets.len() {
        return;
    }
    if septets.len() - octets.len() != octets.len() / 7 {
        return;
    }
    unpack_all(octets, septets);
}

// As many septets as there is room for.
fn unpack_all(octets: &[u8], septets: &mut [u8])
    requires { length septets.old ≡ length octets.now + length octets.now / 7 }
    ensures { septets.new ≡ digits 128 (length septets.old) (value 256 octets.now) }
{
    let groups = octets.len() / 7;
    for g in 0..groups {
        let word = number(256, &octets[7 * g..7 * g + 7]);
        put(word, 128, &mut septets[8 * g..8 * g + 8]);
    }
    let word = number(256, &octets[7 * groups..]);
    put(word, 128, &mut septets[8 * groups..]);
}
