// Reading the codes of a block, as numbers of either width.
ghost use Rattle.std.specs.Prelude.{◌≡◌, ℕ, ◌++◌, ◌+◌, ◌*◌, ◌/◌, ◌^◌, ◌≤◌, ◌<◌, length, take, drop, map};
ghost use Rattle.blocks.specs.Bytes.{number, digits};

use crate::bytes;

// A number that holds a code.
pub(crate) trait Code: Copy {
    // How many bits it has.
    ghost bits: { ℕ };

    // The number as a value of the type.
    ghost of_nat: { ℕ → Self };

    fn of_code(code: u64) -> Self
        requires { code < 2 ^ bits }
        ensures { result ≡ of_nat code };
}

impl Code for u32 {
    ghost bits = { 32 };

    ghost of_nat = { λ n. n };

    fn of_code(code: u64) -> u32 {
        code as u32
    }
}

impl Code for u64 {
    ghost bits = { 64 };

    ghost of_nat = { λ n. n };

    fn of_code(code: u64) -> u64 {
        code
    }
}

// Eight codes that stand one after the other from a bit on.
fn eight<T: Code>(s: &[u8], bit: usize, w: usize, c: &mut [T], at: usize)
    requires { (1 ≤ w) × (w ≤ 64) × (w ≤ T.bits) × (bit ≤ 8 + 24 * w) × ((bit + 7 * w) / 8 + 9 ≤ length s.now) × (at + 8 ≤ length c.old) }
    ensures { c.new ≡ take at c.old ++ map T.of_nat (digits (2 ^ w) 8 (number 256 s.now / 2 ^ bit)) ++ drop (at + 8) c.old }
{
    for i in 0..8 {
        c[at + i] = T::of_code(bytes::code_at(s, bit + i * w, w));
    }
}

// The 32 codes of a block behind its width. Calls side by side: as a loop over the eights, or over the codes, unpacking took up to 1.75 times as long.
pub(crate) fn codes<T: Code>(s: &[u8], w: usize, c: &mut [T])
    requires { (1 ≤ w) × (w ≤ 64) × (w ≤ T.bits) × (4 * w + 10 ≤ length s.now) × (32 ≤ length c.old) }
    ensures { c.new ≡ map T.of_nat (digits (2 ^ w) 32 (number 256 s.now / 2 ^ 8)) ++ drop 32 c.old }
{
    eight(s, 8, w, c, 0);
    eight(s, 8 + 8 * w, w, c, 8);
    eight(s, 8 + 16 * w, w, c, 16);
    eight(s, 8 + 24 * w, w, c, 24);
}
