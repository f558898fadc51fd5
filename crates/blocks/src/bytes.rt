// Bytes of a block side by side: loads, stores, and the code of some bits that starts at a bit.
ghost use Rattle.std.specs.Prelude.{◌≡◌, ◌++◌, ◌+◌, ◌*◌, ◌/◌, ◌%◌, ◌^◌, ◌≤◌, ◌<◌, length, take, drop};
ghost use Rattle.blocks.specs.Bytes.{number, digits};

// A byte as a wider number.
pub fn wide(x: u8) -> u64
    ensures { (result ≡ x) × (result < 256) }
{
    x as u64
}

// Four bytes as a number, lowest first. Each of `quad`, `load`, `store` and `half` is one call of the library: a count as a parameter would make none of
// them shorter, and each caller would have to say it.
pub fn quad(s: &[u8], at: usize) -> u64
    requires { at + 4 ≤ length s.now }
    ensures { (result ≡ number 256 (take 4 (drop at s.now))) × (result < 4294967296) }
{
    u32::from_le_bytes([s[at], s[at + 1], s[at + 2], s[at + 3]]) as u64
}

// Eight bytes, of which a compiler makes one load.
pub fn load(s: &[u8], at: usize) -> u64
    requires { at + 8 ≤ length s.now }
    ensures { result ≡ number 256 (take 8 (drop at s.now)) }
{
    u64::from_le_bytes([
        s[at],
        s[at + 1],
        s[at + 2],
        s[at + 3],
        s[at + 4],
        s[at + 5],
        s[at + 6],
        s[at + 7],
    ])
}

// The code of w bits that starts at a bit of `s`. Eight bytes hold it, unless it is so wide that the bits to skip push it into the ninth.
pub fn code_at(s: &[u8], bit: usize, w: usize) -> u64
    requires { (1 ≤ w) × (w ≤ 64) × (bit / 8 + 9 ≤ length s.now) }
    ensures { result ≡ number 256 s.now / 2 ^ bit % 2 ^ w }
{
    let at = bit / 8;
    let skip = bit % 8;
    let low = load(s, at) >> skip;
    let mask = u64::MAX >> (64 - w);
    if skip + w <= 64 {
        low & mask
    } else {
        (low + (wide(s[at + 8]) << (64 - skip))) & mask
    }
}

// Eight bytes, lowest first, of which a compiler makes one store.
pub fn store(out: &mut [u8], at: usize, word: u64)
    requires { at + 8 ≤ length out.old }
    ensures { out.new ≡ take at out.old ++ digits 256 8 word ++ drop (at + 8) out.old }
{
    out[at..at + 8].copy_from_slice(&word.to_le_bytes());
}

// Four bytes, lowest first.
pub fn half(out: &mut [u8], at: usize, word: u64)
    requires { at + 4 ≤ length out.old }
    ensures { out.new ≡ take at out.old ++ digits 256 4 word ++ drop (at + 4) out.old }
{
    out[at..at + 4].copy_from_slice(&word.to_le_bytes()[..4]);
}
