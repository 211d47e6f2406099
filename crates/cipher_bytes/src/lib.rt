// Words read from bytes and written as bytes, the first byte highest; lists of four words.

#![tactic(auto)]

ghost use Rattle.std.specs.Prelude.{◌≡◌, [], ◌∷◌, ◌+◌, ◌*◌, ◌≤◌, length, take, drop};
ghost use Rattle.clefia_spec.specs.Words.{from_digits, to_digits, bytes_of, words_of, xors};
ghost use Rattle.cipher_bytes.specs.ListLaws.{put_four};
ghost use Rattle.cipher_bytes.specs.Exchange.{Exchanged};

// The word of four bytes.
pub fn join(a: u8, b: u8, c: u8, d: u8) -> u32
    ensures { result ≡ from_digits 256 (a ∷ b ∷ c ∷ d ∷ []) }
{
    u32::from_be_bytes([a, b, c, d])
}

// The word at `at`.
pub fn word(src: &[u8], at: usize) -> u32
    requires { at + 4 ≤ length src.now }
    ensures { result ≡ from_digits 256 (take 4 (drop at src.now)) }
{
    join(src[at], src[at + 1], src[at + 2], src[at + 3])
}

// The four words at `at`.
pub fn load(src: &[u8], at: usize) -> [u32; 4]
    requires { at + 16 ≤ length src.now }
    ensures { result ≡ words_of 4 (drop at src.now) }
{
    std::array::from_fn(|i| word(src, at + 4 * i))
}

// A word written at `at`.
pub fn put_word(dst: &mut [u8], at: usize, x: u32)
    requires { at + 4 ≤ length dst.old }
    ensures { dst.new ≡ put_four dst.old at (to_digits 256 4 x) }
{
    dst[at..at + 4].copy_from_slice(&x.to_be_bytes());
}

// Four words written into 16 bytes.
pub fn store(dst: &mut [u8], s: [u32; 4])
    requires { length dst.old ≡ 16 }
    ensures { dst.new ≡ bytes_of s }
{
    store_all(dst, &s);
}

pub fn xors4(a: [u32; 4], b: [u32; 4]) -> [u32; 4]
    ensures { result ≡ xors a b }
{
    std::array::from_fn(|i| a[i] ^ b[i])
}

// A block written and another read, alternately: the four words s written into the 16 bytes of dst,
// and the four at `from` of src read. Each word that is written is followed by one that is read,
// since a loop over blocks was faster so (DECISIONS, "A block is written and the next one read").
pub fn exchange(dst: &mut [u8], s: [u32; 4], src: &[u8], from: usize) -> [u32; 4]
    requires dst_len { length dst.old ≡ 16 }
    requires from_in_bounds { from + 16 ≤ length src.now }
    ensures { Exchanged s src.now from result dst.new }
{
    put_word(dst, 0, s[0]);
    let a = word(src, from);
    put_word(dst, 4, s[1]);
    let b = word(src, from + 4);
    put_word(dst, 8, s[2]);
    let c = word(src, from + 8);
    put_word(dst, 12, s[3]);
    let d = word(src, from + 12);
    [a, b, c, d]
}

// Every word of a list written into four times as many bytes.
pub fn store_all(dst: &mut [u8], src: &[u32])
    requires { length dst.old ≡ 4 * length src.now }
    ensures { dst.new ≡ bytes_of src.now }
{
    for (i, x) in src.iter().enumerate() {
        put_word(dst, 4 * i, *x);
    }
}

// As many words as dst has places, read from four times as many bytes.
pub fn load_all(dst: &mut [u32], src: &[u8])
    requires { length src.now ≡ 4 * length dst.old }
    ensures { dst.new ≡ words_of (length dst.old) src.now }
{
    for (i, x) in dst.iter_mut().enumerate() {
        *x = word(src, 4 * i);
    }
}

// Four words put at `at` of a list.
pub fn put_four(dst: &mut [u32], at: usize, s: [u32; 4])
    requires { at + 4 ≤ length dst.old }
    ensures { dst.new ≡ put_four dst.old at s }
{
    dst[at..at + 4].copy_from_slice(&s);
}
