// Numbers, runs of bytes and clears in slices: Krakatau's BufWriter, at places that the caller gives. A number's most significant
// byte comes first (document 01, "A job").
#![tactic(auto)]

ghost use Rattle.std.specs.Prelude.{◌≡◌, List, [], ◌∷◌, ℕ, ◌+◌, ◌<◌, ◌≤◌, length, get_or, take, drop, replicate};
ghost use Rattle.std.proofs.Math.Seq.{paste};
ghost use Rattle.definition.specs.Bytes.{be2, be4, be8};
ghost use Rattle.writer.specs.Numbers.{number2, number4, number8};
ghost use Rattle.writer.specs.Standing.{be1-number, be2-number, be4-number, be8-number};

// An unsigned number in a slice, its most significant byte first.
pub trait BigEndian: Copy {
    // How many bytes it takes, the bytes of one, and the one that stands at a place.
    ghost width: { ℕ };

    ghost bytes: { Self → List ℕ };

    ghost number: { List ℕ → ℕ → Self };

    fn get(s: &[u8], at: usize) -> Self
        requires { at + width ≤ length s.now }
        ensures { result ≡ number s.now at };

    fn put(self, d: &mut [u8], at: usize)
        requires { at + width ≤ length d.old }
        ensures { d.new ≡ paste d.old at (bytes self) width };

    // The bytes of the number at a place are those that stand there.
    ghost stands: { (s : List ℕ) → ((i : ℕ) → get_or s i 0 < 256) → (at : ℕ) → at + width ≤ length s → take width (drop at s) ≡ bytes (number s at) };
}

impl BigEndian for u8 {
    ghost width = { 1 };

    ghost bytes = { λ x. x ∷ [] };

    ghost number = { λ s at. get_or s at 0 };

    ghost stands = { be1-number };

    fn get(s: &[u8], at: usize) -> u8 {
        s[at]
    }

    fn put(self, d: &mut [u8], at: usize) {
        copy(&[self], 0, d, at, 1);
    }
}

impl BigEndian for u16 {
    ghost width = { 2 };

    ghost bytes = { be2 };

    ghost number = { number2 };

    ghost stands = { be2-number };

    fn get(s: &[u8], at: usize) -> u16 {
        u16::from_be_bytes([s[at], s[at + 1]])
    }

    fn put(self, d: &mut [u8], at: usize) {
        copy(&self.to_be_bytes(), 0, d, at, 2);
    }
}

impl BigEndian for u32 {
    ghost width = { 4 };

    ghost bytes = { be4 };

    ghost number = { number4 };

    ghost stands = { be4-number };

    fn get(s: &[u8], at: usize) -> u32 {
        u32::from_be_bytes([s[at], s[at + 1], s[at + 2], s[at + 3]])
    }

    fn put(self, d: &mut [u8], at: usize) {
        copy(&self.to_be_bytes(), 0, d, at, 4);
    }
}

impl BigEndian for u64 {
    ghost width = { 8 };

    ghost bytes = { be8 };

    ghost number = { number8 };

    ghost stands = { be8-number };

    fn get(s: &[u8], at: usize) -> u64 {
        u64::from_be_bytes([
            s[at],
            s[at + 1],
            s[at + 2],
            s[at + 3],
            s[at + 4],
            s[at + 5],
            s[at + 6],
            s[at + 7],
        ])
    }

    fn put(self, d: &mut [u8], at: usize) {
        copy(&self.to_be_bytes(), 0, d, at, 8);
    }
}

// Copies n bytes of src, from a place, to a place of dst. No `copy_from_slice`: the archives for C would need `memmove` from outside for it.
pub fn copy(src: &[u8], from: usize, dst: &mut [u8], at: usize, n: usize)
    requires n_in_bounds { from + n ≤ length src.now }
    requires n_in_bounds_2 { at + n ≤ length dst.old }
    ensures { dst.new ≡ paste dst.old at (drop from src.now) n }
{
    for i in 0..n {
        dst[at + i] = src[from + i];
    }
}

pub fn clear_words(w: &mut [u32])
    ensures { w.new ≡ replicate (length w.old) 0 }
{
    w.fill(0);
}
