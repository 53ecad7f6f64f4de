// Values that stand in a slice of bytes: numbers of 1, 2, 4 and 8 bytes, least significant first, yes/no bytes, and runs of values.
ghost use Rattle.std.specs.Prelude.{◌≡◌, ℕ, ◌+◌, ◌*◌, ◌≤◌, List, length, drop};
ghost use mathlib.Core.List.{flat_map};
ghost use Rattle.std.proofs.lemmas.List.Edits.{sets};
ghost use Rattle.bits.specs.LittleEndian.{little_endian, bytes_of};
ghost use Rattle.bits.proofs.LittleEndianLaws.{length_bytes_of};
ghost use Rattle.record.specs.Runs.{read_all, All, Takes, flag_of, flag_bytes};
ghost use Rattle.record.specs.Sizes.{length_flag_bytes};

// A value that takes SIZE bytes, wherever it stands.
pub trait Stored: Copy {
    ghost SIZE: { ℕ };

    // The value that bytes start with, and the bytes of a value.
    ghost read: { List ℕ → Self };

    ghost write: { Self → List ℕ };

    // The numbers of a value fit their types, as they do in code.
    ghost Fits: { Self → Type 0 };

    const SIZE: usize;

    fn get(b: &[u8], at: usize) -> Self
        requires { at + SIZE ≤ length b.now }
        ensures { result ≡ read (drop at b.now) };

    // What is stored is read back only where it fits.
    fn put(b: &mut [u8], at: usize, v: Self)
        requires { at + SIZE ≤ length b.old }
        ensures b_after { b.new ≡ sets b.old at (write v) }
        ensures fits { Fits v };

    ghost size: { (v : Self) → length (write v) ≡ SIZE };
}

// ---- Numbers.

impl Stored for u8 {
    ghost SIZE = { 1 };

    ghost read = { little_endian 1 };

    ghost write = { bytes_of 1 };

    ghost Fits = { Takes 1 };

    const SIZE: usize = 1;

    fn get(b: &[u8], at: usize) -> u8 {
        b[at]
    }

    fn put(b: &mut [u8], at: usize, v: u8) {
        b[at] = v;
    }

    ghost size = { length_bytes_of 1 };
}

impl Stored for u16 {
    ghost SIZE = { 2 };

    ghost read = { little_endian 2 };

    ghost write = { bytes_of 2 };

    ghost Fits = { Takes 2 };

    const SIZE: usize = 2;

    fn get(b: &[u8], at: usize) -> u16 {
        let bytes = <[u8; 2]>::try_from(&b[at..at + 2]).unwrap();
        u16::from_le_bytes(bytes)
    }

    fn put(b: &mut [u8], at: usize, v: u16) {
        b[at..at + 2].copy_from_slice(&v.to_le_bytes());
    }

    ghost size = { length_bytes_of 2 };
}

impl Stored for u32 {
    ghost SIZE = { 4 };

    ghost read = { little_endian 4 };

    ghost write = { bytes_of 4 };

    ghost Fits = { Takes 4 };

    const SIZE: usize = 4;

    fn get(b: &[u8], at: usize) -> u32 {
        let bytes = <[u8; 4]>::try_from(&b[at..at + 4]).unwrap();
        u32::from_le_bytes(bytes)
    }

    fn put(b: &mut [u8], at: usize, v: u32) {
        b[at..at + 4].copy_from_slice(&v.to_le_bytes());
    }

    ghost size = { length_bytes_of 4 };
}

impl Stored for u64 {
    ghost SIZE = { 8 };

    ghost read = { little_endian 8 };

    ghost write = { bytes_of 8 };

    ghost Fits = { Takes 8 };

    const SIZE: usize = 8;

    fn get(b: &[u8], at: usize) -> u64 {
        let bytes = <[u8; 8]>::try_from(&b[at..at + 8]).unwrap();
        u64::from_le_bytes(bytes)
    }

    fn put(b: &mut [u8], at: usize, v: u64) {
        b[at..at + 8].copy_from_slice(&v.to_le_bytes());
    }

    ghost size = { length_bytes_of 8 };
}

// ---- Yes/no bytes: 1 is yes, 0 is no.

impl Stored for bool {
    ghost SIZE = { 1 };

    ghost read = { flag_of };

    ghost write = { flag_bytes };

    ghost Fits = { λ v. Unit };

    const SIZE: usize = 1;

    #[tactic(auto, unfolding(crate::specs::Runs::flag_of))]
    fn get(b: &[u8], at: usize) -> bool {
        u8::get(b, at) == 1
    }

    #[tactic(auto, unfolding(crate::specs::Runs::flag_bytes))]
    fn put(b: &mut [u8], at: usize, v: bool) {
        u8::put(b, at, u8::from(v));
    }

    ghost size = { length_flag_bytes };
}

// ---- Runs of values: `out` is filled from `at` on, and the values of `vs` are stored from `at` on.

pub fn get_all<T: Stored>(out: &mut [T], b: &[u8], at: usize)
    requires { at + length out.old * T.SIZE ≤ length b.now }
    ensures { out.new ≡ read_all T.SIZE T.read (length out.old) (drop at b.now) }
{
    for (i, v) in out.iter_mut().enumerate() {
        *v = T::get(b, at + i * T::SIZE);
    }
}

pub fn put_all<T: Stored>(b: &mut [u8], at: usize, vs: &[T])
    requires { at + length vs.now * T.SIZE ≤ length b.old }
    ensures b_after { b.new ≡ sets b.old at (flat_map T.write vs.now) }
    ensures fits { All T.Fits vs.now }
{
    for (i, v) in vs.iter().enumerate() {
        T::put(b, at + i * T::SIZE, *v);
    }
}
