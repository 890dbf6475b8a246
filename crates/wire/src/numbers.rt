// Numbers in bytes, low byte first: read from a place of a slice, and written there.
ghost use Rattle.std.specs.Prelude.{◌≡◌, ℕ, ◌+◌, ◌≤◌, length};
ghost use Rattle.wire.specs.Numbers.{number, number_at, le};
ghost use Rattle.wire.specs.Regions.{splice};

// An unsigned number of a fixed width in bytes.
pub trait Word: Copy {
    // How many bytes it fills.
    const WIDTH: usize;

    ghost WIDTH: { ℕ };

    // The number itself.
    ghost value: { Self → ℕ };

    // The number that these bytes make.
    fn from_bytes(bytes: &[u8]) -> Self
        requires { length bytes.now ≡ WIDTH }
        ensures { value result ≡ number bytes.now };

    // Puts the number into these bytes.
    fn put_into(self, bytes: &mut [u8])
        requires { length bytes.old ≡ WIDTH }
        ensures { bytes.new ≡ le WIDTH (value self) };
}

impl Word for u8 {
    const WIDTH: usize = 1;

    ghost WIDTH = { 1 };

    ghost value = { λ v. v };

    fn from_bytes(bytes: &[u8]) -> u8 {
        bytes[0]
    }

    fn put_into(self, bytes: &mut [u8]) {
        bytes.copy_from_slice(&self.to_le_bytes());
    }
}

impl Word for u16 {
    const WIDTH: usize = 2;

    ghost WIDTH = { 2 };

    ghost value = { λ v. v };

    fn from_bytes(bytes: &[u8]) -> u16 {
        u16::from_le_bytes([bytes[0], bytes[1]])
    }

    fn put_into(self, bytes: &mut [u8]) {
        bytes.copy_from_slice(&self.to_le_bytes());
    }
}

impl Word for u32 {
    const WIDTH: usize = 4;

    ghost WIDTH = { 4 };

    ghost value = { λ v. v };

    fn from_bytes(bytes: &[u8]) -> u32 {
        u32::from_le_bytes([bytes[0], bytes[1], bytes[2], bytes[3]])
    }

    fn put_into(self, bytes: &mut [u8]) {
        bytes.copy_from_slice(&self.to_le_bytes());
    }
}

impl Word for u64 {
    const WIDTH: usize = 8;

    ghost WIDTH = { 8 };

    ghost value = { λ v. v };

    fn from_bytes(bytes: &[u8]) -> u64 {
        u64::from_le_bytes([
            bytes[0], bytes[1], bytes[2], bytes[3], bytes[4], bytes[5], bytes[6], bytes[7],
        ])
    }

    fn put_into(self, bytes: &mut [u8]) {
        bytes.copy_from_slice(&self.to_le_bytes());
    }
}

// The number in the bytes from `at` on.
pub fn get<W: Word>(s: &[u8], at: usize) -> W
    requires { at + W.WIDTH ≤ length s.now }
    ensures { W.value result ≡ number_at s.now at W.WIDTH }
{
    W::from_bytes(&s[at..at + W::WIDTH])
}

// Puts `v` into the bytes from `at` on.
pub fn put<W: Word>(s: &mut [u8], at: usize, v: W)
    requires { at + W.WIDTH ≤ length s.old }
    ensures { s.new ≡ splice s.old at (le W.WIDTH (W.value v)) }
{
    v.put_into(&mut s[at..at + W::WIDTH]);
}
