// Parts of texts, copies into them, and numbers cut to a width. Each is total: what lies outside is passed over.
ghost use Rattle.std.specs.Prelude.{◌≡◌, ◌%◌};

// At most n items from a place on.
pub fn part<T>(s: &[T], from: usize, n: usize) -> &[T] {
    let rest = s.get(from..).unwrap_or(&[]);
    rest.get(..n).unwrap_or(rest)
}

// Writes s to the places of out from `at` on, as far as there is room.
// Kept (4): the copy is `copy_from_slice`; here what has no room is passed over.
pub fn copy_at(s: &[u8], out: &mut [u8], at: usize) {
    if let Some(room) = out.get_mut(at..) {
        let n = room.len().min(s.len());
        room[..n].copy_from_slice(&s[..n]);
    }
}

// Writes the last digits of n in decimal over the places from `at` to before `end`.
// Kept (4): `write!` and `io::decimal` leave no digit out; here the first ones go where the places are fewer, and places outside the bytes are passed over.
pub fn write_digits(n: u64, out: &mut [u8], at: usize, end: usize) {
    let mut left = n;
    // Kept (3): places outside are passed over one by one while the digits go on; a slice would be none where one is outside.
    for i in (at..end).rev() {
        if let Some(place) = out.get_mut(i) {
            *place = b'0' + (left % 10) as u8;
        }
        left /= 10;
    }
}

// Kept (2): `low16` and `low32` too: no cast to a type parameter; each has its own modulus in its clause.
pub fn low8(n: u64) -> u8
    ensures { result ≡ n % 256 }
{
    (n % 256) as u8
}

pub fn low16(n: u64) -> u16
    ensures { result ≡ n % 65536 }
{
    (n % 65536) as u16
}

pub fn low32(n: u64) -> u32
    ensures { result ≡ n % 4294967296 }
{
    (n % 4294967296) as u32
}
