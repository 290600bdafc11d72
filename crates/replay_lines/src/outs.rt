// The types of the out numbers of a call: each is lent in its own, made from the number of the line, and compared as a number of 64 bits.
ghost use Rattle.std.specs.Prelude.{◌≡◌, ℕ, ◌≤◌};

use crate::bytes::{low8, low16, low32};

// A type of number that a call is lent.
// Kept (4): `u64` has no `From<usize>`, and a `TryFrom` would refuse the numbers that `cut` cuts.
pub trait Number: Copy {
    // What it is as a number of 64 bits.
    ghost value: { Self → ℕ };

    // The number cut to the type's width.
    fn cut(n: u64) -> Self
        ensures { value result ≤ n };

    fn wide(self) -> u64
        ensures { result ≡ value self };
}

// Kept (2): the five differ in their type: there is no cast to a type parameter, nor from one.
impl Number for u8 {
    ghost value = { λ n. n };

    fn cut(n: u64) -> u8 {
        low8(n)
    }

    fn wide(self) -> u64 {
        self as u64
    }
}

impl Number for u16 {
    ghost value = { λ n. n };

    fn cut(n: u64) -> u16 {
        low16(n)
    }

    fn wide(self) -> u64 {
        self as u64
    }
}

impl Number for u32 {
    ghost value = { λ n. n };

    fn cut(n: u64) -> u32 {
        low32(n)
    }

    fn wide(self) -> u64 {
        self as u64
    }
}

impl Number for u64 {
    ghost value = { λ n. n };

    fn cut(n: u64) -> u64 {
        n
    }

    fn wide(self) -> u64 {
        self
    }
}

impl Number for usize {
    ghost value = { λ n. n };

    fn cut(n: u64) -> usize {
        n as usize
    }

    fn wide(self) -> u64 {
        self as u64
    }
}
