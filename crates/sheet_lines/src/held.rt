// Lent bytes, and how many of them are used: a call is lent them whole, and may leave more or fewer used.
ghost use Rattle.std.specs.Prelude.{◌≡◌, IfOk, IfErr, take};

use crate::show_refusal;
use limits::Refusal;
use std::io;

// Kept (6): README's rule: no heap. So the bytes are an array, and a call is lent all of it.
#[derive(Drop)]
pub struct Held<const N: usize> {
    pub bytes: [u8; N],
    pub used: usize,
}

impl<const N: usize> Held<N> {
    // None used yet.
    pub fn new() -> Held<N>
        ensures { result.used ≡ 0 }
    {
        Held {
            bytes: [0; N],
            used: 0,
        }
    }

    // The used bytes, or all where there are not so many.
    pub fn used_bytes(&self) -> &[u8]
        ensures { result.now ≡ take self.now.used self.now.bytes }
    {
        self.bytes.get(..self.used).unwrap_or(&self.bytes)
    }

    // What a call answered that hands out no more than the new used length, and the end of its line.
    pub fn changed(&mut self, rt: &impl Print, answer: Result<usize, Refusal>) -> io::Result<()>
        ensures taken { IfOk answer (λ n. self.new.used ≡ n) }
        ensures refused { IfErr answer (λ x. self.new.used ≡ self.old.used) }
        ensures bytes { self.new.bytes ≡ self.old.bytes }
    {
        match answer {
            Ok(n) => {
                self.used = n;
                rt.write_all(b"taken")?;
            }
            Err(x) => show_refusal(rt, x)?,
        }
        self.end(rt)
    }

    // The end of a line: how many of the bytes are used.
    pub fn end(&self, rt: &impl Print) -> io::Result<()> {
        println!(rt; "; {} of {} bytes", self.used, self.bytes.len())
    }
}
