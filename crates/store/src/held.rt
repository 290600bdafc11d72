// The used bytes of a store that was read: whole records one after another, each with an identifier of its own.
ghost use Rattle.std.specs.Prelude.{ℕ, ◌≡◌, ◌<◌, true, get_or};
ghost use Rattle.record.specs.Record.{is_given};
ghost use Rattle.record.specs.Store.{decode_all};

use record_walk::Records;

#[derive(Clone, Copy)]
pub struct Held<'a> {
    pub bytes: &'a [u8],
    pub ghost fit: { (i : ℕ) → get_or bytes.now i 0 < 256 },
    pub ghost stored: { is_given (decode_all bytes.now) ≡ true },
}

impl<'a> Held<'a> {
    // The places where its records' images begin, one after another.
    pub fn records(self) -> Records<'a>
        ensures bytes { result.bytes.now ≡ self.entry.bytes.now }
        ensures at { result.at ≡ 0 }
    {
        Records::new(self.bytes)
    }
}
