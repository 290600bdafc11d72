// A part of a text with its bytes.
ghost use Rattle.std.specs.Prelude.{◌+◌, ◌<◌, ◌^◌, length};

// A part of a text: the place where it stands there, and its bytes. No text has 2^63 bytes.
#[derive(Clone, Copy)]
pub struct Part<'a> {
    pub place: usize,
    pub text: &'a [u8],
    pub ghost fits: { place + length text.now < 2 ^ 63 },
}
