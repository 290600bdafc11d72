// Classes of bytes, and how many bytes of a class stand first.
ghost use Rattle.std.specs.Prelude.{◌≡◌, ℕ, Bool, ◌≤◌, length, not};
ghost use Rattle.text.specs.Text.{within, is_blank, is_value, other, span};

// Bytes of one kind.
pub trait ByteClass {
    ghost test: { Self → ℕ → Bool };

    // Whether a byte is of the class.
    fn has(&self, b: u8) -> bool
        ensures { result ≡ test self.now b };
}

// How many bytes of a class stand first.
pub fn run_length<C: ByteClass>(s: &[u8], class: &C) -> usize
    ensures value { result ≡ span (C.test class.now) s.now }
    ensures upper_bound { result ≤ length s.now }
{
    s.iter().position(|&b| !class.has(b)).unwrap_or(s.len())
}

// The space and the tab.
#[derive(Clone, Copy)]
pub(crate) struct Blank {}

impl ByteClass for Blank {
    ghost test = { λ _ b. is_blank b };

    fn has(&self, b: u8) -> bool {
        crate::is_blank(b)
    }
}

// All but the space and the tab.
#[derive(Clone, Copy)]
pub(crate) struct Dark {}

impl ByteClass for Dark {
    ghost test = { λ _ b. not (is_blank b) };

    fn has(&self, b: u8) -> bool {
        !crate::is_blank(b)
    }
}

// The space to `~`.
#[derive(Clone, Copy)]
pub(crate) struct Visible {}

impl ByteClass for Visible {
    ghost test = { λ _ b. within 32 126 b };

    fn has(&self, b: u8) -> bool {
        crate::in_range(b, 32, 126)
    }
}

// The bytes that a value may have.
#[derive(Clone, Copy)]
pub(crate) struct Value {}

impl ByteClass for Value {
    ghost test = { λ _ b. is_value b };

    fn has(&self, b: u8) -> bool {
        crate::is_value(b)
    }
}

// All bytes but one.
#[derive(Clone, Copy)]
pub(crate) struct Other {
    pub byte: u8,
}

impl ByteClass for Other {
    ghost test = { λ c b. other c.byte b };

    fn has(&self, b: u8) -> bool {
        b != self.byte
    }
}
