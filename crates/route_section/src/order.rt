// The two orders in which a section's routes stand.
ghost use Rattle.std.specs.Prelude.{◌≡◌, Bool, true, false, ◌+◌, ◌≤◌};
ghost use Rattle.route_section.specs.Filling.{place_for};

// Whether the routes stand as received or reversed over all lines, as a type.
pub trait Order {
    ghost reversed: { Bool };

    // Where a text of `k` bytes goes among `room` bytes, when `size` bytes of texts are held: after those, or, reversed, before them.
    // Kept (5): three numbers that `put_text` has, and that nothing else is said of; a struct of them would be made for this call.
    fn place(room: usize, size: usize, k: usize) -> usize
        requires { 1 + size + k ≤ room }
        ensures { result ≡ place_for reversed room size k };
}

// As received: from the front on, past the count byte.
pub struct AsReceived {}

impl Order for AsReceived {
    ghost reversed = { false };

    fn place(room: usize, size: usize, k: usize) -> usize {
        1 + size
    }
}

// Reversed: from the end on.
pub struct Reversed {}

impl Order for Reversed {
    ghost reversed = { true };

    fn place(room: usize, size: usize, k: usize) -> usize {
        room - size - k
    }
}
