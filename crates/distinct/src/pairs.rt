// A record against those after it.
ghost use Rattle.std.specs.Prelude.{◌≡◌};
ghost use Rattle.record_walk.specs.Walk.{At};
ghost use Rattle.distinct.specs.Pairs.{alone_from};

use crate::keys::compare;
use record_walk::Records;

// None of the records that are left has the identifier of the record at `p`.
// Kept (5): over `others.bytes` alone, without `bytes`, the proof doesn't close (tried): that each byte is below 256 is known of a slice that is a parameter, of
// a struct's only by a ghost field (`fit` of `Held`), and `Records` has none; `bytes` beside it spares one that only this would read.
pub fn is_alone(bytes: &[u8], p: usize, others: Records<'_>) -> bool
    requires { At bytes.now p × (others.bytes.now ≡ bytes.now) }
    ensures { result ≡ alone_from bytes.now p others.entry.at }
{
    for q in others {
        if compare(bytes, q, p).is_eq() {
            return false;
        }
    }
    true
}
