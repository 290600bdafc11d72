// The bit map, the state byte and the target of a record.
ghost use Rattle.std.specs.Prelude.{◌≡◌, ◌∷◌, [], ◌++◌, ◌||◌, ◌+◌, ◌≤◌, ◌<◌, length};
ghost use Rattle.edit.specs.Edit.{put_at};
ghost use Rattle.codec.specs.Codec.{two, text};
ghost use Rattle.record.specs.Record.{state_byte_number};
ghost use Rattle.record.specs.NumbersForm.{meaning};
ghost use Rattle.image_edit.specs.Maps.{map_from};

use codec::write_text;
use image_edit::{RecordPlace, write_marks};
use record::Numbers;

// They are those of a record with these numbers and so many routes, which stands at the place: the identifiers between them stay.
// Kept (5): the bytes are `&mut`: a struct of them and the place isn't Copy, so that it would be made anew for each further call, and clauses
// would say `p.exit.0.now` for `bytes.new`.
pub fn write_head(bytes: &mut [u8], p: RecordPlace, numbers: Numbers, count: usize, target: &[u8])
    requires { (p.at + 2 ≤ p.record.state) × (p.record.state + 3 + length target.now ≤ length bytes.old) × (length target.now < 65536) }
    ensures { bytes.new ≡ put_at p.at (two.write (map_from (meaning numbers) p.record.ids count)) (put_at p.record.state ((state_byte_number (record { state = (meaning numbers).state; we_are_uac = p.record.we_are_uac; secure = p.record.uris.local_secure || p.record.uris.remote_secure }) ∷ []) ++ text.write target.now) bytes.old) }
{
    let r = p.record;
    write_text(bytes, r.state + 1, target);
    write_marks(bytes, p, numbers, count);
}
