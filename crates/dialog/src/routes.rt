// The routes of a record, given as its image.
ghost use Rattle.std.specs.Prelude.{◌≡◌};
ghost use Rattle.text.specs.Answers.{lookup_of};
ghost use Rattle.dialog.specs.ImageRoutes.{image_route};

use crate::readings::read_image;
use codec::{LENGTH_SIZE, read_two};
use limits::Refusal;
use record_walk::texts_end;
use text::Span;

// Where the text of the route at an index from 0 lies in the image; nothing from the count on: 3.
pub fn image_route(bytes: &[u8], index: usize) -> Result<Option<Span>, Refusal>
    ensures { result ≡ lookup_of (image_route bytes.now index) }
{
    let r = read_image(bytes)?;
    if r.route_count <= index {
        return Ok(None);
    }
    let at = texts_end(bytes, r.routes + 1, index);
    Ok(Some(Span {
        start: at + LENGTH_SIZE,
        length: read_two(bytes, at),
    }))
}
