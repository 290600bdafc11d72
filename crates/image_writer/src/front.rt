// The parts of an image before its routes, as the writer is given them.
ghost use Rattle.std.specs.Prelude.{◌<◌, length};
ghost use Rattle.dialog_id.specs.IdTexts.{ident_of, TextsShort};

use dialog_id::IdTexts;
use record::Numbers;

// The three texts of a record's URIs, each of a length that two bytes hold.
#[derive(Clone, Copy)]
pub struct UriTexts<'a> {
    pub target: &'a [u8],
    pub local_uri: &'a [u8],
    pub remote_uri: &'a [u8],
    pub ghost short: { (length target.now < 65536) × (length local_uri.now < 65536) × (length remote_uri.now < 65536) },
}

// The parts of a record before its routes. The identifier's texts are as short; of their own type they can be of any length, as a C caller gives them.
#[derive(Clone, Copy)]
pub struct Front<'a> {
    pub numbers: Numbers,
    pub we_are_uac: bool,
    pub secure: bool,
    pub id: IdTexts<'a>,
    pub uris: UriTexts<'a>,
    pub ghost id_short: { TextsShort (ident_of id) },
}
