// A dialog's identifier: the check of given parts, and the readings from a header block.
#![tactic(auto)]

ghost use Rattle.std.specs.Prelude.{◌≡◌, ◌≤◌, length};
ghost use Rattle.limits.specs.Limits.{rust_limits};
ghost use Rattle.limits.specs.Outcome.{check_of};
ghost use Rattle.text.specs.Text.{all};
ghost use Rattle.msg.specs.Block.{lines_of};
ghost use Rattle.msg.specs.Table.{table_of, value_at, end_of};
ghost use Rattle.headers.specs.Tag.{part_of};
ghost use Rattle.text.specs.Spans.{PartWithin};
ghost use Rattle.dialog_id.specs.Ident.{ident_cause};
ghost use Rattle.dialog_id.specs.IdTexts.{ident_of, ident_in, swapped};
ghost use Rattle.dialog_id.specs.DialogId.{is_plain, part_cause, identifier_cause, tag_in, identifier, read_identifier, from_name, to_name, identifier_of, from_request, from_response_uac, from_response_uas, id_from, id_answer};

use headers::find_tag;
use limits::{Limits, Refusal};
use msg::HeaderTable;
use text::Span;

// The three texts of an identifier.
#[derive(Clone, Copy, PartialEq, Eq, PartialOrd, Ord)]
pub struct IdTexts<'a> {
    pub call_id: &'a [u8],
    pub local_tag: &'a [u8],
    pub remote_tag: &'a [u8],
}

impl<'a> IdTexts<'a> {
    // The length of each text: 1.
    pub fn check_lengths(self) -> Result<(), Refusal>
        ensures { result ≡ check_of (ident_cause rust_limits (ident_of self.entry)) }
    {
        text::check_length(self.call_id)?;
        text::check_length(self.local_tag)?;
        text::check_length(self.remote_tag)
    }
}

// Where the three parts stand in a header block.
#[derive(Clone, Copy)]
pub struct DialogId {
    pub call_id: Span,
    pub local_tag: Span,
    pub remote_tag: Span,
}

impl DialogId {
    // The check of given parts: 1, then 25, 26, 27 of each.
    pub fn new(id: IdTexts<'_>) -> Result<(), Refusal>
        ensures { result ≡ check_of (identifier_cause rust_limits id.entry.call_id.now id.entry.local_tag.now id.entry.remote_tag.now) }
    {
        id.check_lengths()?;
        check_part(id.call_id, Limits::MAX_CALL_ID_LENGTH)?;
        check_part(id.local_tag, Limits::MAX_TAG_LENGTH)?;
        check_part(id.remote_tag, Limits::MAX_TAG_LENGTH)
    }

    // The three texts that the parts are in the block.
    pub fn texts<'a>(self, block: &'a [u8]) -> IdTexts<'a>
        requires { PartWithin block.now self.call_id × PartWithin block.now self.local_tag × PartWithin block.now self.remote_tag }
        ensures { ident_of result ≡ ident_in block.now self }
    {
        IdTexts {
            call_id: self.call_id.text(block),
            local_tag: self.local_tag.text(block),
            remote_tag: self.remote_tag.text(block),
        }
    }

    // The same as the other side calls it: its local tag is our remote one.
    pub fn swapped(self) -> DialogId
        ensures { result ≡ swapped self }
    {
        DialogId {
            call_id: self.call_id,
            local_tag: self.remote_tag,
            remote_tag: self.local_tag,
        }
    }

    // From a request, with the tag of From as local tag: 1, 2, 4.
    pub fn from_request(block: &[u8]) -> Result<DialogId, Refusal>
        ensures { result ≡ id_answer (from_request rust_limits block.now) }
    {
        read_checked(block, b"From", b"To")
    }

    // From a response to a request that we sent: 1, 2, 4.
    pub fn from_response_uac(block: &[u8]) -> Result<DialogId, Refusal>
        ensures { result ≡ id_answer (from_response_uac rust_limits block.now) }
    {
        DialogId::from_request(block)
    }

    // From a response that we sent, with the tag of To as local tag: 1, 2, 4.
    pub fn from_response_uas(block: &[u8]) -> Result<DialogId, Refusal>
        ensures { result ≡ id_answer (from_response_uas rust_limits block.now) }
    {
        read_checked(block, b"To", b"From")
    }
}

// The identifier by the two headers named: 1, 2, 4.
fn read_checked(block: &[u8], local_name: &[u8], remote_name: &[u8]) -> Result<DialogId, Refusal>
    ensures { result ≡ id_answer (read_identifier rust_limits local_name.now remote_name.now block.now) }
{
    msg::check_block(block)?;
    read_id(block, local_name, remote_name).ok_or(Refusal::MissingHeader)
}

// The identifier that a request names, of a block that was checked before; the tag of From as local tag.
pub fn request_id(block: &[u8]) -> Option<DialogId>
    ensures { result ≡ id_from (identifier_of from_name to_name block.now) }
{
    read_id(block, b"From", b"To")
}

// The same by the block's table.
pub fn request_id_in(block: &[u8], t: HeaderTable) -> Option<DialogId>
    requires { t ≡ table_of (lines_of block.now) }
    ensures { result ≡ id_from (identifier_of from_name to_name block.now) }
{
    let call_id = t.call_id;
    let from = t.from;
    let to = t.to;
    id_at(block, call_id, from, to)
}

// The Call-ID and the tags of the two headers named.
pub fn read_id(block: &[u8], local_name: &[u8], remote_name: &[u8]) -> Option<DialogId>
    ensures { result ≡ id_from (identifier_of local_name.now remote_name.now block.now) }
{
    let call_id = msg::find(block, b"Call-ID");
    let local = msg::find(block, local_name);
    let remote = msg::find(block, remote_name);
    id_at(block, call_id, local, remote)
}

// The Call-ID and the tags of three lines that were looked up.
// Kept (5): a line that was looked up is its place and the next line's, kept without a lifetime (`HeaderTable` has eight); a `text::Part` would
// carry the text beside the place, and each table the block's lifetime.
pub fn id_at(
    block: &[u8],
    call_id: Option<(Span, usize)>,
    local: Option<(Span, usize)>,
    remote: Option<(Span, usize)>,
) -> Option<DialogId>
    requires { (end_of call_id ≤ length block.now) × (end_of local ≤ length block.now) × (end_of remote ≤ length block.now) }
    ensures { result ≡ id_from (identifier (value_at call_id block.now) (tag_in (value_at local block.now)) (tag_in (value_at remote block.now))) }
{
    let (c, _) = call_id?;
    let local_tag = tag_at(block, local)?;
    let remote_tag = tag_at(block, remote)?;
    Some(DialogId {
        call_id: c,
        local_tag,
        remote_tag,
    })
}

// The tag of a line that was looked up, where it stands in the block.
// Kept (5): a line that was looked up is its place and the next line's, kept without a lifetime (`HeaderTable` has eight); a `text::Part` would
// carry the text beside the place, and each table the block's lifetime.
fn tag_at(block: &[u8], line: Option<(Span, usize)>) -> Option<Span>
    requires { end_of line ≤ length block.now }
    ensures { result ≡ part_of (tag_in (value_at line block.now)) }
{
    let (v, _) = line?;
    let t = find_tag(v.text(block))?;
    Some(t.moved(v.start))
}

// A part of an identifier, of at most `limit` bytes: 25, 26, 27.
fn check_part(s: &[u8], limit: usize) -> Result<(), Refusal>
    ensures { result ≡ check_of (part_cause limit s.now) }
{
    if s.len() == 0 {
        return Err(Refusal::IdentifierEmpty);
    }
    if limit < s.len() {
        return Err(Refusal::IdentifierTooLong);
    }
    if !all_plain(s) {
        return Err(Refusal::ControlCharacters);
    }
    Ok(())
}

// Whether no byte is a control character or over 126.
fn all_plain(s: &[u8]) -> bool
    ensures { result ≡ all is_plain s.now }
{
    s.iter().all(|&b| is_plain(b))
}

fn is_plain(b: u8) -> bool
    ensures { result ≡ is_plain b }
{
    text::in_range(b, 32, 126)
}
