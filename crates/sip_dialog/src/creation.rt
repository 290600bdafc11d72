// New records, as images.
ghost use Rattle.std.specs.Prelude.{◌≡◌, length};
ghost use Rattle.limits.specs.Limits.{rust_limits};
ghost use Rattle.output.specs.Output.{written_from, leaves};
ghost use Rattle.record.specs.Record.{uac, uas};
ghost use Rattle.dialog_creation.specs.NewImage.{new_image};
ghost use Rattle.c_answers.specs.Given.{WithLeastGives};

use c_answers::give_with_least;
use creation_checks::NewDialog;
use msg::{Request, Response};

// The record of a dialog that our request opens, by the response to it: 1, 2, 6, 4, 5, 7, 8, 4, 9, 10, 13 with 90, 14, 18.
// Kept (2): the C header's parameters, and each function has a clause of its own.
pub fn sip_dialog_new_uac<'a>(
    method: &[u8],
    request: &'a [u8],
    status: u16,
    response: &'a [u8],
    local_uri: &[u8],
    remote_uri: &'a [u8],
    out: &mut [u8],
    written: &mut usize,
    least: &mut u64,
) -> u8
    ensures set_gives { WithLeastGives (written_from (new_image rust_limits uac (record { method = method.now; request = request.now; status = status; response = response.now; local_uri = local_uri.now; remote_uri = remote_uri.now }) (length out.old))) (record { value = written.old; least = least.old }) result (record { value = written.new; least = least.new }) }
    ensures out_after { out.new ≡ leaves (new_image rust_limits uac (record { method = method.now; request = request.now; status = status; response = response.now; local_uri = local_uri.now; remote_uri = remote_uri.now }) (length out.old)) out.old }
{
    let c = NewDialog {
        request: Request {
            method,
            block: request,
        },
        response: Response {
            status,
            block: response,
        },
        local_uri,
        remote_uri,
    };
    give_with_least(dialog_creation::new_uac(c, out), written, least)
}

// The record of a dialog that a request to us opens, by our response: the same.
// Kept (2): the C header's parameters, and each function has a clause of its own.
pub fn sip_dialog_new_uas<'a>(
    method: &[u8],
    request: &'a [u8],
    status: u16,
    response: &'a [u8],
    local_uri: &[u8],
    remote_uri: &'a [u8],
    out: &mut [u8],
    written: &mut usize,
    least: &mut u64,
) -> u8
    ensures set_gives { WithLeastGives (written_from (new_image rust_limits uas (record { method = method.now; request = request.now; status = status; response = response.now; local_uri = local_uri.now; remote_uri = remote_uri.now }) (length out.old))) (record { value = written.old; least = least.old }) result (record { value = written.new; least = least.new }) }
    ensures out_after { out.new ≡ leaves (new_image rust_limits uas (record { method = method.now; request = request.now; status = status; response = response.now; local_uri = local_uri.now; remote_uri = remote_uri.now }) (length out.old)) out.old }
{
    let c = NewDialog {
        request: Request {
            method,
            block: request,
        },
        response: Response {
            status,
            block: response,
        },
        local_uri,
        remote_uri,
    };
    give_with_least(dialog_creation::new_uas(c, out), written, least)
}
