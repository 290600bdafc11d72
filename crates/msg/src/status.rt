// The classes of a response's status code, as the Rust's StatusLine has them.
ghost use Rattle.std.specs.Prelude.{◌≡◌};
ghost use Rattle.msg.specs.Status.{in_class, is_error_code};

// 100 to 199.
pub fn is_informational(code: u16) -> bool
    ensures { result ≡ in_class 100 200 code }
{
    is_in_class(code, 100, 200)
}

// 200 to 299.
pub fn is_success(code: u16) -> bool
    ensures { result ≡ in_class 200 300 code }
{
    is_in_class(code, 200, 300)
}

// 300 to 399.
pub fn is_redirection(code: u16) -> bool
    ensures { result ≡ in_class 300 400 code }
{
    is_in_class(code, 300, 400)
}

// 400 to 499.
pub fn is_client_error(code: u16) -> bool
    ensures { result ≡ in_class 400 500 code }
{
    is_in_class(code, 400, 500)
}

// 500 to 599.
pub fn is_server_error(code: u16) -> bool
    ensures { result ≡ in_class 500 600 code }
{
    is_in_class(code, 500, 600)
}

// 600 to 699.
pub fn is_global_failure(code: u16) -> bool
    ensures { result ≡ in_class 600 700 code }
{
    is_in_class(code, 600, 700)
}

// 400 to 699.
pub fn is_error(code: u16) -> bool
    ensures { result ≡ is_error_code code }
{
    is_client_error(code) || is_server_error(code) || is_global_failure(code)
}

// The codes from lo on, below hi.
fn is_in_class(code: u16, lo: u16, hi: u16) -> bool
    ensures { result ≡ in_class lo hi code }
{
    lo <= code && code < hi
}
