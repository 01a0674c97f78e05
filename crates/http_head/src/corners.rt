// Two things that a head which isn't whole shows before its end: a target that has another byte than
// 33 to 126, and more lines than a head may have.
ghost use Rattle.std.specs.Prelude.{◌≡◌, ◌≤◌, ◌&&◌, nat_le};
ghost use Rattle.http_head.specs.Corners.{behind_blank, starts_plain, ends_in, is_request_fine, is_response_fine};

fn behind_blank(bytes: &[u8]) -> &[u8]
    ensures { result.now ≡ behind_blank bytes.now }
{
    let mut rest = bytes;
    while let [byte, more @ ..] = rest {
        if *byte == b' ' {
            return more;
        }
        rest = more;
    }
    rest
}

fn starts_plain(bytes: &[u8]) -> bool
    ensures { result ≡ starts_plain bytes.now }
{
    for byte in bytes {
        if *byte == b' ' {
            return true;
        }
        if !byte.is_ascii_graphic() {
            return false;
        }
    }
    true
}

fn ends_in(bytes: &[u8]) -> usize
    ensures { result ≡ ends_in bytes.now }
{
    bytes.iter().filter(|byte| **byte == b'\n').count()
}

pub(crate) fn is_request_fine(bytes: &[u8]) -> bool
    ensures { result ≡ is_request_fine bytes.now }
{
    let tail = behind_blank(bytes);
    starts_plain(tail) && ends_in(tail) <= 65
}

pub(crate) fn is_response_fine(bytes: &[u8]) -> bool
    ensures { result ≡ is_response_fine bytes.now }
{
    ends_in(behind_blank(bytes)) <= 65
}
