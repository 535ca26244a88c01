// The 80 bytes of the header.
ghost use Rattle.std.specs.Prelude.{◌≡◌, ◌≤◌, length};
ghost use Rattle.rules.specs.Job.{written};
ghost use Rattle.rules.specs.Stl.{header, headed};

// The text `track skin`, and zeros.
static HEADER: [u8; 80] = *b"track skin\
    \0\0\0\0\0\0\0\0\0\0\0\0\0\0\0\0\0\0\0\0\0\0\0\0\0\0\0\0\0\0\0\0\0\0\0\
    \0\0\0\0\0\0\0\0\0\0\0\0\0\0\0\0\0\0\0\0\0\0\0\0\0\0\0\0\0\0\0\0\0\0\0";

pub(crate) fn put_header(file: &mut [u8])
    requires { 80 ≤ length file.old }
    ensures { file.new ≡ written header file.old }
{
    file[..80].copy_from_slice(&HEADER);
}

pub(crate) fn is_headed(file: &[u8]) -> bool
    requires { 80 ≤ length file.now }
    ensures { result ≡ headed file.now }
{
    file[..80] == HEADER[..]
}
