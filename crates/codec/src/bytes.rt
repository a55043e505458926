// Big endian numbers in their bytes.
ghost use Rattle.std.specs.Prelude.{◌≡◌, length};
ghost use Rattle.terms.specs.Numbers.{number};

pub(crate) fn u64_from(s: &[u8]) -> u64
    requires { length s.now ≡ 8 }
    ensures { result ≡ number 0 s.now }
{
    u64::from_be_bytes(*s.as_array().unwrap())
}
