// UTF-8 as RFC 3629 defines it.
ghost use Rattle.std.specs.Prelude.{◌≡◌};
ghost use Rattle.msgpack.specs.Text.{utf8};

// Whether the bytes are characters of UTF-8, one after the other.
pub fn is_text(bytes: &[u8]) -> bool
    ensures { result ≡ utf8 bytes.now }
{
    std::str::from_utf8(bytes).is_ok()
}
