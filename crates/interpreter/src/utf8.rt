// UTF-8 (Unicode, Table 3-7).
ghost use Rattle.std.specs.Prelude.{◌≡◌};
ghost use Rattle.interpreter.specs.Utf8.{utf8};

use simdutf8::is_utf8;

/// Whether a text is characters, one after the other.
pub fn valid(text: &[u8]) -> bool
    ensures { result ≡ utf8 text.now }
{
    is_utf8(text)
}
