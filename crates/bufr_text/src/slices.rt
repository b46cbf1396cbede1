//! Functions that compare and split octet slices.
ghost use Rattle.std.specs.Prelude.{◌≡◌, ◌≤◌, length, take, drop};
ghost use Rattle.std.specs.Str.{bytes_eq};

/// Returns whether `text` is equal to `word`.
pub(crate) fn is(text: &[u8], word: &[u8]) -> bool
    ensures { result ≡ bytes_eq text.now word.now }
{
    text == word
}

/// Returns the octets of `text` before `index`.
pub(crate) fn prefix<'a>(text: &'a [u8], index: usize) -> &'a [u8]
    requires { index ≤ length text.now }
    ensures { result.now ≡ take index text.now }
{
    &text[..index]
}

/// Returns the octets of `text` from `index` to the end.
pub(crate) fn suffix<'a>(text: &'a [u8], index: usize) -> &'a [u8]
    requires { index ≤ length text.now }
    ensures { result.now ≡ drop index text.now }
{
    &text[index..]
}
