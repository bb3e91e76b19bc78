use std::marker::Model;

/// A keyword as it stands in the file, in either case, which contracts see as the list of its bytes. It takes no memory of
/// its own.
#[derive(Drop)]
pub struct Keyword<'a> {
    text: &'a [u8],
}

impl<'a> Model for Keyword<'a> {
    ghost use Rattle.std.specs.Prelude.{List, ℕ, IsAscii};

    ghost Value = { List ℕ };

    ghost view = { λ k. k.text.now };

    ghost invariant = { λ k. IsAscii k.text.now };
}

impl<'a> Keyword<'a> {
    ghost use Rattle.std.specs.Prelude.{◌≡◌, IsAscii};

    pub fn new(text: &'a [u8]) -> Keyword<'a>
        requires { IsAscii text.now }
        ensures { result ≡ text.now }
    {
        Keyword { text }
    }

    pub fn as_str(&self) -> &'a str
        ensures { result.now ≡ self.now }
    {
        str::from_utf8(self.text).unwrap()
    }

    pub fn as_bytes(&self) -> &'a [u8]
        ensures { result.now ≡ self.now }
    {
        self.text
    }
}
