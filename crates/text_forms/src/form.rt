//! Forms as values, so that what is made of several forms is proved once, for every language.

ghost use Rattle.std.specs.Prelude.{◌≡◌, ◌<◌, ℕ, Bool, OnOk};
ghost use Rattle.text_forms.specs.Forms as forms;
ghost use Rattle.text_forms.specs.Reads.{Reads, ReadsAs};

use plain_data::Failure;
use std::alloc::Global;

/// What forms read from: the tokens of a text that are left.
pub trait TokenSource {
    /// What a token is.
    type Kind: Copy;

    type Token: Drop;

    type Fault;

    /// How many tokens are left.
    ghost turns: { Self → ℕ };

    /// A token as a grammar sees it.
    ghost Seen: { Type 0 };

    ghost seen: { Self.Token → Seen };

    ghost sees: { Self.Kind → Self → Bool };

    ghost expect: { Self.Kind → forms.Form Self Self.Fault Seen };

    /// Whether the next token is of this kind.
    fn sees(&self, kind: Self::Kind) -> bool
        ensures { result ≡ sees kind self.now };

    /// Takes the next token, which has to be of this kind.
    fn expect(&mut self, kind: Self::Kind) -> Result<Self::Token, Failure<Self::Fault>>
        ensures reads { ReadsAs seen (expect kind self.old) result self.new }
        ensures takes { OnOk result (turns self.new < turns self.old) };
}

/// A form of a grammar that takes a token at least.
pub trait Form<S: TokenSource> {
    type Tree: Drop;

    ghost form: { Self → forms.Form S S.Fault Self.Tree };

    /// When it can be read.
    ghost can_read: { Self → Type 0 };

    fn read(&self, alloc: Global, source: &mut S) -> Result<Self::Tree, Failure<S::Fault>>
        requires { can_read self.now }
        ensures reads { Reads (form self.now source.old) result source.new }
        ensures takes { OnOk result (S.turns source.new < S.turns source.old) };
}

/// A form that the next tokens tell of.
pub trait Begins<S> {
    ghost begins: { Self → S → Bool };

    /// Whether the form begins here.
    fn begins(&self, source: &S) -> bool
        ensures { result ≡ begins self.now source.now };
}
