//! The tokens by which partners are known.
ghost use Rattle.std.specs.Prelude.{◌≡◌, Some, None, IfOk, IfErr};
ghost use Rattle.std.specs.List.{list_all, list_any};
ghost use Rattle.std.specs.Str.{bytes_eq};
ghost use Rattle.rp_rows.specs.Names.{is_byte_of_name};
ghost use Rattle.http_routes.specs.Tokens.{is_token, stands_twice, token_fault, place_among};

use plain_data::Text;
use std::marker::Model;

/// The most bytes of a token.
const LONGEST: usize = 128;

/// What is wrong with a list of tokens.
#[derive(Clone, Copy, PartialEq, Eq)]
pub enum TokenFault {
    /// One isn't 1 to 128 letters, digits, underscores, full stops and hyphens.
    BadToken,
    /// One stands twice.
    TwoTokens,
}

/// Tokens in their order, none of them twice.
#[derive(Drop)]
pub struct Tokens {
    tokens: Vec<Text>,
}

impl Model for Tokens {
    ghost use Rattle.std.specs.Prelude.{List, ℕ};

    ghost Value = { List (List ℕ) };

    ghost view = { λ t. t.tokens.items };
}

impl Tokens {
    /// The tokens of these texts.
    ///
    /// # Errors
    ///
    /// `BadToken` where one is no token; else `TwoTokens` where one stands twice.
    pub fn new(texts: Vec<Text>) -> Result<Tokens, TokenFault>
        ensures ok { IfOk result (λ tokens. tokens ≡ texts.items) }
        ensures good { IfOk result (λ tokens. token_fault texts.items ≡ None) }
        ensures err { IfErr result (λ fault. token_fault texts.items ≡ Some fault) }
    {
        match fault_in(&texts) {
            Some(fault) => Err(fault),
            None => Ok(Tokens { tokens: texts }),
        }
    }

    /// Which of the tokens this is.
    pub fn place(&self, token: &[u8]) -> Option<usize>
        ensures { result ≡ place_among self.now token.now }
    {
        place_among(&self.tokens, token)
    }
}

fn is_token_byte(byte: u8) -> bool
    ensures { result ≡ is_byte_of_name byte }
{
    byte.is_ascii_alphanumeric() || byte == b'_' || byte == b'.' || byte == b'-'
}

fn has_token_bytes(bytes: &[u8]) -> bool
    ensures { result ≡ list_all is_byte_of_name bytes.now }
{
    bytes.iter().all(|byte| is_token_byte(*byte))
}

/// Whether these bytes may be a token.
pub fn is_token(bytes: &[u8]) -> bool
    ensures { result ≡ is_token bytes.now }
{
    1 <= bytes.len() && bytes.len() <= LONGEST && has_token_bytes(bytes)
}

fn are_tokens(texts: &[Text]) -> bool
    ensures { result ≡ list_all is_token texts.now }
{
    texts.iter().all(|text| is_token(text.as_bytes()))
}

/// What is wrong with the texts as tokens.
fn fault_in(texts: &[Text]) -> Option<TokenFault>
    ensures { result ≡ token_fault texts.now }
{
    if !are_tokens(texts) {
        Some(TokenFault::BadToken)
    } else if stands_twice(texts) {
        Some(TokenFault::TwoTokens)
    } else {
        None
    }
}

fn stands_among(token: &Text, others: &[Text]) -> bool
    ensures { result ≡ list_any (bytes_eq token.now) others.now }
{
    others.iter().any(|other| token.is(other))
}

fn stands_twice(tokens: &[Text]) -> bool
    ensures { result ≡ stands_twice tokens.now }
{
    for (at, token) in tokens.iter().enumerate() {
        if stands_among(token, &tokens[at + 1..]) {
            return true;
        }
    }
    false
}

fn place_among(tokens: &[Text], token: &[u8]) -> Option<usize>
    ensures { result ≡ place_among tokens.now token.now }
{
    for (at, other) in tokens.iter().enumerate() {
        if other.as_bytes() == token {
            return Some(at);
        }
    }
    None
}
