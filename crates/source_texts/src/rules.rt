//! Where a schema has a rule.
use ex_tree::{Token, TokenKind};

/// The clause of a declaration that has a rule.
#[derive(Clone, Copy, PartialEq, Eq)]
pub enum Clause {
    /// WHERE of a TYPE.
    Type,
    /// WHERE of an ENTITY.
    Entity,
    /// WHERE of a RULE.
    Rule,
    Unique,
    Inverse,
}

impl Clause {
    /// The word that begins the declaration.
    fn head(self) -> TokenKind {
        match self {
            Clause::Type => TokenKind::Type,
            Clause::Rule => TokenKind::Rule,
            Clause::Entity | Clause::Unique | Clause::Inverse => TokenKind::Entity,
        }
    }

    /// The word that begins the clause.
    fn word(self) -> TokenKind {
        match self {
            Clause::Type | Clause::Entity | Clause::Rule => TokenKind::Where,
            Clause::Unique => TokenKind::Unique,
            Clause::Inverse => TokenKind::Inverse,
        }
    }
}

/// Whether a token of this kind begins what stands behind a clause.
fn ends_clause(kind: TokenKind) -> bool {
    matches!(
        kind,
        TokenKind::Unique
            | TokenKind::Where
            | TokenKind::EndEntity
            | TokenKind::EndType
            | TokenKind::EndRule
    )
}

/// Whether a token is this name. Names ignore case.
fn is_name(token: Token<'_>, name: &str) -> bool {
    token.kind == TokenKind::Identifier && token.text.eq_ignore_ascii_case(name.as_bytes())
}

/// The tokens of a rule of a schema: of the clause of what is declared by this name, the one of this label; or where that is `#k`,
/// the k-th.
pub fn rule_of<'t, 's>(
    tokens: &'t [Token<'s>],
    clause: Clause,
    of: &str,
    rule: &str,
) -> Option<&'t [Token<'s>]> {
    statement_of(
        rules_of(declared(tokens, clause.head(), of)?, clause.word())?,
        rule,
    )
}

/// The tokens from the name on of what is declared by this word and name.
fn declared<'t, 's>(
    tokens: &'t [Token<'s>],
    head: TokenKind,
    name: &str,
) -> Option<&'t [Token<'s>]> {
    let mut before = TokenKind::Semicolon;
    for (at, token) in tokens.iter().enumerate() {
        if before == head && is_name(*token, name) {
            return tokens.get(at..);
        }
        before = token.kind;
    }
    None
}

/// The tokens behind the word of a clause, which stands at the beginning of a statement: UNIQUE in a type begins none.
fn rules_of<'t, 's>(tokens: &'t [Token<'s>], word: TokenKind) -> Option<&'t [Token<'s>]> {
    let mut before = TokenKind::Identifier;
    for (at, token) in tokens.iter().enumerate() {
        if before == TokenKind::Semicolon && token.kind == word {
            return tokens.get(at.saturating_add(1)..);
        }
        before = token.kind;
    }
    None
}

/// The statement of this label among those that come first, or the k-th for `#k`.
fn statement_of<'t, 's>(tokens: &'t [Token<'s>], rule: &str) -> Option<&'t [Token<'s>]> {
    let mut number = 0usize;
    let mut begin = 0usize;
    for (at, token) in tokens.iter().enumerate() {
        if at == begin && ends_clause(token.kind) {
            return None;
        }
        if token.kind == TokenKind::Semicolon {
            number = number.saturating_add(1);
            let statement = tokens.get(begin..at)?;
            if is_rule(statement, rule, number) {
                return Some(statement);
            }
            begin = at.saturating_add(1);
        }
    }
    None
}

/// Whether a statement is the rule of this label; of `#k`, whether it is the k-th.
fn is_rule(statement: &[Token<'_>], rule: &str, number: usize) -> bool {
    match rule.as_bytes() {
        [b'#', digits @ ..] => number_of(digits) == number,
        _ => match statement {
            [label, colon, ..] => colon.kind == TokenKind::Colon && is_name(*label, rule),
            _ => false,
        },
    }
}

fn number_of(digits: &[u8]) -> usize {
    let mut number = 0usize;
    for digit in digits {
        let digit = usize::from(digit.saturating_sub(b'0'));
        number = number.saturating_mul(10).saturating_add(digit);
    }
    number
}
