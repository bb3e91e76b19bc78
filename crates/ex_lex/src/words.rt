//! The reserved words.

ghost use Rattle.std.specs.Prelude.{◌≡◌, ◌≤◌, ◌-◌, length, map, take, drop, slice_index, true};
ghost use Rattle.std.specs.Char.{is_ascii_alphabetic, to_ascii_lowercase};
ghost use Rattle.std.specs.Str.{str_eq_ignore_ascii_case};
ghost use Rattle.ex_lex.specs.Words as spec;

use ex_tree::TokenKind;

/// In alphabetical order.
static WORDS: [(&[u8], TokenKind); 110] = [
    (b"ABS", TokenKind::Abs),
    (b"ABSTRACT", TokenKind::Abstract),
    (b"ACOS", TokenKind::Acos),
    (b"AGGREGATE", TokenKind::Aggregate),
    (b"ALIAS", TokenKind::Alias),
    (b"AND", TokenKind::And),
    (b"ANDOR", TokenKind::AndOr),
    (b"ARRAY", TokenKind::Array),
    (b"ASIN", TokenKind::Asin),
    (b"ATAN", TokenKind::Atan),
    (b"BAG", TokenKind::Bag),
    (b"BEGIN", TokenKind::Begin),
    (b"BINARY", TokenKind::Binary),
    (b"BLENGTH", TokenKind::BLength),
    (b"BOOLEAN", TokenKind::Boolean),
    (b"BY", TokenKind::By),
    (b"CASE", TokenKind::Case),
    (b"CONSTANT", TokenKind::Constant),
    (b"CONST_E", TokenKind::ConstE),
    (b"COS", TokenKind::Cos),
    (b"DERIVE", TokenKind::Derive),
    (b"DIV", TokenKind::Div),
    (b"ELSE", TokenKind::Else),
    (b"END", TokenKind::End),
    (b"END_CASE", TokenKind::EndCase),
    (b"END_CONSTANT", TokenKind::EndConstant),
    (b"END_ENTITY", TokenKind::EndEntity),
    (b"END_FUNCTION", TokenKind::EndFunction),
    (b"END_IF", TokenKind::EndIf),
    (b"END_LOCAL", TokenKind::EndLocal),
    (b"END_REPEAT", TokenKind::EndRepeat),
    (b"END_RULE", TokenKind::EndRule),
    (b"END_SCHEMA", TokenKind::EndSchema),
    (b"END_TYPE", TokenKind::EndType),
    (b"ENTITY", TokenKind::Entity),
    (b"ENUMERATION", TokenKind::Enumeration),
    (b"ESCAPE", TokenKind::Escape),
    (b"EXISTS", TokenKind::Exists),
    (b"EXP", TokenKind::Exp),
    (b"FALSE", TokenKind::False),
    (b"FIXED", TokenKind::Fixed),
    (b"FOR", TokenKind::For),
    (b"FORMAT", TokenKind::Format),
    (b"FUNCTION", TokenKind::Function),
    (b"GENERIC", TokenKind::Generic),
    (b"HIBOUND", TokenKind::HiBound),
    (b"HIINDEX", TokenKind::HiIndex),
    (b"IF", TokenKind::If),
    (b"IN", TokenKind::In),
    (b"INSERT", TokenKind::Insert),
    (b"INTEGER", TokenKind::Integer),
    (b"INVERSE", TokenKind::Inverse),
    (b"LENGTH", TokenKind::Length),
    (b"LIKE", TokenKind::Like),
    (b"LIST", TokenKind::List),
    (b"LOBOUND", TokenKind::LoBound),
    (b"LOCAL", TokenKind::Local),
    (b"LOG", TokenKind::Log),
    (b"LOG10", TokenKind::Log10),
    (b"LOG2", TokenKind::Log2),
    (b"LOGICAL", TokenKind::Logical),
    (b"LOINDEX", TokenKind::LoIndex),
    (b"MOD", TokenKind::Mod),
    (b"NOT", TokenKind::Not),
    (b"NUMBER", TokenKind::Number),
    (b"NVL", TokenKind::Nvl),
    (b"ODD", TokenKind::Odd),
    (b"OF", TokenKind::Of),
    (b"ONEOF", TokenKind::OneOf),
    (b"OPTIONAL", TokenKind::Optional),
    (b"OR", TokenKind::Or),
    (b"OTHERWISE", TokenKind::Otherwise),
    (b"PI", TokenKind::Pi),
    (b"PROCEDURE", TokenKind::Procedure),
    (b"QUERY", TokenKind::Query),
    (b"REAL", TokenKind::Real),
    (b"REFERENCE", TokenKind::Reference),
    (b"REMOVE", TokenKind::Remove),
    (b"REPEAT", TokenKind::Repeat),
    (b"RETURN", TokenKind::Return),
    (b"ROLESOF", TokenKind::RolesOf),
    (b"RULE", TokenKind::Rule),
    (b"SCHEMA", TokenKind::Schema),
    (b"SELECT", TokenKind::Select),
    (b"SELF", TokenKind::Itself),
    (b"SET", TokenKind::Set),
    (b"SIN", TokenKind::Sin),
    (b"SIZEOF", TokenKind::SizeOf),
    (b"SKIP", TokenKind::Skip),
    (b"SQRT", TokenKind::Sqrt),
    (b"STRING", TokenKind::String),
    (b"SUBTYPE", TokenKind::Subtype),
    (b"SUPERTYPE", TokenKind::Supertype),
    (b"TAN", TokenKind::Tan),
    (b"THEN", TokenKind::Then),
    (b"TO", TokenKind::To),
    (b"TRUE", TokenKind::True),
    (b"TYPE", TokenKind::Type),
    (b"TYPEOF", TokenKind::TypeOf),
    (b"UNIQUE", TokenKind::Unique),
    (b"UNKNOWN", TokenKind::Unknown),
    (b"UNTIL", TokenKind::Until),
    (b"USE", TokenKind::Use),
    (b"USEDIN", TokenKind::UsedIn),
    (b"VALUE", TokenKind::Value),
    (b"VALUE_IN", TokenKind::ValueIn),
    (b"VALUE_UNIQUE", TokenKind::ValueUnique),
    (b"WHERE", TokenKind::Where),
    (b"WHILE", TokenKind::While),
    (b"XOR", TokenKind::Xor),
];

/// How many words begin with an earlier letter, for each letter from A on; and how many words there are.
static STARTS: [usize; 27] = [
    0, 10, 16, 20, 22, 39, 44, 45, 47, 52, 52, 52, 62, 63, 66, 72, 74, 75, 82, 93, 99, 104, 107,
    109, 110, 110, 110,
];

// Each byte in lower case stands at its own place. A table is read faster than a choice among bytes.
static LOWER_CASE: [u8; 256] = [
    0, 1, 2, 3, 4, 5, 6, 7, 8, 9, 10, 11, 12, 13, 14, 15, 16, 17, 18, 19, 20, 21, 22, 23, 24, 25,
    26, 27, 28, 29, 30, 31, 32, 33, 34, 35, 36, 37, 38, 39, 40, 41, 42, 43, 44, 45, 46, 47, 48, 49,
    50, 51, 52, 53, 54, 55, 56, 57, 58, 59, 60, 61, 62, 63, 64, 97, 98, 99, 100, 101, 102, 103,
    104, 105, 106, 107, 108, 109, 110, 111, 112, 113, 114, 115, 116, 117, 118, 119, 120, 121, 122,
    91, 92, 93, 94, 95, 96, 97, 98, 99, 100, 101, 102, 103, 104, 105, 106, 107, 108, 109, 110, 111,
    112, 113, 114, 115, 116, 117, 118, 119, 120, 121, 122, 123, 124, 125, 126, 127, 128, 129, 130,
    131, 132, 133, 134, 135, 136, 137, 138, 139, 140, 141, 142, 143, 144, 145, 146, 147, 148, 149,
    150, 151, 152, 153, 154, 155, 156, 157, 158, 159, 160, 161, 162, 163, 164, 165, 166, 167, 168,
    169, 170, 171, 172, 173, 174, 175, 176, 177, 178, 179, 180, 181, 182, 183, 184, 185, 186, 187,
    188, 189, 190, 191, 192, 193, 194, 195, 196, 197, 198, 199, 200, 201, 202, 203, 204, 205, 206,
    207, 208, 209, 210, 211, 212, 213, 214, 215, 216, 217, 218, 219, 220, 221, 222, 223, 224, 225,
    226, 227, 228, 229, 230, 231, 232, 233, 234, 235, 236, 237, 238, 239, 240, 241, 242, 243, 244,
    245, 246, 247, 248, 249, 250, 251, 252, 253, 254, 255,
];

fn in_lower_case(b: u8) -> u8
    ensures { result ≡ to_ascii_lowercase b }
{
    LOWER_CASE[usize::from(b)]
}

fn is_same(a: &[u8], b: &[u8]) -> bool
    ensures { result ≡ str_eq_ignore_ascii_case a.now b.now }
{
    if a.len() != b.len() {
        return false;
    }
    let mut left = a;
    let mut others = b;
    'bytes: while let ([x, rest @ ..], [y, more @ ..]) = (left, others) {
        if in_lower_case(*x) != in_lower_case(*y) {
            return false;
        }
        left = rest;
        others = more;
    }
    true
}

fn kind_in(mut rows: &[(&[u8], TokenKind)], word: &[u8]) -> TokenKind
    ensures { result ≡ spec.kind_in (map (λ row. (row.0.now, row.1)) rows.entry.now) word.now }
{
    'rows: while let [row, rest @ ..] = rows {
        if is_same(row.0, word) {
            return row.1;
        }
        rows = rest;
    }
    TokenKind::Identifier
}

/// Where the words of a letter begin, which is counted from 0 for A.
fn start(letter: usize) -> usize
    requires { letter ≤ 26 }
    ensures { result ≡ slice_index STARTS letter }
{
    STARTS[letter]
}

/// The kind of the word among these rows, from one place up to another.
fn kind_between(rows: &[(&[u8], TokenKind)], from: usize, to: usize, word: &[u8]) -> TokenKind
    requires ordered { from ≤ to }
    requires within { to ≤ length rows.now }
    ensures { result ≡ spec.kind_in (take (to - from) (drop from (map (λ row. (row.0.now, row.1)) rows.now))) word.now }
{
    kind_in(&rows[from..to], word)
}

/// The kind of a word that begins with a letter.
pub fn word_kind(word: &[u8]) -> TokenKind
    requires { is_ascii_alphabetic (slice_index word.now 0) ≡ true }
    ensures { result ≡ spec.kind_of word.now }
{
    let letter = usize::from(word[0].to_ascii_lowercase() - b'a');
    let from = start(letter);
    let to = start(letter + 1);
    kind_between(&WORDS, from, to, word)
}
