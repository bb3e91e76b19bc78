/// What a token is: an identifier, a literal, a symbol, or a reserved word.
#[derive(Clone, Copy, PartialEq, Eq)]
pub enum TokenKind {
    /// `simple_id`: a word that isn't reserved.
    Identifier,
    IntegerLiteral,
    RealLiteral,
    /// In apostrophes.
    SimpleStringLiteral,
    /// In double quotes.
    EncodedStringLiteral,
    BinaryLiteral,
    /// `:<>:`
    InstanceNotEqual,
    /// `:=:`
    InstanceEqual,
    /// `:=`
    Becomes,
    /// `<=`
    LessEqual,
    /// `<>`
    NotEqual,
    /// `<*`
    QuerySource,
    /// `>=`
    GreaterEqual,
    /// `**`
    Power,
    /// `||`
    Concatenate,
    /// `.`
    Point,
    /// `,`
    Comma,
    /// `;`
    Semicolon,
    /// `:`
    Colon,
    /// `*`
    Star,
    /// `+`
    Plus,
    /// `-`
    Minus,
    /// `=`
    Equals,
    /// `\`
    Backslash,
    /// `/`
    Slash,
    /// `<`
    Less,
    /// `>`
    Greater,
    /// `[`
    OpenBracket,
    /// `]`
    CloseBracket,
    /// `{`
    OpenBrace,
    /// `}`
    CloseBrace,
    /// `|`
    Bar,
    /// `(`
    OpenParenthesis,
    /// `)`
    CloseParenthesis,
    /// `?`
    QuestionMark,
    Abstract,
    Aggregate,
    And,
    AndOr,
    Array,
    Bag,
    Begin,
    Binary,
    Boolean,
    By,
    Case,
    Constant,
    Derive,
    Div,
    Else,
    End,
    EndCase,
    EndConstant,
    EndEntity,
    EndFunction,
    EndIf,
    EndLocal,
    EndRepeat,
    EndRule,
    EndSchema,
    EndType,
    Entity,
    Enumeration,
    Escape,
    False,
    Fixed,
    For,
    Function,
    Generic,
    If,
    In,
    Integer,
    Inverse,
    List,
    Local,
    Logical,
    Mod,
    Not,
    Number,
    Of,
    OneOf,
    Optional,
    Or,
    Otherwise,
    Query,
    Real,
    Repeat,
    Return,
    Rule,
    Schema,
    Select,
    Itself,
    Set,
    Skip,
    String,
    Subtype,
    Supertype,
    Then,
    To,
    True,
    Type,
    Unique,
    Unknown,
    Until,
    Where,
    While,
    Xor,
    Abs,
    BLength,
    Exists,
    HiIndex,
    Length,
    LoIndex,
    Nvl,
    Odd,
    SizeOf,
    TypeOf,
    UsedIn,
    ValueIn,
    Acos,
    Alias,
    Asin,
    Atan,
    ConstE,
    Cos,
    Exp,
    Format,
    HiBound,
    Insert,
    Like,
    LoBound,
    Log,
    Log10,
    Log2,
    Pi,
    Procedure,
    Reference,
    Remove,
    RolesOf,
    Sin,
    Sqrt,
    Tan,
    Use,
    Value,
    ValueUnique,
    /// No token: the end of the text.
    Finish,
}
