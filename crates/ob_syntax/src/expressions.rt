//! Expressions and designators. A `u32` is the index of a symbol.

/// `ident {"." ident | "[" list "]" | "^" | "(" [list] ")"}`
#[derive(Drop)]
#[cycle(expressions)]
pub struct Designator {
    pub name: u32,
    pub selectors: Vec<Selector>,
}

/// `"." ident | "[" list "]" | "^" | "(" [list] ")"`
#[derive(Drop)]
#[cycle(expressions)]
pub enum Selector {
    Field {
        period: u32,
        name: u32,
    },
    Index {
        left_bracket: u32,
        list: List,
        right_bracket: u32,
    },
    Arrow(u32),
    /// The arguments of a call, or a type guard.
    Parens {
        left_paren: u32,
        list: Option<List>,
        right_paren: u32,
    },
}

/// `expression {"," expression}`
#[derive(Drop)]
#[cycle(expressions)]
pub struct List {
    pub first: Expression,
    pub more: Vec<NextExpression>,
}

/// `"," expression`
#[derive(Drop)]
#[cycle(expressions)]
pub struct NextExpression {
    pub comma: u32,
    pub expression: Expression,
}

/// `simple [("=" | "#" | "<" | "<=" | ">" | ">=" | IN | IS) simple]`
#[derive(Drop)]
#[cycle(expressions)]
pub struct Expression {
    pub left: Simple,
    pub compared: Option<Box<Compared>>,
}

/// `("=" | "#" | "<" | "<=" | ">" | ">=" | IN | IS) simple`
#[derive(Drop)]
#[cycle(expressions)]
pub struct Compared {
    pub relation: Relation,
    pub right: Simple,
}

/// `"=" | "#" | "<" | "<=" | ">" | ">=" | IN | IS`
#[derive(Drop)]
pub enum Relation {
    Equal(u32),
    NotEqual(u32),
    Less(u32),
    LessEqual(u32),
    Greater(u32),
    GreaterEqual(u32),
    In(u32),
    Is(u32),
}

/// `["+" | "-"] term {("+" | "-" | OR) term}`
#[derive(Drop)]
#[cycle(expressions)]
pub struct Simple {
    pub sign: Option<Sign>,
    pub first: Term,
    pub more: Vec<Added>,
}

/// `"+" | "-"`
#[derive(Drop)]
pub enum Sign {
    Plus(u32),
    Minus(u32),
}

/// `("+" | "-" | OR) term`
#[derive(Drop)]
#[cycle(expressions)]
pub struct Added {
    pub operator: AddOperator,
    pub term: Term,
}

/// `"+" | "-" | OR`
#[derive(Drop)]
pub enum AddOperator {
    Plus(u32),
    Minus(u32),
    Or(u32),
}

/// `factor {("*" | "/" | DIV | MOD | "&") factor}`
#[derive(Drop)]
#[cycle(expressions)]
pub struct Term {
    pub first: Factor,
    pub more: Vec<Multiplied>,
}

/// `("*" | "/" | DIV | MOD | "&") factor`
#[derive(Drop)]
#[cycle(expressions)]
pub struct Multiplied {
    pub operator: MulOperator,
    pub factor: Factor,
}

/// `"*" | "/" | DIV | MOD | "&"`
#[derive(Drop)]
pub enum MulOperator {
    Times(u32),
    Slash(u32),
    Div(u32),
    Mod(u32),
    And(u32),
}

/// `integer | string | char | NIL | TRUE | FALSE | set | designator | "(" expression ")" | "~" factor`
#[derive(Drop)]
#[cycle(expressions)]
pub enum Factor {
    Int(u32),
    Text(u32),
    Char(u32),
    Nil(u32),
    True(u32),
    False(u32),
    Set(Box<Set>),
    Designator(Designator),
    Paren {
        left_paren: u32,
        expression: Box<Expression>,
        right_paren: u32,
    },
    Not {
        tilde: u32,
        factor: Box<Factor>,
    },
}

/// `"{" [element {"," element}] "}"`
#[derive(Drop)]
#[cycle(expressions)]
pub struct Set {
    pub left_brace: u32,
    pub elements: Option<Elements>,
    pub right_brace: u32,
}

/// `element {"," element}`
#[derive(Drop)]
#[cycle(expressions)]
pub struct Elements {
    pub first: Element,
    pub more: Vec<NextElement>,
}

/// `"," element`
#[derive(Drop)]
#[cycle(expressions)]
pub struct NextElement {
    pub comma: u32,
    pub element: Element,
}

/// `expression [".." expression]`
#[derive(Drop)]
#[cycle(expressions)]
pub struct Element {
    pub low: Expression,
    pub high: Option<ElementHigh>,
}

/// `".." expression`
#[derive(Drop)]
#[cycle(expressions)]
pub struct ElementHigh {
    pub dots: u32,
    pub expression: Expression,
}
