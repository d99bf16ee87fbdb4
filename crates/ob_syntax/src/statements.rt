//! Statements. A `u32` is the index of a symbol.

use crate::expressions::{Designator, Expression};
use crate::names::Qualident;

/// `BEGIN stats`
#[derive(Drop)]
pub struct Body {
    pub begin_word: u32,
    pub stats: Stats,
}

/// `stat {";" stat}`
#[derive(Drop)]
#[cycle(statements)]
pub struct Stats {
    pub first: Stat,
    pub more: Vec<NextStat>,
}

/// `";" stat`
#[derive(Drop)]
#[cycle(statements)]
pub struct NextStat {
    pub semicolon: u32,
    pub stat: Stat,
}

/// `[designator [":=" expression] | IF .. | CASE .. | WHILE .. | REPEAT .. | FOR ..]`
#[derive(Drop)]
#[cycle(statements)]
pub enum Stat {
    Empty,
    AssignOrCall(Box<AssignOrCall>),
    If(Box<IfStat>),
    Case(Box<CaseStat>),
    While(Box<WhileStat>),
    Repeat(Box<RepeatStat>),
    For(Box<ForStat>),
}

/// `designator [":=" expression]`
#[derive(Drop)]
pub struct AssignOrCall {
    pub designator: Designator,
    pub assigned: Option<Assigned>,
}

/// `":=" expression`
#[derive(Drop)]
pub struct Assigned {
    pub becomes: u32,
    pub value: Expression,
}

/// `IF expression THEN stats {ELSIF expression THEN stats} [ELSE stats] END`
#[derive(Drop)]
#[cycle(statements)]
pub struct IfStat {
    pub if_word: u32,
    pub guard: Expression,
    pub then_word: u32,
    pub body: Stats,
    pub elsifs: Vec<Elsif>,
    pub otherwise: Option<Else>,
    pub end_word: u32,
}

/// `ELSIF expression THEN stats`
#[derive(Drop)]
#[cycle(statements)]
pub struct Elsif {
    pub elsif_word: u32,
    pub guard: Expression,
    pub then_word: u32,
    pub body: Stats,
}

/// `ELSE stats`
#[derive(Drop)]
#[cycle(statements)]
pub struct Else {
    pub else_word: u32,
    pub body: Stats,
}

/// `CASE expression OF case {"|" case} END`
#[derive(Drop)]
#[cycle(statements)]
pub struct CaseStat {
    pub case_word: u32,
    pub selector: Expression,
    pub of_word: u32,
    pub first: Case,
    pub more: Vec<NextCase>,
    pub end_word: u32,
}

/// `"|" case`
#[derive(Drop)]
#[cycle(statements)]
pub struct NextCase {
    pub bar: u32,
    pub case: Case,
}

/// `[range {"," range} ":" stats]`
#[derive(Drop)]
#[cycle(statements)]
pub struct Case {
    pub part: Option<Box<CasePart>>,
}

/// `range {"," range} ":" stats`
#[derive(Drop)]
#[cycle(statements)]
pub struct CasePart {
    pub first: Range,
    pub more: Vec<NextRange>,
    pub colon: u32,
    pub body: Stats,
}

/// `"," range`
#[derive(Drop)]
pub struct NextRange {
    pub comma: u32,
    pub range: Range,
}

/// `label [".." label]`
#[derive(Drop)]
pub struct Range {
    pub low: Label,
    pub high: Option<High>,
}

/// `".." label`
#[derive(Drop)]
pub struct High {
    pub dots: u32,
    pub label: Label,
}

/// `integer | string | char | qualident`
#[derive(Drop)]
pub enum Label {
    Int(u32),
    Text(u32),
    Char(u32),
    Named(Qualident),
}

/// `WHILE expression DO stats {ELSIF expression DO stats} END`
#[derive(Drop)]
#[cycle(statements)]
pub struct WhileStat {
    pub while_word: u32,
    pub guard: Expression,
    pub do_word: u32,
    pub body: Stats,
    pub elsifs: Vec<ElsifDo>,
    pub end_word: u32,
}

/// `ELSIF expression DO stats`
#[derive(Drop)]
#[cycle(statements)]
pub struct ElsifDo {
    pub elsif_word: u32,
    pub guard: Expression,
    pub do_word: u32,
    pub body: Stats,
}

/// `REPEAT stats UNTIL expression`
#[derive(Drop)]
#[cycle(statements)]
pub struct RepeatStat {
    pub repeat_word: u32,
    pub body: Stats,
    pub until_word: u32,
    pub guard: Expression,
}

/// `FOR ident ":=" expression TO expression [BY expression] DO stats END`
#[derive(Drop)]
#[cycle(statements)]
pub struct ForStat {
    pub for_word: u32,
    pub variable: u32,
    pub becomes: u32,
    pub from: Expression,
    pub to_word: u32,
    pub to: Expression,
    pub by: Option<By>,
    pub do_word: u32,
    pub body: Stats,
    pub end_word: u32,
}

/// `BY expression`
#[derive(Drop)]
pub struct By {
    pub by_word: u32,
    pub step: Expression,
}
