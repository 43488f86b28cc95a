//! Which class a token is of: functions that answer as the definitions say.

ghost use Rattle.std.specs.Prelude.{◌≡◌, MatchResult};
ghost use Rattle.std.specs.Fmt.{signed_decimal};
ghost use Rattle.script_grammar.specs.Grammar.{is_name};
ghost use Rattle.script_grammar.specs.Words as spec;
ghost use Rattle.script_grammar.specs.declared.stop.Stop.TheVariants.{Memory};

use crate::Form;
use crate::classes::{Head, Infix, Lead, Name, Prefix, Start, Tail};
use crate::stop::Stop;
use js_lexer::{CallWord, Kind, Mark, Reserved, Token, call_units};
use js_tree::{BinaryOperator, Expr, ExprNode, Literal, Sign, UnaryOperator};
use std::alloc::Global;
use turk_base::{Units, Whole};

/// Whether the two are one punctuator.
#[tactic(auto, unfolding(crate::specs::Words::same_mark))]
pub fn same_mark(a: Mark, b: Mark) -> bool
    ensures { result ≡ spec.same_mark a b }
{
    a == b
}

/// Whether the two are one word.
#[tactic(auto, unfolding(crate::specs::Words::same_word))]
pub fn same_word(a: Reserved, b: Reserved) -> bool
    ensures { result ≡ spec.same_word a b }
{
    a == b
}

/// Whether the token is this punctuator.
#[tactic(auto, unfolding(crate::specs::Words::is))]
pub fn is(mark: Mark, token: &Token) -> bool
    ensures { result ≡ spec.is mark token.now }
{
    match token.kind {
        Kind::Mark(other) => same_mark(mark, other),
        _ => false,
    }
}

/// Whether the token is this word.
#[tactic(auto, unfolding(crate::specs::Words::is_word))]
pub fn is_word(word: Reserved, token: &Token) -> bool
    ensures { result ≡ spec.is_word word token.now }
{
    match token.kind {
        Kind::Reserved(other) => same_word(word, other),
        _ => false,
    }
}

/// Whether the token is the end.
#[tactic(auto, unfolding(crate::specs::Words::is_end))]
pub fn is_end(token: &Token) -> bool
    ensures { result ≡ spec.is_end token.now }
{
    match token.kind {
        Kind::End => true,
        _ => false,
    }
}

/// Whether a semicolon may be left out before the token.
#[tactic(auto, unfolding(crate::specs::Words::closes))]
pub fn closes(token: &Token) -> bool
    ensures { result ≡ spec.closes token.now }
{
    is(Mark::CloseBrace, token) || is_end(token) || token.after_newline
}

/// Whether a list of statements ends before the token.
#[tactic(auto, unfolding(crate::specs::Words::stops))]
pub fn stops(token: &Token) -> bool
    ensures { result ≡ spec.stops token.now }
{
    match token.kind {
        Kind::Mark(Mark::CloseBrace) => true,
        Kind::Reserved(Reserved::Case) => true,
        Kind::Reserved(Reserved::Default) => true,
        Kind::End => true,
        _ => false,
    }
}

#[tactic(auto, unfolding(crate::specs::Words::start_of))]
pub fn start_of(kind: &Kind) -> Start
    ensures { result ≡ spec.start_of kind.now }
{
    match kind {
        Kind::Mark(Mark::OpenBrace) => Start::Block,
        Kind::Mark(Mark::Semicolon) => Start::Empty,
        Kind::Mark(Mark::OpenParen) => Start::Parenthesis,
        Kind::Reserved(Reserved::Var) => Start::Var,
        Kind::Reserved(Reserved::If) => Start::If,
        Kind::Reserved(Reserved::Do) => Start::Do,
        Kind::Reserved(Reserved::While) => Start::While,
        Kind::Reserved(Reserved::For) => Start::For,
        Kind::Reserved(Reserved::Continue) => Start::Continue,
        Kind::Reserved(Reserved::Break) => Start::Break,
        Kind::Reserved(Reserved::Return) => Start::Return,
        Kind::Reserved(Reserved::Throw) => Start::Throw,
        Kind::Reserved(Reserved::Switch) => Start::Switch,
        Kind::Reserved(Reserved::Try) => Start::Try,
        Kind::Reserved(Reserved::Function) => Start::Neither,
        Kind::Word(_) => Start::Identifier,
        _ => Start::Expression,
    }
}

#[tactic(auto, unfolding(crate::specs::Words::prefix_of))]
pub fn prefix_of(kind: &Kind) -> Prefix
    ensures { result ≡ spec.prefix_of kind.now }
{
    match kind {
        Kind::Reserved(Reserved::Delete) => Prefix::Delete,
        Kind::Reserved(Reserved::Void) => Prefix::Void,
        Kind::Reserved(Reserved::Typeof) => Prefix::Typeof,
        Kind::Mark(Mark::PlusPlus) => Prefix::Update(Sign::Plus),
        Kind::Mark(Mark::MinusMinus) => Prefix::Update(Sign::Minus),
        Kind::Mark(Mark::Plus) => Prefix::Signed(UnaryOperator::Plus),
        Kind::Mark(Mark::Minus) => Prefix::Signed(UnaryOperator::Minus),
        Kind::Mark(Mark::BitNot) => Prefix::Signed(UnaryOperator::BitNot),
        Kind::Mark(Mark::Not) => Prefix::Signed(UnaryOperator::Not),
        _ => Prefix::Neither,
    }
}

/// Whether the token is an operator before an operand.
#[tactic(auto, unfolding(crate::specs::Words::prefixed))]
pub fn prefixed(kind: &Kind) -> bool
    ensures { result ≡ spec.prefixed kind.now }
{
    match prefix_of(kind) {
        Prefix::Neither => false,
        Prefix::Delete => true,
        Prefix::Void => true,
        Prefix::Typeof => true,
        Prefix::Update(_) => true,
        Prefix::Signed(_) => true,
    }
}

/// What stands with the first token of an operand.
pub fn lead_of(head: Head) -> Lead
    ensures { result ≡ spec.lead_of head }
{
    match head {
        Head::Parenthesis => Lead::Open,
        Head::Identifier(Name::Out(form)) => Lead::Refused(Some(form)),
        Head::Identifier(Name::Other) => Lead::Refused(None),
        Head::RegExp => Lead::Refused(Some(Form::RegExp)),
        Head::Neither => Lead::Refused(None),
        _ => Lead::Node,
    }
}

#[tactic(auto, unfolding(crate::specs::Words::tail_of))]
pub fn tail_of(kind: &Kind) -> Tail
    ensures { result ≡ spec.tail_of kind.now }
{
    match kind {
        Kind::Mark(Mark::OpenBracket) => Tail::Computed,
        Kind::Mark(Mark::Dot) => Tail::Fixed,
        Kind::Mark(Mark::OpenParen) => Tail::Call,
        _ => Tail::Neither,
    }
}

#[tactic(auto, unfolding(crate::specs::Words::step_of))]
pub fn step_of(kind: &Kind) -> Option<Sign>
    ensures { result ≡ spec.step_of kind.now }
{
    match kind {
        Kind::Mark(Mark::PlusPlus) => Some(Sign::Plus),
        Kind::Mark(Mark::MinusMinus) => Some(Sign::Minus),
        _ => None,
    }
}

/// The left-out form that a name would be.
#[tactic(auto, unfolding(crate::specs::Words::forbidden))]
pub fn forbidden(alloc: Global, units: &Units) -> Result<Option<Form>, Stop>
    ensures { MatchResult result (λ form. form ≡ spec.forbidden units.now) (λ stop. stop ≡ Memory) }
{
    let eval = Units::from_slice(alloc, &[101, 118, 97, 108])?;
    if *units == eval {
        return Ok(Some(Form::Eval));
    }
    let arguments = Units::from_slice(alloc, &[97, 114, 103, 117, 109, 101, 110, 116, 115])?;
    if *units == arguments {
        return Ok(Some(Form::Arguments));
    }
    Ok(None)
}

/// The name that stands where one is due.
#[tactic(auto, unfolding(crate::specs::Words::name_of))]
pub fn name_of(alloc: Global, kind: &Kind) -> Result<Name, Stop>
    ensures { MatchResult result (λ name. name ≡ spec.name_of kind.now) (λ stop. stop ≡ Memory) }
{
    match kind {
        Kind::Word(units) => match forbidden(alloc, units)? {
            Some(form) => Ok(Name::Out(form)),
            None => Ok(Name::Named(units.copy(alloc)?)),
        },
        _ => Ok(Name::Other),
    }
}

/// The decimal text of a number.
fn number_text(alloc: Global, number: Whole) -> Result<Units, Stop>
    ensures { MatchResult result (λ units. units ≡ signed_decimal number) (λ stop. stop ≡ Memory) }
{
    let number = number.get();
    let text = format!(in alloc; "{number}")?;
    let mut units = Units::new(alloc);
    for byte in text.as_bytes() {
        units.push(u16::from(*byte))?;
    }
    Ok(units)
}

/// The key after a dot.
#[tactic(auto, unfolding(crate::specs::Words::key_of))]
pub fn key_of(alloc: Global, kind: &Kind) -> Result<Option<Units>, Stop>
    ensures { MatchResult result (λ key. key ≡ spec.key_of kind.now) (λ stop. stop ≡ Memory) }
{
    match kind {
        Kind::Word(units) => Ok(Some(units.copy(alloc)?)),
        Kind::Call(word) => Ok(Some(call_units(alloc, *word)?)),
        _ => Ok(None),
    }
}

/// The key of an object literal.
#[tactic(auto, unfolding(crate::specs::Words::literal_key_of))]
pub fn literal_key_of(alloc: Global, kind: &Kind) -> Result<Option<Units>, Stop>
    ensures { MatchResult result (λ key. key ≡ spec.literal_key_of kind.now) (λ stop. stop ≡ Memory) }
{
    match kind {
        Kind::Word(units) => Ok(Some(units.copy(alloc)?)),
        Kind::Call(word) => Ok(Some(call_units(alloc, *word)?)),
        Kind::Text(units) => Ok(Some(units.copy(alloc)?)),
        Kind::Number(number) => Ok(Some(number_text(alloc, *number)?)),
        _ => Ok(None),
    }
}

/// Whether the token is an identifier on the same line.
#[tactic(auto, unfolding(crate::specs::Words::labels))]
pub fn labels(token: &Token) -> bool
    ensures { result ≡ spec.labels token.now }
{
    match token.kind {
        Kind::Word(_) => !token.after_newline,
        _ => false,
    }
}

/// Whether the expression is one identifier.
pub fn is_name(expr: &Expr) -> bool
    ensures { result ≡ is_name expr.now }
{
    match expr.node() {
        ExprNode::Name(_) => true,
        _ => false,
    }
}

fn call_head(word: CallWord) -> Head
    ensures { result ≡ spec.call_head word }
{
    match word {
        CallWord::Print => Head::Many,
        CallWord::Join => Head::Zero(CallWord::Join),
        CallWord::Crash => Head::Zero(CallWord::Crash),
        CallWord::Once => Head::One(CallWord::Once),
        CallWord::Fork => Head::One(CallWord::Fork),
        CallWord::Post => Head::One(CallWord::Post),
        CallWord::Reply => Head::One(CallWord::Reply),
        CallWord::Prompt => Head::One(CallWord::Prompt),
        CallWord::Random => Head::One(CallWord::Random),
    }
}

/// What an operand is, by its first token.
#[tactic(auto, unfolding(crate::specs::Words::head_of, crate::specs::Words::name_of))]
pub fn head_of(alloc: Global, kind: &Kind) -> Result<Head, Stop>
    ensures { MatchResult result (λ head. head ≡ spec.head_of kind.now) (λ stop. stop ≡ Memory) }
{
    match kind {
        Kind::Reserved(Reserved::This) => Ok(Head::This),
        Kind::Reserved(Reserved::Null) => Ok(Head::Constant(Literal::Null)),
        Kind::Reserved(Reserved::True) => Ok(Head::Constant(Literal::Truth(true))),
        Kind::Reserved(Reserved::False) => Ok(Head::Constant(Literal::Truth(false))),
        Kind::Reserved(Reserved::Function) => Ok(Head::Function),
        Kind::Word(_) => Ok(Head::Identifier(name_of(alloc, kind)?)),
        Kind::Number(number) => Ok(Head::Constant(Literal::Number(*number))),
        Kind::Text(units) => Ok(Head::Constant(Literal::Text(units.copy(alloc)?))),
        Kind::Call(word) => Ok(call_head(*word)),
        Kind::Mark(Mark::OpenBracket) => Ok(Head::Array),
        Kind::Mark(Mark::OpenBrace) => Ok(Head::Object),
        Kind::Mark(Mark::OpenParen) => Ok(Head::Parenthesis),
        Kind::Mark(Mark::Slash) => Ok(Head::RegExp),
        Kind::Mark(Mark::AssignSlash) => Ok(Head::RegExp),
        _ => Ok(Head::Neither),
    }
}

/// The operator between two operands that a token is.
#[tactic(auto, unfolding(crate::specs::Words::infix_of))]
fn infix_of(kind: &Kind) -> Option<Infix>
    ensures { result ≡ spec.infix_of kind.now }
{
    match kind {
        Kind::Mark(Mark::Star) => Some(Infix::Plain(BinaryOperator::Multiply)),
        Kind::Mark(Mark::Slash) => Some(Infix::Plain(BinaryOperator::Divide)),
        Kind::Mark(Mark::Percent) => Some(Infix::Plain(BinaryOperator::Remainder)),
        Kind::Mark(Mark::Plus) => Some(Infix::Plain(BinaryOperator::Add)),
        Kind::Mark(Mark::Minus) => Some(Infix::Plain(BinaryOperator::Subtract)),
        Kind::Mark(Mark::ShiftLeft) => Some(Infix::Plain(BinaryOperator::ShiftLeft)),
        Kind::Mark(Mark::ShiftRight) => Some(Infix::Plain(BinaryOperator::ShiftRight)),
        Kind::Mark(Mark::ShiftRightZero) => Some(Infix::Plain(BinaryOperator::ShiftRightZero)),
        Kind::Mark(Mark::Less) => Some(Infix::Plain(BinaryOperator::Less)),
        Kind::Mark(Mark::Greater) => Some(Infix::Plain(BinaryOperator::Greater)),
        Kind::Mark(Mark::LessEqual) => Some(Infix::Plain(BinaryOperator::LessOrEqual)),
        Kind::Mark(Mark::GreaterEqual) => Some(Infix::Plain(BinaryOperator::GreaterOrEqual)),
        Kind::Mark(Mark::Equal) => Some(Infix::Plain(BinaryOperator::Equal)),
        Kind::Mark(Mark::NotEqual) => Some(Infix::Plain(BinaryOperator::NotEqual)),
        Kind::Mark(Mark::Same) => Some(Infix::Plain(BinaryOperator::Same)),
        Kind::Mark(Mark::NotSame) => Some(Infix::Plain(BinaryOperator::NotSame)),
        Kind::Mark(Mark::BitAnd) => Some(Infix::Plain(BinaryOperator::BitAnd)),
        Kind::Mark(Mark::BitXor) => Some(Infix::Plain(BinaryOperator::BitXor)),
        Kind::Mark(Mark::BitOr) => Some(Infix::Plain(BinaryOperator::BitOr)),
        Kind::Reserved(Reserved::Instanceof) => Some(Infix::Plain(BinaryOperator::InstanceOf)),
        Kind::Reserved(Reserved::In) => Some(Infix::Plain(BinaryOperator::In)),
        Kind::Mark(Mark::And) => Some(Infix::And),
        Kind::Mark(Mark::Or) => Some(Infix::Or),
        _ => None,
    }
}

/// How loosely an operator binds: from 1, the tightest, to 10.
#[tactic(auto, unfolding(crate::specs::Words::level_of))]
fn level_of(operator: Infix) -> u8
    ensures { result ≡ spec.level_of operator }
{
    match operator {
        Infix::Plain(BinaryOperator::Multiply) => 1,
        Infix::Plain(BinaryOperator::Divide) => 1,
        Infix::Plain(BinaryOperator::Remainder) => 1,
        Infix::Plain(BinaryOperator::Add) => 2,
        Infix::Plain(BinaryOperator::Subtract) => 2,
        Infix::Plain(BinaryOperator::ShiftLeft) => 3,
        Infix::Plain(BinaryOperator::ShiftRight) => 3,
        Infix::Plain(BinaryOperator::ShiftRightZero) => 3,
        Infix::Plain(BinaryOperator::Less) => 4,
        Infix::Plain(BinaryOperator::Greater) => 4,
        Infix::Plain(BinaryOperator::LessOrEqual) => 4,
        Infix::Plain(BinaryOperator::GreaterOrEqual) => 4,
        Infix::Plain(BinaryOperator::InstanceOf) => 4,
        Infix::Plain(BinaryOperator::In) => 4,
        Infix::Plain(BinaryOperator::Equal) => 5,
        Infix::Plain(BinaryOperator::NotEqual) => 5,
        Infix::Plain(BinaryOperator::Same) => 5,
        Infix::Plain(BinaryOperator::NotSame) => 5,
        Infix::Plain(BinaryOperator::BitAnd) => 6,
        Infix::Plain(BinaryOperator::BitXor) => 7,
        Infix::Plain(BinaryOperator::BitOr) => 8,
        Infix::And => 9,
        Infix::Or => 10,
    }
}

fn is_in(operator: Infix) -> bool
    ensures { result ≡ spec.is_in operator }
{
    match operator {
        Infix::Plain(BinaryOperator::In) => true,
        _ => false,
    }
}

/// The operator of a level that a token is; where `in` does not stand, it is none.
#[tactic(auto, unfolding(crate::specs::Words::infix_at))]
pub fn infix_at(no_in: bool, level: u8, token: &Token) -> Option<Infix>
    ensures { result ≡ spec.infix_at no_in level token.now }
{
    match infix_of(&token.kind) {
        Some(operator) => {
            if level_of(operator) == level && !(no_in && is_in(operator)) {
                Some(operator)
            } else {
                None
            }
        }
        None => None,
    }
}

/// An operator of assignment, with the operator that it applies or none.
#[tactic(auto, unfolding(crate::specs::Words::assign_of))]
pub fn assign_of(kind: &Kind) -> Option<Option<BinaryOperator>>
    ensures { result ≡ spec.assign_of kind.now }
{
    match kind {
        Kind::Mark(Mark::Assign) => Some(None),
        Kind::Mark(Mark::AssignPlus) => Some(Some(BinaryOperator::Add)),
        Kind::Mark(Mark::AssignMinus) => Some(Some(BinaryOperator::Subtract)),
        Kind::Mark(Mark::AssignStar) => Some(Some(BinaryOperator::Multiply)),
        Kind::Mark(Mark::AssignSlash) => Some(Some(BinaryOperator::Divide)),
        Kind::Mark(Mark::AssignPercent) => Some(Some(BinaryOperator::Remainder)),
        Kind::Mark(Mark::AssignShiftLeft) => Some(Some(BinaryOperator::ShiftLeft)),
        Kind::Mark(Mark::AssignShiftRight) => Some(Some(BinaryOperator::ShiftRight)),
        Kind::Mark(Mark::AssignShiftRightZero) => Some(Some(BinaryOperator::ShiftRightZero)),
        Kind::Mark(Mark::AssignAnd) => Some(Some(BinaryOperator::BitAnd)),
        Kind::Mark(Mark::AssignOr) => Some(Some(BinaryOperator::BitOr)),
        Kind::Mark(Mark::AssignXor) => Some(Some(BinaryOperator::BitXor)),
        _ => None,
    }
}
