ghost use Rattle.std.specs.Prelude.{◌≡◌, ◌≢◌, ◌≤◌, MatchOption};
ghost use Rattle.syntax_grammar.specs.Expressions.{symbol_of, unary_symbol, level_of, left_level};
ghost use Rattle.syntax_grammar.specs.Words.{op_at};
ghost use Rattle.syntax_tokens.specs.declared.terminal.Terminal.TheVariants as Terminal;
ghost use Rattle.syntax_tree.specs.declared.expr.InfixOp.{InfixOp};
ghost use Rattle.lang_base.specs.declared.op.UnaryOp.{UnaryOp};

use lang_base::{BinaryOp, LogicOp, UnaryOp};
use syntax_tokens::Symbol;
use syntax_tree::InfixOp;

/// The loosest binding of two expressions, that of `||`.
pub const LOOSEST: u32 = 0;

/// The binding of the comparisons, of which a level has at most one.
const COMPARING: u32 = 3;

/// The tightest binding, that of `*`.
pub const TIGHTEST: u32 = 5;

/// The operator between two expressions that a symbol is.
#[tactic(auto, using(syntax_grammar::proofs::Ops::no_infix))]
pub fn infix_of(symbol: Symbol) -> Option<InfixOp>
    ensures which { MatchOption result ((op : InfixOp) → symbol ≢ symbol_of op) (λ op. symbol ≡ symbol_of op) }
    ensures at { result ≡ op_at (Terminal.Symbol symbol) }
{
    match symbol {
        Symbol::Or => Some(InfixOp::Logic(LogicOp::Or)),
        Symbol::And => Some(InfixOp::Logic(LogicOp::And)),
        Symbol::Equal => Some(InfixOp::Binary(BinaryOp::Equal)),
        Symbol::NotEqual => Some(InfixOp::Binary(BinaryOp::NotEqual)),
        Symbol::Less => Some(InfixOp::Binary(BinaryOp::Less)),
        Symbol::AtMost => Some(InfixOp::Binary(BinaryOp::AtMost)),
        Symbol::Greater => Some(InfixOp::Binary(BinaryOp::Greater)),
        Symbol::AtLeast => Some(InfixOp::Binary(BinaryOp::AtLeast)),
        Symbol::Plus => Some(InfixOp::Binary(BinaryOp::Add)),
        Symbol::Minus => Some(InfixOp::Binary(BinaryOp::Subtract)),
        Symbol::Star => Some(InfixOp::Binary(BinaryOp::Multiply)),
        Symbol::Slash => Some(InfixOp::Binary(BinaryOp::Divide)),
        Symbol::Percent => Some(InfixOp::Binary(BinaryOp::Remainder)),
        _ => None,
    }
}

/// The operator before an expression that a symbol is.
#[tactic(auto, using(syntax_grammar::proofs::Ops::no_unary))]
pub fn unary_of(symbol: Symbol) -> Option<UnaryOp>
    ensures { MatchOption result ((op : UnaryOp) → symbol ≢ unary_symbol op) (λ op. symbol ≡ unary_symbol op) }
{
    match symbol {
        Symbol::Minus => Some(UnaryOp::Negate),
        Symbol::Not => Some(UnaryOp::Not),
        _ => None,
    }
}

/// How tightly an operator binds.
#[tactic(auto, using(syntax_grammar::proofs::Ops::level_low))]
pub fn binding(op: InfixOp) -> u32
    ensures level { result ≡ level_of op }
    ensures within { result ≤ TIGHTEST }
{
    match op {
        InfixOp::Logic(op) => op.level(),
        InfixOp::Binary(op) => op.level(),
    }
}

/// The tightest binding that an operator after this one may have: those of one binding group to the left, and a
/// comparison has no other one after it.
#[tactic(auto, using(syntax_grammar::proofs::Ops::left_after, syntax_grammar::proofs::Ops::left_after_comparison, syntax_grammar::proofs::Ops::own_after, syntax_grammar::proofs::Ops::own_after_comparison))]
pub fn tightest_after(op: InfixOp) -> u32
    ensures left { (next : InfixOp) → level_of next ≤ result → left_level next ≤ level_of op }
    ensures own { (next : InfixOp) → left_level next ≤ level_of op → level_of next ≤ result }
    ensures within { result ≤ TIGHTEST }
{
    if binding(op) == COMPARING {
        COMPARING - 1
    } else {
        binding(op)
    }
}
