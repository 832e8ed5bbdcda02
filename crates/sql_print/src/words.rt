//! The tokens of operators, tests and other words that a tree holds.
ghost use Rattle.std.specs.Prelude.{◌≡◌, ◌∷◌, [], OnOk};
ghost use Rattle.sql_ast.specs.Canon as canon;
ghost use Rattle.sql_ast.specs.Pieces as pieces;
ghost use Rattle.sql_print.specs.Pages as pages;

use crate::writer::Writer;
use sql_ast::{
    Comparison, CubeKind, IndexForm, IsTest, JoinWord, NullsPart, NullsPlace, Operator, Quantifier,
    Reserved, Sign, Signed, Word,
};
use std::alloc::AllocError;

/// An operator of a chain. `>>` is two tokens with nothing between.
pub fn print_operator(writer: &mut Writer, operator: Operator) -> Result<(), AllocError>
    ensures { OnOk result (writer.new ≡ pages.written writer.old (canon.operator_pieces operator)) }
{
    match operator {
        Operator::Or => writer.word(Reserved::Or),
        Operator::And => writer.word(Reserved::And),
        Operator::BitOr => writer.sign(Sign::Bar),
        Operator::BitXor => writer.sign(Sign::Caret),
        Operator::BitAnd => writer.sign(Sign::Ampersand),
        Operator::ShiftLeft => writer.sign(Sign::LessLess),
        Operator::ShiftRight => {
            writer.mark(Sign::Greater, true, false)?;
            writer.mark(Sign::Greater, false, true)
        }
        Operator::Add => writer.sign(Sign::Plus),
        Operator::Subtract => writer.sign(Sign::Minus),
        Operator::Multiply => writer.sign(Sign::Star),
        Operator::Concat => writer.sign(Sign::BarBar),
    }
}

/// A prefix operator.
pub fn print_prefix(writer: &mut Writer, operator: Signed) -> Result<(), AllocError>
    ensures { OnOk result (writer.new ≡ pages.after writer.old (canon.prefix_piece operator)) }
{
    match operator {
        Signed::Plus => writer.sign(Sign::Plus),
        Signed::Minus => writer.sign(Sign::Minus),
        Signed::Flip => writer.sign(Sign::Tilde),
    }
}

/// A comparison. `!=` stands for `<>`.
pub fn print_comparison(writer: &mut Writer, operator: Comparison) -> Result<(), AllocError>
    ensures { OnOk result (writer.new ≡ pages.after writer.old (canon.comparison_piece operator)) }
{
    match operator {
        Comparison::Equal => writer.sign(Sign::Equal),
        Comparison::NotEqual => writer.sign(Sign::BangEqual),
        Comparison::Less => writer.sign(Sign::Less),
        Comparison::LessEqual => writer.sign(Sign::LessEqual),
        Comparison::Greater => writer.sign(Sign::Greater),
        Comparison::GreaterEqual => writer.sign(Sign::GreaterEqual),
    }
}

/// ANY, SOME or ALL.
pub fn print_quantifier(writer: &mut Writer, quantifier: Quantifier) -> Result<(), AllocError>
    ensures { OnOk result (writer.new ≡ pages.after writer.old (canon.quantifier_piece quantifier)) }
{
    match quantifier {
        Quantifier::Any => writer.word(Reserved::Any),
        Quantifier::Some => writer.word(Reserved::Some),
        Quantifier::All => writer.word(Reserved::All),
    }
}

/// NULL, TRUE or FALSE behind IS.
pub fn print_test(writer: &mut Writer, test: IsTest) -> Result<(), AllocError>
    ensures { OnOk result (writer.new ≡ pages.after writer.old (canon.test_piece test)) }
{
    match test {
        IsTest::Null => writer.word(Reserved::Null),
        IsTest::True => writer.word(Reserved::True),
        IsTest::False => writer.word(Reserved::False),
    }
}

/// The form of a subscript.
pub fn print_form(writer: &mut Writer, form: IndexForm) -> Result<(), AllocError>
    ensures { OnOk result (writer.new ≡ pages.after writer.old (canon.form_piece form)) }
{
    match form {
        IndexForm::Offset => writer.read_word(Word::Offset),
        IndexForm::Ordinal => writer.read_word(Word::Ordinal),
        IndexForm::SafeOffset => writer.read_word(Word::SafeOffset),
        IndexForm::SafeOrdinal => writer.read_word(Word::SafeOrdinal),
    }
}

/// A word where it is written.
pub fn print_word_if(writer: &mut Writer, holds: bool, word: Reserved) -> Result<(), AllocError>
    ensures { OnOk result (writer.new ≡ pages.written writer.old (pieces.if_so holds (pieces.word word ∷ []))) }
{
    if holds { writer.word(word) } else { Ok(()) }
}

/// NULLS FIRST or NULLS LAST, where it is written.
pub fn print_nulls_place(writer: &mut Writer, nulls: Option<NullsPlace>) -> Result<(), AllocError>
    ensures { OnOk result (writer.new ≡ pages.written writer.old (pieces.if_there canon.nulls_place_pieces nulls)) }
{
    match nulls {
        None => Ok(()),
        Some(NullsPlace::First) => {
            writer.word(Reserved::Nulls)?;
            writer.read_word(Word::First)
        }
        Some(NullsPlace::Last) => {
            writer.word(Reserved::Nulls)?;
            writer.read_word(Word::Last)
        }
    }
}

/// IGNORE NULLS or RESPECT NULLS, where it is written.
pub fn print_nulls_part(writer: &mut Writer, nulls: Option<NullsPart>) -> Result<(), AllocError>
    ensures { OnOk result (writer.new ≡ pages.written writer.old (pieces.if_there canon.nulls_part_pieces nulls)) }
{
    match nulls {
        None => Ok(()),
        Some(NullsPart::Ignore) => {
            writer.word(Reserved::Ignore)?;
            writer.word(Reserved::Nulls)
        }
        Some(NullsPart::Respect) => {
            writer.word(Reserved::Respect)?;
            writer.word(Reserved::Nulls)
        }
    }
}

/// LIMIT of a call, where it is written.
pub fn print_call_limit(writer: &mut Writer, limit: Option<u64>) -> Result<(), AllocError>
    ensures { OnOk result (writer.new ≡ pages.written writer.old (canon.call_limit limit)) }
{
    match limit {
        None => Ok(()),
        Some(count) => {
            writer.word(Reserved::Limit)?;
            writer.integer(count)
        }
    }
}

/// A comma, or the words of a join. INNER and OUTER leave nothing.
pub fn print_join(writer: &mut Writer, word: JoinWord) -> Result<(), AllocError>
    ensures { OnOk result (writer.new ≡ pages.written writer.old (canon.join_pieces word)) }
{
    match word {
        JoinWord::Comma => return writer.sign(Sign::Comma),
        JoinWord::Cross => writer.word(Reserved::Cross)?,
        JoinWord::Inner => {}
        JoinWord::Left => writer.word(Reserved::Left)?,
        JoinWord::Right => writer.word(Reserved::Right)?,
        JoinWord::Full => writer.word(Reserved::Full)?,
    }
    writer.word(Reserved::Join)
}

/// ROLLUP or CUBE.
pub fn print_cube_word(writer: &mut Writer, kind: CubeKind) -> Result<(), AllocError>
    ensures { OnOk result (writer.new ≡ pages.after writer.old (canon.cube_word kind)) }
{
    match kind {
        CubeKind::Rollup => writer.word(Reserved::Rollup),
        CubeKind::Cube => writer.word(Reserved::Cube),
    }
}
