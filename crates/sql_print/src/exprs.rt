//! The constructs of expressions, each over operands of any type.
ghost use Rattle.std.specs.Prelude.{◌≡◌, OnOk};
ghost use Rattle.sql_print.specs.Pages as pages;
ghost use Rattle.sql_print.specs.ExprPieces as exprs;

use crate::names::print_angled;
use crate::operands::{Leveled, print_links, print_operand};
use crate::printed::{Printed, print_bracketed, print_run};
use crate::words::{print_comparison, print_prefix, print_quantifier, print_test, print_word_if};
use crate::writer::Writer;
use sql_ast::{
    Binding, Call, Comparison, IsTest, Link, Name, Part, Prefix, Quantifier, Reserved, Sign,
    TypeField, TypeSpelling, When, Word,
};
use sql_types::{Items, Text};
use std::alloc::AllocError;

/// A chain, whose operands need the next level.
#[tactic(auto, using(crate::proofs::PageLaws::written_append))]
pub fn print_chain<E: Printed + Leveled>(
    writer: &mut Writer,
    needed: u8,
    first: &E,
    rest: &Items<Link<E>>,
) -> Result<(), AllocError>
    ensures { OnOk result (writer.new ≡ pages.written writer.old (exprs.chain_pieces E.level E.pieces needed first.now rest.now)) }
{
    print_operand(writer, needed, first)?;
    print_links(writer, needed, rest.as_slice())
}

/// A run of NOT, given by their places.
#[tactic(auto, using(crate::proofs::PageLaws::written_append))]
pub fn print_not<E: Printed + Leveled>(
    writer: &mut Writer,
    operators: &Items<u64>,
    operand: &E,
) -> Result<(), AllocError>
    ensures { OnOk result (writer.new ≡ pages.written writer.old (exprs.not_pieces E.level E.pieces operators.now operand.now)) }
{
    print_nots(writer, operators.as_slice())?;
    print_operand(writer, 3, operand)
}

fn print_nots(writer: &mut Writer, operators: &[u64]) -> Result<(), AllocError>
    ensures { OnOk result (writer.new ≡ pages.written writer.old (exprs.nots operators.now)) }
{
    for _place in operators {
        writer.word(Reserved::Not)?;
    }
    Ok(())
}

/// A run of `+`, `-` and `~`.
#[tactic(auto, using(crate::proofs::PageLaws::written_append))]
pub fn print_unary<E: Printed + Leveled>(
    writer: &mut Writer,
    operators: &Items<Prefix>,
    operand: &E,
) -> Result<(), AllocError>
    ensures { OnOk result (writer.new ≡ pages.written writer.old (exprs.unary_pieces E.level E.pieces operators.now operand.now)) }
{
    print_prefixes(writer, operators.as_slice())?;
    print_operand(writer, 11, operand)
}

fn print_prefixes(writer: &mut Writer, operators: &[Prefix]) -> Result<(), AllocError>
    ensures { OnOk result (writer.new ≡ pages.written writer.old (exprs.prefixes operators.now)) }
{
    for prefix in operators {
        print_prefix(writer, prefix.operator)?;
    }
    Ok(())
}

/// A comparison.
#[tactic(auto, using(crate::proofs::PageLaws::written_append))]
pub fn print_compare<E: Printed + Leveled>(
    writer: &mut Writer,
    left: &E,
    operator: Comparison,
    right: &E,
) -> Result<(), AllocError>
    ensures { OnOk result (writer.new ≡ pages.written writer.old (exprs.compare_pieces E.level E.pieces left.now operator right.now)) }
{
    print_operand(writer, 4, left)?;
    print_comparison(writer, operator)?;
    print_operand(writer, 4, right)
}

/// `[NOT] LIKE`
#[tactic(auto, using(crate::proofs::PageLaws::written_append))]
pub fn print_like<E: Printed + Leveled>(
    writer: &mut Writer,
    left: &E,
    negated: bool,
    right: &E,
) -> Result<(), AllocError>
    ensures { OnOk result (writer.new ≡ pages.written writer.old (exprs.like_pieces E.level E.pieces left.now negated right.now)) }
{
    print_operand(writer, 4, left)?;
    print_word_if(writer, negated, Reserved::Not)?;
    writer.word(Reserved::Like)?;
    print_operand(writer, 4, right)
}

/// `LIKE ANY (..)`
#[tactic(auto, using(crate::proofs::PageLaws::written_append))]
pub fn print_like_list<E: Printed + Leveled, P: Printed>(
    writer: &mut Writer,
    left: &E,
    quantifier: Quantifier,
    patterns: &P,
) -> Result<(), AllocError>
    ensures { OnOk result (writer.new ≡ pages.written writer.old (exprs.like_list_pieces E.level E.pieces P.pieces left.now quantifier patterns.now)) }
{
    print_operand(writer, 4, left)?;
    writer.word(Reserved::Like)?;
    print_quantifier(writer, quantifier)?;
    print_bracketed(writer, patterns)
}

/// `LIKE ANY UNNEST(..)`
#[tactic(auto, using(crate::proofs::PageLaws::written_append))]
pub fn print_like_unnest<E: Printed + Leveled>(
    writer: &mut Writer,
    left: &E,
    quantifier: Quantifier,
    array: &E,
) -> Result<(), AllocError>
    ensures { OnOk result (writer.new ≡ pages.written writer.old (exprs.like_unnest_pieces E.level E.pieces left.now quantifier array.now)) }
{
    print_operand(writer, 4, left)?;
    writer.word(Reserved::Like)?;
    print_quantifier(writer, quantifier)?;
    print_worded(writer, Reserved::Unnest, array)
}

/// A word and what stands in brackets behind it.
#[tactic(auto, using(crate::proofs::PageLaws::written_append))]
pub fn print_worded<P: Printed>(
    writer: &mut Writer,
    word: Reserved,
    part: &P,
) -> Result<(), AllocError>
    ensures { OnOk result (writer.new ≡ pages.written writer.old (exprs.worded P.pieces word part.now)) }
{
    writer.word(word)?;
    print_bracketed(writer, part)
}

/// `[NOT] BETWEEN low AND high`
#[tactic(auto, using(crate::proofs::PageLaws::written_append))]
pub fn print_between<E: Printed + Leveled>(
    writer: &mut Writer,
    subject: &E,
    negated: bool,
    low: &E,
    high: &E,
) -> Result<(), AllocError>
    ensures { OnOk result (writer.new ≡ pages.written writer.old (exprs.between_pieces E.level E.pieces subject.now negated low.now high.now)) }
{
    print_operand(writer, 4, subject)?;
    print_word_if(writer, negated, Reserved::Not)?;
    writer.word(Reserved::Between)?;
    print_operand(writer, 4, low)?;
    writer.word(Reserved::And)?;
    print_operand(writer, 4, high)
}

/// `[NOT] IN (..)`, over a list or a query
#[tactic(auto, using(crate::proofs::PageLaws::written_append))]
pub fn print_in<E: Printed + Leveled, P: Printed>(
    writer: &mut Writer,
    left: &E,
    negated: bool,
    inside: &P,
) -> Result<(), AllocError>
    ensures { OnOk result (writer.new ≡ pages.written writer.old (exprs.in_pieces E.level E.pieces P.pieces left.now negated inside.now)) }
{
    print_operand(writer, 4, left)?;
    print_word_if(writer, negated, Reserved::Not)?;
    writer.word(Reserved::In)?;
    print_bracketed(writer, inside)
}

/// `[NOT] IN UNNEST(..)`
#[tactic(auto, using(crate::proofs::PageLaws::written_append))]
pub fn print_in_unnest<E: Printed + Leveled>(
    writer: &mut Writer,
    left: &E,
    negated: bool,
    array: &E,
) -> Result<(), AllocError>
    ensures { OnOk result (writer.new ≡ pages.written writer.old (exprs.in_unnest_pieces E.level E.pieces left.now negated array.now)) }
{
    print_operand(writer, 4, left)?;
    print_word_if(writer, negated, Reserved::Not)?;
    writer.word(Reserved::In)?;
    print_worded(writer, Reserved::Unnest, array)
}

/// `IS [NOT] (NULL | TRUE | FALSE)`
#[tactic(auto, using(crate::proofs::PageLaws::written_append))]
pub fn print_is<E: Printed + Leveled>(
    writer: &mut Writer,
    left: &E,
    negated: bool,
    test: IsTest,
) -> Result<(), AllocError>
    ensures { OnOk result (writer.new ≡ pages.written writer.old (exprs.is_pieces E.level E.pieces left.now negated test)) }
{
    print_operand(writer, 4, left)?;
    writer.word(Reserved::Is)?;
    print_word_if(writer, negated, Reserved::Not)?;
    print_test(writer, test)
}

/// `IS [NOT] DISTINCT FROM`
#[tactic(auto, using(crate::proofs::PageLaws::written_append))]
pub fn print_distinct<E: Printed + Leveled>(
    writer: &mut Writer,
    left: &E,
    negated: bool,
    right: &E,
) -> Result<(), AllocError>
    ensures { OnOk result (writer.new ≡ pages.written writer.old (exprs.distinct_pieces E.level E.pieces left.now negated right.now)) }
{
    print_operand(writer, 4, left)?;
    writer.word(Reserved::Is)?;
    print_word_if(writer, negated, Reserved::Not)?;
    writer.word(Reserved::Distinct)?;
    writer.word(Reserved::From)?;
    print_operand(writer, 4, right)
}

/// Fields and subscripts behind an expression.
#[tactic(auto, using(crate::proofs::PageLaws::written_append))]
pub fn print_postfix<E: Printed + Leveled>(
    writer: &mut Writer,
    first: &E,
    parts: &Items<Part<E>>,
) -> Result<(), AllocError>
    ensures { OnOk result (writer.new ≡ pages.written writer.old (exprs.postfix_pieces E.level E.pieces first.now parts.now)) }
{
    print_operand(writer, 12, first)?;
    print_run(writer, parts.as_slice())
}

/// A call behind SAFE and a dot.
#[tactic(auto, using(crate::proofs::PageLaws::written_append))]
pub fn print_safe_call<E: Printed>(writer: &mut Writer, call: &Call<E>) -> Result<(), AllocError>
    ensures { OnOk result (writer.new ≡ pages.written writer.old (exprs.safe_pieces E.pieces call.now)) }
{
    writer.read_word(Word::Safe)?;
    writer.sign(Sign::Dot)?;
    call.print(writer)
}

/// TRUE or FALSE.
pub fn print_truth(writer: &mut Writer, value: bool) -> Result<(), AllocError>
    ensures { OnOk result (writer.new ≡ pages.after writer.old (exprs.truth_word value)) }
{
    if value {
        writer.word(Reserved::True)
    } else {
        writer.word(Reserved::False)
    }
}

/// A DATE literal.
pub fn print_date(writer: &mut Writer, text: &Text) -> Result<(), AllocError>
    ensures { OnOk result (writer.new ≡ pages.written writer.old (exprs.date_pieces text.now)) }
{
    writer.read_word(Word::Date)?;
    writer.text(text)
}

/// CASE
#[tactic(auto, using(crate::proofs::PageLaws::written_append))]
pub fn print_case<S: Printed, E: Printed>(
    writer: &mut Writer,
    subject: &Option<S>,
    branches: &Items<When<E>>,
    otherwise: &Option<S>,
) -> Result<(), AllocError>
    ensures { OnOk result (writer.new ≡ pages.written writer.old (exprs.case_pieces S.pieces E.pieces subject.now branches.now otherwise.now)) }
{
    writer.word(Reserved::Case)?;
    subject.print(writer)?;
    print_run(writer, branches.as_slice())?;
    print_else(writer, otherwise)?;
    writer.word(Reserved::End)
}

fn print_else<E: Printed>(writer: &mut Writer, otherwise: &Option<E>) -> Result<(), AllocError>
    ensures { OnOk result (writer.new ≡ pages.written writer.old (exprs.else_pieces E.pieces otherwise.now)) }
{
    match otherwise {
        None => Ok(()),
        Some(expr) => {
            writer.word(Reserved::Else)?;
            expr.print(writer)
        }
    }
}

/// CAST, or SAFE_CAST
#[tactic(auto, using(crate::proofs::PageLaws::written_append))]
pub fn print_cast<E: Printed>(
    writer: &mut Writer,
    safe: bool,
    expr: &E,
    ty: &TypeSpelling,
) -> Result<(), AllocError>
    ensures { OnOk result (writer.new ≡ pages.written writer.old (exprs.cast_pieces E.pieces safe expr.now ty.now)) }
{
    print_cast_word(writer, safe)?;
    writer.sign(Sign::OpenRound)?;
    expr.print(writer)?;
    writer.word(Reserved::As)?;
    ty.print(writer)?;
    writer.sign(Sign::CloseRound)
}

fn print_cast_word(writer: &mut Writer, safe: bool) -> Result<(), AllocError>
    ensures { OnOk result (writer.new ≡ pages.after writer.old (exprs.cast_word safe)) }
{
    if safe {
        writer.read_word(Word::SafeCast)
    } else {
        writer.word(Reserved::Cast)
    }
}

/// EXTRACT
#[tactic(auto, using(crate::proofs::PageLaws::written_append))]
pub fn print_extract<E: Printed>(
    writer: &mut Writer,
    part: &Name,
    expr: &E,
) -> Result<(), AllocError>
    ensures { OnOk result (writer.new ≡ pages.written writer.old (exprs.extract_pieces E.pieces part.now expr.now)) }
{
    writer.word(Reserved::Extract)?;
    writer.sign(Sign::OpenRound)?;
    writer.name(&part.text)?;
    writer.word(Reserved::From)?;
    expr.print(writer)?;
    writer.sign(Sign::CloseRound)
}

/// `[..]`, behind `ARRAY<type>` where it is written
#[tactic(auto, using(crate::proofs::PageLaws::written_append))]
pub fn print_array<E: Printed>(
    writer: &mut Writer,
    element: &Option<TypeSpelling>,
    items: &Items<E>,
) -> Result<(), AllocError>
    ensures { OnOk result (writer.new ≡ pages.written writer.old (exprs.array_pieces E.pieces element.now items.now)) }
{
    print_element(writer, element)?;
    writer.sign(Sign::OpenSquare)?;
    items.print(writer)?;
    writer.sign(Sign::CloseSquare)
}

fn print_element(writer: &mut Writer, element: &Option<TypeSpelling>) -> Result<(), AllocError>
    ensures { OnOk result (writer.new ≡ pages.written writer.old (exprs.element_pieces element.now)) }
{
    match element {
        None => Ok(()),
        Some(ty) => {
            writer.word(Reserved::Array)?;
            print_angled(writer, ty)
        }
    }
}

/// `STRUCT<fields>(..)`
#[tactic(auto, using(crate::proofs::PageLaws::written_append))]
pub fn print_typed_struct<E: Printed>(
    writer: &mut Writer,
    fields: &Items<TypeField<TypeSpelling>>,
    parts: &Items<E>,
) -> Result<(), AllocError>
    ensures { OnOk result (writer.new ≡ pages.written writer.old (exprs.typed_struct_pieces E.pieces fields.now parts.now)) }
{
    writer.word(Reserved::Struct)?;
    print_angled(writer, fields)?;
    print_bracketed(writer, parts)
}

/// `WITH(name AS expr, .., expr)`
#[tactic(auto, using(crate::proofs::PageLaws::written_append))]
pub fn print_with<E: Printed, R: Printed>(
    writer: &mut Writer,
    bindings: &Items<Binding<E>>,
    value: &R,
) -> Result<(), AllocError>
    ensures { OnOk result (writer.new ≡ pages.written writer.old (exprs.with_pieces E.pieces R.pieces bindings.now value.now)) }
{
    writer.word(Reserved::With)?;
    writer.sign(Sign::OpenRound)?;
    bindings.print(writer)?;
    writer.sign(Sign::Comma)?;
    value.print(writer)?;
    writer.sign(Sign::CloseRound)
}
