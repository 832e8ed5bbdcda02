//! What the row of a call answers.
ghost use Rattle.std.specs.Prelude.{◌≡◌};
ghost use Rattle.sql_types.specs.Outcome.{Answers, just};
ghost use Rattle.sql_builtins.specs.Applies as applies;
ghost use Rattle.sql_builtins.specs.Asks.{Asks};
ghost use Rattle.sql_builtins.specs.Fitting.{Fitting};

use crate::dated::date_add;
use crate::dated::date_diff;
use crate::dated::date_sub;
use crate::dated::date_trunc;
use crate::dated::extract;
use crate::liked::like_bytes;
use crate::liked::like_string;
use crate::sig::SigId;
use sql_dates::date_from_unix_date_int64;
use sql_dates::date_int64_int64_int64;
use sql_dates::unix_date_date;
use sql_numbers::abs_int64;
use sql_numbers::add_int64_int64;
use sql_numbers::add_uint64_uint64;
use sql_numbers::and_bool_bool;
use sql_numbers::array_concat_array;
use sql_numbers::array_first_array;
use sql_numbers::array_includes_array_any;
use sql_numbers::array_last_array;
use sql_numbers::array_length_array;
use sql_numbers::array_reverse_array;
use sql_numbers::between_any_any_any;
use sql_numbers::bitand_int64_int64;
use sql_numbers::bitand_uint64_uint64;
use sql_numbers::bitor_int64_int64;
use sql_numbers::bitor_uint64_uint64;
use sql_numbers::bitxor_int64_int64;
use sql_numbers::bitxor_uint64_uint64;
use sql_numbers::coalesce_any;
use sql_numbers::distinct_any_any;
use sql_numbers::div_int64_int64;
use sql_numbers::div_uint64_uint64;
use sql_numbers::eq_any_any;
use sql_numbers::error_string;
use sql_numbers::flip_int64;
use sql_numbers::flip_uint64;
use sql_numbers::ge_any_any;
use sql_numbers::generate_array_int64_int64_int64;
use sql_numbers::greatest_any;
use sql_numbers::gt_any_any;
use sql_numbers::if_bool_any_any;
use sql_numbers::iferror_any_any;
use sql_numbers::ifnull_any_any;
use sql_numbers::is_false_bool;
use sql_numbers::is_null_any;
use sql_numbers::is_true_bool;
use sql_numbers::iserror_any;
use sql_numbers::join_array_array;
use sql_numbers::le_any_any;
use sql_numbers::least_any;
use sql_numbers::lt_any_any;
use sql_numbers::mod_int64_int64;
use sql_numbers::mod_uint64_uint64;
use sql_numbers::mul_int64_int64;
use sql_numbers::mul_uint64_uint64;
use sql_numbers::ne_any_any;
use sql_numbers::neg_int64;
use sql_numbers::not_bool;
use sql_numbers::nullif_any_any;
use sql_numbers::nulliferror_any;
use sql_numbers::or_bool_bool;
use sql_numbers::pos_int64;
use sql_numbers::pos_uint64;
use sql_numbers::safe_add_int64_int64;
use sql_numbers::safe_add_uint64_uint64;
use sql_numbers::safe_multiply_int64_int64;
use sql_numbers::safe_multiply_uint64_uint64;
use sql_numbers::safe_subtract_int64_int64;
use sql_numbers::safe_subtract_uint64_uint64;
use sql_numbers::shl_int64_int64;
use sql_numbers::shl_uint64_int64;
use sql_numbers::shr_int64_int64;
use sql_numbers::shr_uint64_int64;
use sql_numbers::sign_int64;
use sql_numbers::sub_int64_int64;
use sql_numbers::sub_uint64_uint64;
use sql_strings::array_to_string_array_string_string;
use sql_strings::byte_length_bytes;
use sql_strings::byte_length_string;
use sql_strings::char_length_string;
use sql_strings::concat_bytes;
use sql_strings::concat_string;
use sql_strings::ends_with_bytes_bytes;
use sql_strings::ends_with_string_string;
use sql_strings::from_hex_string;
use sql_strings::join_bytes_bytes;
use sql_strings::join_string_string;
use sql_strings::length_bytes;
use sql_strings::length_string;
use sql_strings::ltrim_string_string;
use sql_strings::repeat_bytes_int64;
use sql_strings::repeat_string_int64;
use sql_strings::replace_bytes_bytes_bytes;
use sql_strings::replace_string_string_string;
use sql_strings::reverse_bytes;
use sql_strings::reverse_string;
use sql_strings::rtrim_string_string;
use sql_strings::split_string_string;
use sql_strings::starts_with_bytes_bytes;
use sql_strings::starts_with_string_string;
use sql_strings::strpos_bytes_bytes;
use sql_strings::strpos_string_string;
use sql_strings::substr_bytes_int64_int64;
use sql_strings::substr_string_int64_int64;
use sql_strings::to_hex_bytes;
use sql_strings::trim_string_string;
use sql_types::CallFault;
use sql_types::FaultKind;
use sql_types::SqlType;
use sql_types::Value;
use std::alloc::Global;

/// The value of a call of a row at values that fit it, where `gives` is the type that the row gives for them. A fault is
/// the one that the row names for the values: each function's own call says which. A call with a NULL argument is NULL unless
/// its row says otherwise, and so is one of a part of dates that no part is called. Calls with a lambda have no such row. It
/// takes the time of the function's own call.
pub fn apply(
    alloc: Global,
    sig: SigId,
    gives: &SqlType,
    values: &[Value],
) -> Result<Value, CallFault>
    requires { Fitting sig gives.now values.now }
    ensures { Answers (just (applies.apply sig values.now)) result }
{
    let _gives = gives;
    apply_row(alloc, sig, values)
}

/// The call of each row.
fn apply_row(alloc: Global, sig: SigId, values: &[Value]) -> Result<Value, CallFault>
    requires { Asks sig values.now }
    ensures { Answers (just (applies.apply sig values.now)) result }
{
    match sig {
        SigId::AddInt64 => answered(add_int64_int64(values)),
        SigId::AddUint64 => answered(add_uint64_uint64(values)),
        SigId::MultiplyInt64 => answered(mul_int64_int64(values)),
        SigId::MultiplyUint64 => answered(mul_uint64_uint64(values)),
        SigId::SubtractInt64 => answered(sub_int64_int64(values)),
        SigId::SubtractUint64 => answered(sub_uint64_uint64(values)),
        SigId::Negate => answered(neg_int64(values)),
        SigId::PlusInt64 => Ok(pos_int64(values)),
        SigId::PlusUint64 => Ok(pos_uint64(values)),
        SigId::FlipInt64 => Ok(flip_int64(values)),
        SigId::FlipUint64 => Ok(flip_uint64(values)),
        SigId::BitAndInt64 => Ok(bitand_int64_int64(values)),
        SigId::BitAndUint64 => Ok(bitand_uint64_uint64(values)),
        SigId::BitXorInt64 => Ok(bitxor_int64_int64(values)),
        SigId::BitXorUint64 => Ok(bitxor_uint64_uint64(values)),
        SigId::BitOrInt64 => Ok(bitor_int64_int64(values)),
        SigId::BitOrUint64 => Ok(bitor_uint64_uint64(values)),
        SigId::ShiftLeftInt64 => answered(shl_int64_int64(values)),
        SigId::ShiftLeftUint64 => answered(shl_uint64_int64(values)),
        SigId::ShiftRightInt64 => answered(shr_int64_int64(values)),
        SigId::ShiftRightUint64 => answered(shr_uint64_int64(values)),
        SigId::JoinString => join_string_string(alloc, values),
        SigId::JoinBytes => join_bytes_bytes(alloc, values),
        SigId::JoinArray => join_array_array(alloc, values),
        SigId::Equal => Ok(eq_any_any(values)),
        SigId::NotEqual => Ok(ne_any_any(values)),
        SigId::Less => Ok(lt_any_any(values)),
        SigId::LessEqual => Ok(le_any_any(values)),
        SigId::Greater => Ok(gt_any_any(values)),
        SigId::GreaterEqual => Ok(ge_any_any(values)),
        SigId::LikeString => answered(like_string(values)),
        SigId::LikeBytes => answered(like_bytes(values)),
        SigId::Not => Ok(not_bool(values)),
        SigId::And => Ok(and_bool_bool(values)),
        SigId::Or => Ok(or_bool_bool(values)),
        SigId::Between => Ok(between_any_any_any(values)),
        SigId::IsNull => Ok(is_null_any(values)),
        SigId::IsTrue => Ok(is_true_bool(values)),
        SigId::IsFalse => Ok(is_false_bool(values)),
        SigId::IsDistinct => Ok(distinct_any_any(values)),
        SigId::If => if_bool_any_any(alloc, values),
        SigId::IfNull => ifnull_any_any(alloc, values),
        SigId::Coalesce => coalesce_any(alloc, values),
        SigId::NullIf => nullif_any_any(alloc, values),
        SigId::Error => answered(error_string(values)),
        SigId::IfError => iferror_any_any(alloc, values),
        SigId::NullIfError => nulliferror_any(alloc, values),
        SigId::IsError => Ok(iserror_any(values)),
        SigId::Abs => answered(abs_int64(values)),
        SigId::Sign => Ok(sign_int64(values)),
        SigId::DivInt64 => answered(div_int64_int64(values)),
        SigId::DivUint64 => answered(div_uint64_uint64(values)),
        SigId::ModInt64 => answered(mod_int64_int64(values)),
        SigId::ModUint64 => answered(mod_uint64_uint64(values)),
        SigId::Greatest => greatest_any(alloc, values),
        SigId::Least => least_any(alloc, values),
        SigId::SafeAddInt64 => Ok(safe_add_int64_int64(values)),
        SigId::SafeAddUint64 => Ok(safe_add_uint64_uint64(values)),
        SigId::SafeSubtractInt64 => Ok(safe_subtract_int64_int64(values)),
        SigId::SafeSubtractUint64 => Ok(safe_subtract_uint64_uint64(values)),
        SigId::SafeMultiplyInt64 => Ok(safe_multiply_int64_int64(values)),
        SigId::SafeMultiplyUint64 => Ok(safe_multiply_uint64_uint64(values)),
        SigId::LengthString => answered(length_string(values)),
        SigId::LengthBytes => answered(length_bytes(values)),
        SigId::ByteLengthString => answered(byte_length_string(values)),
        SigId::ByteLengthBytes => answered(byte_length_bytes(values)),
        SigId::CharLength => answered(char_length_string(values)),
        SigId::ConcatString => concat_string(alloc, values),
        SigId::ConcatBytes => concat_bytes(alloc, values),
        SigId::SubstrString => substr_string_int64_int64(alloc, values),
        SigId::SubstrBytes => substr_bytes_int64_int64(alloc, values),
        SigId::StartsWithString => Ok(starts_with_string_string(values)),
        SigId::StartsWithBytes => Ok(starts_with_bytes_bytes(values)),
        SigId::EndsWithString => Ok(ends_with_string_string(values)),
        SigId::EndsWithBytes => Ok(ends_with_bytes_bytes(values)),
        SigId::StrposString => answered(strpos_string_string(values)),
        SigId::StrposBytes => answered(strpos_bytes_bytes(values)),
        SigId::ReplaceString => replace_string_string_string(alloc, values),
        SigId::ReplaceBytes => replace_bytes_bytes_bytes(alloc, values),
        SigId::RepeatString => repeat_string_int64(alloc, values),
        SigId::RepeatBytes => repeat_bytes_int64(alloc, values),
        SigId::ReverseString => reverse_string(alloc, values),
        SigId::ReverseBytes => reverse_bytes(alloc, values),
        SigId::Trim => trim_string_string(alloc, values),
        SigId::LeftTrim => ltrim_string_string(alloc, values),
        SigId::RightTrim => rtrim_string_string(alloc, values),
        SigId::Split => split_string_string(alloc, values),
        SigId::ToHex => to_hex_bytes(alloc, values),
        SigId::FromHex => from_hex_string(alloc, values),
        SigId::ArrayLength => answered(array_length_array(values)),
        SigId::ArrayReverse => array_reverse_array(alloc, values),
        SigId::ArrayConcat => array_concat_array(alloc, values),
        SigId::ArrayFirst => array_first_array(alloc, values),
        SigId::ArrayLast => array_last_array(alloc, values),
        SigId::ArrayToString => array_to_string_array_string_string(alloc, values),
        SigId::ArrayIncludes => Ok(array_includes_array_any(values)),
        SigId::GenerateArray => generate_array_int64_int64_int64(alloc, values),
        SigId::Date => date_int64_int64_int64(values),
        SigId::DateAdd => date_add(values),
        SigId::DateSub => date_sub(values),
        SigId::DateDiff => date_diff(values),
        SigId::DateTrunc => date_trunc(values),
        SigId::Extract => extract(values),
        SigId::UnixDate => unix_date_date(values),
        SigId::DateFromUnixDate => date_from_unix_date_int64(values),
        // A lambda is no value: no such call comes here.
        SigId::ArrayIncludesLambda | SigId::ArrayFilter | SigId::ArrayTransform => Ok(Value::Null),
        // An aggregate goes over many rows: no such call comes here either.
        SigId::CountRows
        | SigId::Count
        | SigId::CountIf
        | SigId::SumInt64
        | SigId::SumUint64
        | SigId::Min
        | SigId::Max
        | SigId::LogicalAnd
        | SigId::LogicalOr
        | SigId::StringAgg
        | SigId::ArrayAgg
        | SigId::AnyValue => Ok(Value::Null),
    }
}

/// The answer of a call that takes no memory.
fn answered(outcome: Result<Value, FaultKind>) -> Result<Value, CallFault>
    ensures { Answers (just outcome) result }
{
    match outcome {
        Ok(value) => Ok(value),
        Err(fault) => Err(CallFault::Fault(fault)),
    }
}
