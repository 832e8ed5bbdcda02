//! Types, values, rows and outcomes: what every other crate speaks of.
#![tactic(auto)]

pub mod calendar;
pub mod copies;
#[cfg(test)]
mod date_tests;
pub mod date_texts;
pub mod equality;
pub mod fault;
pub mod fitting;
pub mod kinds;
pub mod ordering;
pub mod rows;
pub mod sameness;
pub mod sorting;
pub mod sorts;
pub mod spelling;
#[cfg(test)]
mod spelling_tests;
pub mod sql_type;
#[cfg(test)]
mod tests;
pub mod value;

pub use calendar::{CalendarDate, date_of, day_of, day_of_year, month_length};
pub use copies::{copy_columns, copy_name, copy_type, copy_value, copy_values};
pub use date_texts::{date_text, read_date, write_date};
pub use equality::equal;
pub use fault::{CallFault, FaultKind};
pub use fitting::{all_fit, fits, row_fits};
pub use kinds::{JoinKind, SetKind, SortItem, SortItems};
pub use lists::{Boxed, Bytes, Items, ListType, OutOfMemory, Text};
pub use ordering::{compare_rows, item_order, order};
pub use rows::{Answer, Param, Params, Rows, Tables};
pub use sameness::{same, same_row};
pub use sorting::sorting_order;
pub use sorts::{comparable, groupable, orderable, same_type};
pub use spelling::{type_text, write_columns, write_type};
pub use sql_type::{Column, Columns, Field, Fields, Named, SqlType, Types};
pub use value::{Value, Values};
