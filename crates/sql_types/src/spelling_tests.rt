//! Types by their text.
use crate::{Boxed, Items, Named, SqlType, Text, type_text};
use std::alloc::Global;
use std::test::Fail;

fn spelled(alloc: Global, ty: &SqlType, text: &[u8]) -> Result<bool, Fail> {
    let spelling = type_text(alloc, ty)?;
    Ok(spelling.as_slice() == text)
}

#[test]
fn types_by_their_text(rt: HostRuntime) -> Result<(), Fail> {
    let alloc = rt.alloc();
    let table: [(SqlType, &[u8]); 8] = [
        (SqlType::Bool, b"BOOL"),
        (SqlType::Int32, b"INT32"),
        (SqlType::Int64, b"INT64"),
        (SqlType::Uint32, b"UINT32"),
        (SqlType::Uint64, b"UINT64"),
        (SqlType::Text, b"STRING"),
        (SqlType::Bytes, b"BYTES"),
        (SqlType::Date, b"DATE"),
    ];
    for (ty, text) in &table {
        assert!(rt; spelled(alloc, ty, text)?);
    }
    let mut fields = Items::new(alloc);
    fields.push(Named {
        name: Some(Text::copy_of(alloc, "a")?),
        ty: SqlType::Int64,
    })?;
    fields.push(Named {
        name: None,
        ty: SqlType::Array(Boxed::new(alloc, SqlType::Text)?),
    })?;
    fields.push(Named {
        name: Some(Text::copy_of(alloc, "select")?),
        ty: SqlType::Date,
    })?;
    let array = SqlType::Array(Boxed::new(alloc, SqlType::Struct(fields))?);
    assert!(rt;
        spelled(
            alloc,
            &array,
            b"ARRAY<STRUCT<a INT64, ARRAY<STRING>, `select` DATE>>"
        )?
    );
    Ok(())
}
