//! What holds of every small catalog.
ghost use Rattle.std.specs.Prelude.{◌≡◌, Some};
ghost use Rattle.sql_catalog.specs.declared.entries.TableDef.{TableDef};
ghost use Rattle.small_catalog.specs.Catalogs.{catalog_of, IsSmall};

/// The table of a small catalog has one or more columns of type INT64 or STRING, each with a name of 1 to 128 bytes,
/// and no two with one name.
pub fn small_catalogs_have_small_tables(bytes: &[u8])
    ensures { (table : TableDef) → catalog_of bytes.now ≡ Some table → IsSmall table }
{}
