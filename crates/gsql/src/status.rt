//! How a run ends.
ghost use Rattle.std.specs.Prelude.{◌≡◌};
ghost use Rattle.gsql.specs.Limits as limits;

use lists::Bytes;

/// What is wrong with the words.
#[derive(Clone, Copy, Debug, PartialEq, Eq)]
pub enum UsageKind {
    /// They aren't `run`, a catalog and a query.
    Words,
}

/// What is limited: the sizes of files in bytes, the depth of brackets, the depth and weight of a text's tree, the sets of one
/// GROUP BY, and the size of a printed text.
#[derive(Clone, Copy, Debug, PartialEq, Eq)]
pub enum LimitName {
    QueryBytes,
    CatalogBytes,
    TableBytes,
    Nest,
    Depth,
    Weight,
    Sets,
    Printed,
}

impl LimitName {
    /// The limit's name as it is reported.
    pub fn name(self) -> &'static [u8]
        ensures { result.now ≡ limits.name_of self }
    {
        match self {
            LimitName::QueryBytes => b"QueryBytes",
            LimitName::CatalogBytes => b"CatalogBytes",
            LimitName::TableBytes => b"TableBytes",
            LimitName::Nest => b"Nest",
            LimitName::Depth => b"Depth",
            LimitName::Weight => b"Weight",
            LimitName::Sets => b"Sets",
            LimitName::Printed => b"Printed",
        }
    }
}

/// How a run ends.
#[derive(Debug, Drop)]
pub enum Status {
    /// Everything was written. `tree` is empty until trees are made.
    Done { tree: Bytes },
    /// The text breaks a rule at a place. A text that has no tokens is rule 1 at the first byte that can't be read. So far every
    /// catalog or query of another form is rule 2 at place 0.
    Refused { rule: u8, place: u64 },
    /// The words don't ask for anything.
    Usage { kind: UsageKind },
    /// A table's file is at fault: the number of the table in the catalog, and the record and the field of the first faulty
    /// cell, all from 0. Record 0 is the header.
    BadTable { table: u64, row: u64, field: u64 },
    /// A file or a text is above a limit.
    Limit { name: LimitName },
    /// A file can't be read: 0 is the catalog, 1 the query, and 2 the table.
    ReadFault { file: u64 },
    /// Standard output or standard error can't be written.
    WriteFault,
    /// Memory ran out. Nothing was written.
    OutOfMemory,
}

impl Status {
    /// The exit status of the program.
    pub fn exit_code(&self) -> u8 {
        match self {
            Status::Done { .. } => 0,
            Status::Refused { .. } => 1,
            Status::Usage { .. } => 3,
            Status::BadTable { .. } => 5,
            Status::Limit { .. } => 6,
            Status::ReadFault { .. } => 7,
            Status::WriteFault => 8,
            Status::OutOfMemory => 9,
        }
    }
}
