//! The stages of a run: the catalog, the query, and the table with its evaluation.
ghost use Rattle.std.specs.Prelude.{◌≡◌};
ghost use Rattle.fronts.specs.Texts.{Spells};
ghost use Rattle.sql_ast.specs.Grammar.{TextOf};
ghost use Rattle.small_run.specs.Plans.{Plans};
ghost use Rattle.gsql.specs.Stages as stage;
ghost use Rattle.gsql.specs.Counted.{Counted};
ghost use Rattle.gsql.specs.Measured.{Measured};
ghost use Rattle.gsql.specs.Parts.{IsPart};

use crate::status::LimitName;
use crate::stop::Stop;
use csv_tables::{TableRefusal, read_table};
use gsql_io::{Bytes, Inputs, ReadRefusal, read_file};
use parse_query::parse_tokens;
use small_catalog::{CatalogRefusal, read_catalog};
use small_run::{NoPlan, Plan, plan, run};
use sql_ast::{Query, Refusal};
use sql_catalog::TableDef;
use sql_lexer::{LexFault, Tokens, lex, nest};
use sql_measures::{depth, weight};
use sql_types::Rows;
use std::alloc::Global;

/// The greatest size of a catalog, in bytes.
pub const CATALOG_BYTES: u64 = 16_777_216;
/// The greatest size of a query, in bytes.
pub const QUERY_BYTES: u64 = 1_048_576;
/// The greatest size of a table file, in bytes.
pub const TABLE_BYTES: u64 = 67_108_864;
/// The greatest number of brackets that are open at one token of a query.
pub const NEST: u64 = 200;
/// The greatest depth of a query.
pub const DEPTH: u64 = 400;
/// The greatest weight of a query.
pub const WEIGHT: u64 = 200_000;

// Reads a whole file within its limit.
fn read_part<I: Inputs>(
    alloc: Global,
    inputs: &mut I,
    name: &str,
    limit: u64,
    limited: LimitName,
    file: u64,
) -> Result<Bytes, Stop>
    ensures part { IsPart (I.content inputs.old name.now) limit limited file name.now (I.begun inputs.new) result }
    ensures counted { Counted (I.faults inputs.old) (I.faults inputs.new) (I.broken inputs.new) result }
    ensures content { I.content inputs.new ≡ I.content inputs.old }
{
    let name = String::from_str(alloc, name)?;
    match read_file(alloc, inputs, name, limit) {
        Ok(bytes) => Ok(bytes),
        Err(ReadRefusal::Failed) => Err(Stop::ReadFault(file)),
        Err(ReadRefusal::TooLong) => Err(Stop::Limit(limited)),
        Err(ReadRefusal::OutOfMemory) => Err(Stop::OutOfMemory),
    }
}

// Evaluates the query over the rows of a table file.
fn table_said(
    alloc: Global,
    table: &TableDef,
    query: &Query,
    plan: &Plan,
    bytes: &[u8],
) -> Result<Rows, Stop>
    requires { Plans table.now query.now plan.now }
    ensures { stage.TableSaid table.now query.now bytes.now result }
{
    let _query = query;
    match read_table(alloc, table, bytes) {
        Ok(rows) => Ok(run(alloc, plan, &rows)?),
        Err(TableRefusal::Fault { row, field }) => Err(Stop::BadTable { row, field }),
        Err(TableRefusal::OutOfMemory) => Err(Stop::OutOfMemory),
    }
}

fn table_stage<I: Inputs>(
    alloc: Global,
    inputs: &mut I,
    table: &TableDef,
    query: &Query,
    plan: &Plan,
) -> Result<Rows, Stop>
    requires { Plans table.now query.now plan.now }
    ensures stage { stage.TableStage table.now query.now (I.content inputs.old) (I.begun inputs.new) result }
    ensures counted { Counted (I.faults inputs.old) (I.faults inputs.new) (I.broken inputs.new) result }
{
    match read_part(
        alloc,
        inputs,
        table.file.as_str(),
        TABLE_BYTES,
        LimitName::TableBytes,
        2,
    ) {
        Ok(bytes) => table_said(alloc, table, query, plan, bytes.as_slice()),
        Err(stop) => Err(stop),
    }
}

// The limit that a query is above, if any.
fn exceeded(query: &Query) -> Option<LimitName>
    ensures { Measured query.now result }
{
    if depth(query) > DEPTH {
        Some(LimitName::Depth)
    } else if weight(query) > WEIGHT {
        Some(LimitName::Weight)
    } else {
        None
    }
}

// Goes on from a query within the limits to its table.
fn query_planned<I: Inputs>(
    alloc: Global,
    inputs: &mut I,
    table: &TableDef,
    tokens: &Tokens,
    query: &Query,
) -> Result<Rows, Stop>
    requires spells { Spells TextOf tokens.now.list query.now }
    requires within { stage.Within query.now }
    ensures said { stage.TokensSaid table.now (I.content inputs.old) (I.begun inputs.new) tokens.now.end tokens.now.list result }
    ensures counted { Counted (I.faults inputs.old) (I.faults inputs.new) (I.broken inputs.new) result }
{
    match plan(alloc, table, query) {
        Ok(plan) => table_stage(alloc, inputs, table, query, &plan),
        Err(NoPlan::OtherForm) => Err(Stop::OtherForm),
        Err(NoPlan::OutOfMemory) => Err(Stop::OutOfMemory),
    }
}

// Goes on from a query to its table, if the query is within the limits.
fn query_measured<I: Inputs>(
    alloc: Global,
    inputs: &mut I,
    table: &TableDef,
    tokens: &Tokens,
    query: &Query,
) -> Result<Rows, Stop>
    requires { Spells TextOf tokens.now.list query.now }
    ensures said { stage.TokensSaid table.now (I.content inputs.old) (I.begun inputs.new) tokens.now.end tokens.now.list result }
    ensures counted { Counted (I.faults inputs.old) (I.faults inputs.new) (I.broken inputs.new) result }
{
    match exceeded(query) {
        Some(name) => Err(Stop::Limit(name)),
        None => query_planned(alloc, inputs, table, tokens, query),
    }
}

// Reads tokens as a query, and goes on to its table.
fn tokens_said<I: Inputs>(
    alloc: Global,
    inputs: &mut I,
    table: &TableDef,
    tokens: &Tokens,
) -> Result<Rows, Stop>
    ensures said { stage.TokensSaid table.now (I.content inputs.old) (I.begun inputs.new) tokens.now.end tokens.now.list result }
    ensures counted { Counted (I.faults inputs.old) (I.faults inputs.new) (I.broken inputs.new) result }
{
    match parse_tokens(alloc, tokens) {
        Ok(query) => query_measured(alloc, inputs, table, tokens, query.get()),
        Err(Refusal::Rule { place, .. }) => Err(Stop::Unread(place)),
        Err(Refusal::OutOfMemory) => Err(Stop::OutOfMemory),
    }
}

// Splits a query into tokens, whose brackets may nest only so deep.
fn query_said<I: Inputs>(
    alloc: Global,
    inputs: &mut I,
    table: &TableDef,
    bytes: &[u8],
) -> Result<Rows, Stop>
    ensures said { stage.QuerySaid table.now (I.content inputs.old) (I.begun inputs.new) bytes.now result }
    ensures counted { Counted (I.faults inputs.old) (I.faults inputs.new) (I.broken inputs.new) result }
{
    match lex(alloc, bytes) {
        Ok(tokens) if nest(&tokens) <= NEST => { tokens_said(alloc, inputs, table, &tokens) }
        Ok(_) => Err(Stop::Limit(LimitName::Nest)),
        Err(LexFault::At { place }) => Err(Stop::Unread(place)),
        Err(LexFault::OutOfMemory) => Err(Stop::OutOfMemory),
    }
}

// Reads a query within its limit, and goes on from its bytes.
#[tactic(auto, using(crate::proofs::Staged::staged))]
fn query_stage<I: Inputs>(
    alloc: Global,
    inputs: &mut I,
    table: &TableDef,
    name: &str,
) -> Result<Rows, Stop>
    ensures stage { stage.QueryStage table.now name.now (I.content inputs.old) (I.begun inputs.new) result }
    ensures counted { Counted (I.faults inputs.old) (I.faults inputs.new) (I.broken inputs.new) result }
{
    match read_part(alloc, inputs, name, QUERY_BYTES, LimitName::QueryBytes, 1) {
        Ok(bytes) => query_said(alloc, inputs, table, bytes.as_slice()),
        Err(stop) => Err(stop),
    }
}

// Reads a catalog of the form that is taken and goes on to the query.
fn catalog_said<I: Inputs>(
    alloc: Global,
    inputs: &mut I,
    query: &str,
    bytes: &[u8],
) -> Result<Rows, Stop>
    ensures said { stage.CatalogSaid query.now (I.content inputs.old) (I.begun inputs.new) bytes.now result }
    ensures counted { Counted (I.faults inputs.old) (I.faults inputs.new) (I.broken inputs.new) result }
{
    match read_catalog(alloc, bytes) {
        Ok(table) => query_stage(alloc, inputs, &table, query),
        Err(CatalogRefusal::OtherForm) => Err(Stop::OtherForm),
        Err(CatalogRefusal::OutOfMemory) => Err(Stop::OutOfMemory),
    }
}

/// Reads a catalog, a query and its table, in this order, and evaluates the query. The first of them that is refused or
/// can't be read decides.
pub fn catalog_stage<I: Inputs>(
    alloc: Global,
    inputs: &mut I,
    catalog: &str,
    query: &str,
) -> Result<Rows, Stop>
    ensures stage { stage.CatalogStage catalog.now query.now (I.content inputs.old) (I.begun inputs.new) result }
    ensures counted { Counted (I.faults inputs.old) (I.faults inputs.new) (I.broken inputs.new) result }
{
    match read_part(
        alloc,
        inputs,
        catalog,
        CATALOG_BYTES,
        LimitName::CatalogBytes,
        0,
    ) {
        Ok(bytes) => catalog_said(alloc, inputs, query, bytes.as_slice()),
        Err(stop) => Err(stop),
    }
}
