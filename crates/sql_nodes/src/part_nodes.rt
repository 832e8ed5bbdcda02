//! The parts of clauses, each in a box.
ghost use Rattle.std.specs.Prelude.{◌≡◌, IfOk};
ghost use Rattle.sql_ast.specs.declared.clauses.Arg.TheVariants as args;
ghost use Rattle.sql_ast.specs.declared.clauses.Item.TheVariants as items;
ghost use Rattle.sql_ast.specs.declared.clauses.On.TheVariants as ons;
ghost use Rattle.sql_ast.specs.declared.clauses.Turn.TheVariants as turns;
ghost use Rattle.sql_ast.specs.declared.expr.Part.TheVariants as parts;
ghost use Rattle.sql_ast.specs.declared.grouping.GroupItem.TheVariants as group_items;
ghost use Rattle.sql_ast.specs.declared.grouping.GroupSet.TheVariants as group_sets;
ghost use Rattle.sql_ast.specs.declared.grouping.Groups.TheVariants as groupss;

use sql_ast::{
    Aliased, Arg, Binding, Call, Cube, CubeKind, Edit, Expr, FilterPart, Function, GroupItem,
    GroupSet, Groups, IndexForm, Item, Link, Name, NullsPart, NullsPlace, On, Operator, Part,
    PivotCall, Replacement, Sort, Turn, Turned, UnpivotColumn, When,
};
use sql_types::{Boxed, Items, OutOfMemory};
use std::alloc::Global;

/// An operator of a chain, its place, and the operand after it.
pub fn link(
    alloc: Global,
    operator: Operator,
    operand: Boxed<Expr>,
    place: u64,
) -> Result<Boxed<Link<Expr>>, OutOfMemory>
    ensures { IfOk result (λ node. node ≡ record { operator = operator; operand = operand; place = place }) }
{
    Ok(Boxed::new(
        alloc,
        Link {
            operator,
            operand: operand.into_inner(),
            place,
        },
    )?)
}

/// `Part::Field`: a part of a postfix: a field, or a subscript with the place of its `[`.
pub fn part_field(alloc: Global, name: Name) -> Result<Boxed<Part<Expr>>, OutOfMemory>
    ensures { IfOk result (λ node. node ≡ parts.Field name) }
{
    Ok(Boxed::new(alloc, Part::Field { name })?)
}

/// `Part::Index`: a part of a postfix: a field, or a subscript with the place of its `[`.
pub fn part_index(
    alloc: Global,
    form: IndexForm,
    index: Boxed<Expr>,
    place: u64,
) -> Result<Boxed<Part<Expr>>, OutOfMemory>
    ensures { IfOk result (λ node. node ≡ parts.Index form index place) }
{
    Ok(Boxed::new(
        alloc,
        Part::Index {
            form,
            index: index.into_inner(),
            place,
        },
    )?)
}

/// The condition of HAVING, with the place of that word.
pub fn filter_part(
    alloc: Global,
    test: Boxed<Expr>,
    place: u64,
) -> Result<Boxed<FilterPart<Expr>>, OutOfMemory>
    ensures { IfOk result (λ node. node ≡ record { test = test; place = place }) }
{
    Ok(Boxed::new(
        alloc,
        FilterPart {
            test: test.into_inner(),
            place,
        },
    )?)
}

/// `expr [ASC | DESC] [NULLS (FIRST | LAST)]`
pub fn sort(
    alloc: Global,
    expr: Boxed<Expr>,
    descending: bool,
    nulls: Option<NullsPlace>,
    place: u64,
) -> Result<Boxed<Sort<Expr>>, OutOfMemory>
    ensures { IfOk result (λ node. node ≡ record { expr = expr; descending = descending; nulls = nulls; place = place }) }
{
    Ok(Boxed::new(
        alloc,
        Sort {
            expr: expr.into_inner(),
            descending,
            nulls,
            place,
        },
    )?)
}

/// `Item::Star`: `* [edit]`
pub fn item_star(
    alloc: Global,
    edit: Boxed<Edit<Expr>>,
    place: u64,
) -> Result<Boxed<Item<Expr>>, OutOfMemory>
    ensures { IfOk result (λ node. node ≡ items.Star edit place) }
{
    Ok(Boxed::new(
        alloc,
        Item::Star {
            edit: edit.into_inner(),
            place,
        },
    )?)
}

/// `Item::QualifiedStar`: `postfix.* [edit]`
pub fn item_qualified_star(
    alloc: Global,
    qualifier: Boxed<Expr>,
    edit: Boxed<Edit<Expr>>,
    place: u64,
) -> Result<Boxed<Item<Expr>>, OutOfMemory>
    ensures { IfOk result (λ node. node ≡ items.QualifiedStar qualifier edit place) }
{
    Ok(Boxed::new(
        alloc,
        Item::QualifiedStar {
            qualifier: qualifier.into_inner(),
            edit: edit.into_inner(),
            place,
        },
    )?)
}

/// `Item::Expr`: `expr [alias]`
pub fn item_expr(
    alloc: Global,
    expr: Boxed<Expr>,
    alias: Option<Name>,
    place: u64,
) -> Result<Boxed<Item<Expr>>, OutOfMemory>
    ensures { IfOk result (λ node. node ≡ items.Expr expr alias place) }
{
    Ok(Boxed::new(
        alloc,
        Item::Expr {
            expr: expr.into_inner(),
            alias,
            place,
        },
    )?)
}

/// What EXCEPT drops from `*` and REPLACE replaces in it. Both lists are empty where neither is written.
pub fn edit(
    alloc: Global,
    except: Items<Name>,
    replace: Items<Replacement<Expr>>,
) -> Result<Boxed<Edit<Expr>>, OutOfMemory>
    ensures { IfOk result (λ node. node ≡ record { except = except; replace = replace }) }
{
    Ok(Boxed::new(alloc, Edit { except, replace })?)
}

/// `expr AS name` in REPLACE.
pub fn replacement(
    alloc: Global,
    expr: Boxed<Expr>,
    name: Name,
) -> Result<Boxed<Replacement<Expr>>, OutOfMemory>
    ensures { IfOk result (λ node. node ≡ record { expr = expr; name = name }) }
{
    Ok(Boxed::new(
        alloc,
        Replacement {
            expr: expr.into_inner(),
            name,
        },
    )?)
}

/// `expr [AS name]`
pub fn aliased(
    alloc: Global,
    expr: Boxed<Expr>,
    alias: Option<Name>,
) -> Result<Boxed<Aliased<Expr>>, OutOfMemory>
    ensures { IfOk result (λ node. node ≡ record { expr = expr; alias = alias }) }
{
    Ok(Boxed::new(
        alloc,
        Aliased {
            expr: expr.into_inner(),
            alias,
        },
    )?)
}

/// `name AS expr` in a WITH expression.
pub fn binding(
    alloc: Global,
    name: Name,
    expr: Boxed<Expr>,
) -> Result<Boxed<Binding<Expr>>, OutOfMemory>
    ensures { IfOk result (λ node. node ≡ record { name = name; expr = expr }) }
{
    Ok(Boxed::new(
        alloc,
        Binding {
            name,
            expr: expr.into_inner(),
        },
    )?)
}

/// `WHEN expr THEN expr`
pub fn when(
    alloc: Global,
    test: Boxed<Expr>,
    outcome: Boxed<Expr>,
) -> Result<Boxed<When<Expr>>, OutOfMemory>
    ensures { IfOk result (λ node. node ≡ record { test = test; result = outcome }) }
{
    Ok(Boxed::new(
        alloc,
        When {
            test: test.into_inner(),
            result: outcome.into_inner(),
        },
    )?)
}

/// `On::On`: the condition of a join, with the place of its word.
pub fn on_on(
    alloc: Global,
    condition: Boxed<Expr>,
    place: u64,
) -> Result<Boxed<On<Expr>>, OutOfMemory>
    ensures { IfOk result (λ node. node ≡ ons.On condition place) }
{
    Ok(Boxed::new(
        alloc,
        On::On {
            condition: condition.into_inner(),
            place,
        },
    )?)
}

/// `On::Using`: the condition of a join, with the place of its word.
pub fn on_using(
    alloc: Global,
    columns: Items<Name>,
    place: u64,
) -> Result<Boxed<On<Expr>>, OutOfMemory>
    ensures { IfOk result (λ node. node ≡ ons.Using columns place) }
{
    Ok(Boxed::new(alloc, On::Using { columns, place })?)
}

/// A call, with the place of the function's name. `star` stands for the argument `*`.
pub fn call(
    alloc: Global,
    function: Function,
    distinct: bool,
    star: bool,
    arguments: Items<Arg<Expr>>,
    nulls: Option<NullsPart>,
    order: Items<Sort<Expr>>,
    limit: Option<u64>,
    place: u64,
) -> Result<Boxed<Call<Expr>>, OutOfMemory>
    ensures { IfOk result (λ node. node ≡ record { function = function; distinct = distinct; star = star; arguments = arguments; nulls = nulls; order = order; limit = limit; place = place }) }
{
    Ok(Boxed::new(
        alloc,
        Call {
            function,
            distinct,
            star,
            arguments,
            nulls,
            order,
            limit,
            place,
        },
    )?)
}

/// `Arg::Expr`: an argument of a call.
pub fn arg_expr(alloc: Global, expr: Boxed<Expr>) -> Result<Boxed<Arg<Expr>>, OutOfMemory>
    ensures { IfOk result (λ node. node ≡ args.Expr expr) }
{
    Ok(Boxed::new(
        alloc,
        Arg::Expr {
            expr: expr.into_inner(),
        },
    )?)
}

/// `Arg::Lambda`: `name -> expr` or `(name, name) -> expr`
pub fn arg_lambda(
    alloc: Global,
    variables: Items<Name>,
    body: Boxed<Expr>,
    place: u64,
) -> Result<Boxed<Arg<Expr>>, OutOfMemory>
    ensures { IfOk result (λ node. node ≡ args.Lambda variables body place) }
{
    Ok(Boxed::new(
        alloc,
        Arg::Lambda {
            variables,
            body: body.into_inner(),
            place,
        },
    )?)
}

/// `Arg::Interval`: `INTERVAL expr name`
pub fn arg_interval(
    alloc: Global,
    amount: Boxed<Expr>,
    part: Name,
    place: u64,
) -> Result<Boxed<Arg<Expr>>, OutOfMemory>
    ensures { IfOk result (λ node. node ≡ args.Interval amount part place) }
{
    Ok(Boxed::new(
        alloc,
        Arg::Interval {
            amount: amount.into_inner(),
            part,
            place,
        },
    )?)
}

/// PIVOT or UNPIVOT after an item of FROM, and the alias behind it.
pub fn turned(
    alloc: Global,
    turn: Boxed<Turn<Expr>>,
    alias: Option<Name>,
) -> Result<Boxed<Turned<Expr>>, OutOfMemory>
    ensures { IfOk result (λ node. node ≡ record { turn = turn; alias = alias }) }
{
    Ok(Boxed::new(
        alloc,
        Turned {
            turn: turn.into_inner(),
            alias,
        },
    )?)
}

/// `Turn::Pivot`: PIVOT and UNPIVOT, each with the place of its word.
pub fn turn_pivot(
    alloc: Global,
    aggregates: Items<PivotCall<Expr>>,
    input: Items<Name>,
    values: Items<Aliased<Expr>>,
    place: u64,
) -> Result<Boxed<Turn<Expr>>, OutOfMemory>
    ensures { IfOk result (λ node. node ≡ turns.Pivot aggregates input values place) }
{
    Ok(Boxed::new(
        alloc,
        Turn::Pivot {
            aggregates,
            input,
            values,
            place,
        },
    )?)
}

/// `Turn::Unpivot`: PIVOT and UNPIVOT, each with the place of its word.
pub fn turn_unpivot(
    alloc: Global,
    include_nulls: bool,
    value: Name,
    label: Name,
    columns: Items<UnpivotColumn>,
    place: u64,
) -> Result<Boxed<Turn<Expr>>, OutOfMemory>
    ensures { IfOk result (λ node. node ≡ turns.Unpivot include_nulls value label columns place) }
{
    Ok(Boxed::new(
        alloc,
        Turn::Unpivot {
            include_nulls,
            value,
            label,
            columns,
            place,
        },
    )?)
}

/// `call [alias]` in PIVOT.
pub fn pivot_call(
    alloc: Global,
    call: Boxed<Call<Expr>>,
    alias: Option<Name>,
) -> Result<Boxed<PivotCall<Expr>>, OutOfMemory>
    ensures { IfOk result (λ node. node ≡ record { call = call; alias = alias }) }
{
    Ok(Boxed::new(
        alloc,
        PivotCall {
            call: call.into_inner(),
            alias,
        },
    )?)
}

/// `Groups::Keys`: `expr {"," expr}`
pub fn groups_keys(
    alloc: Global,
    keys: Items<Expr>,
    place: u64,
) -> Result<Boxed<Groups<Expr>>, OutOfMemory>
    ensures { IfOk result (λ node. node ≡ groupss.Keys keys place) }
{
    Ok(Boxed::new(alloc, Groups::Keys { keys, place })?)
}

/// `Groups::Empty`: `()`
pub fn groups_empty(alloc: Global, place: u64) -> Result<Boxed<Groups<Expr>>, OutOfMemory>
    ensures { IfOk result (λ node. node ≡ groupss.Empty place) }
{
    Ok(Boxed::new(alloc, Groups::Empty { place })?)
}

/// `Groups::Sets`: `GROUPING SETS (..)`
pub fn groups_sets(
    alloc: Global,
    sets: Items<GroupSet<Expr>>,
    place: u64,
) -> Result<Boxed<Groups<Expr>>, OutOfMemory>
    ensures { IfOk result (λ node. node ≡ groupss.Sets sets place) }
{
    Ok(Boxed::new(alloc, Groups::Sets { sets, place })?)
}

/// `Groups::Cube`: `ROLLUP (..)` or `CUBE (..)`
pub fn groups_cube(
    alloc: Global,
    cube: Boxed<Cube<Expr>>,
    place: u64,
) -> Result<Boxed<Groups<Expr>>, OutOfMemory>
    ensures { IfOk result (λ node. node ≡ groupss.Cube cube place) }
{
    Ok(Boxed::new(
        alloc,
        Groups::Cube {
            cube: cube.into_inner(),
            place,
        },
    )?)
}

/// `GroupSet::Item`: one of the grouping sets: an item, or a ROLLUP or CUBE that stands for several sets.
pub fn group_set_item(
    alloc: Global,
    item: Boxed<GroupItem<Expr>>,
) -> Result<Boxed<GroupSet<Expr>>, OutOfMemory>
    ensures { IfOk result (λ node. node ≡ group_sets.Item item) }
{
    Ok(Boxed::new(
        alloc,
        GroupSet::Item {
            item: item.into_inner(),
        },
    )?)
}

/// `GroupSet::Cube`: one of the grouping sets: an item, or a ROLLUP or CUBE that stands for several sets.
pub fn group_set_cube(
    alloc: Global,
    cube: Boxed<Cube<Expr>>,
) -> Result<Boxed<GroupSet<Expr>>, OutOfMemory>
    ensures { IfOk result (λ node. node ≡ group_sets.Cube cube) }
{
    Ok(Boxed::new(
        alloc,
        GroupSet::Cube {
            cube: cube.into_inner(),
        },
    )?)
}

/// `ROLLUP (..)` or `CUBE (..)`
pub fn cube(
    alloc: Global,
    kind: CubeKind,
    items: Items<GroupItem<Expr>>,
    place: u64,
) -> Result<Boxed<Cube<Expr>>, OutOfMemory>
    ensures { IfOk result (λ node. node ≡ record { kind = kind; items = items; place = place }) }
{
    Ok(Boxed::new(alloc, Cube { kind, items, place })?)
}

/// `GroupItem::Expr`: an expression, or a list of them in brackets, which may be empty.
pub fn group_item_expr(
    alloc: Global,
    expr: Boxed<Expr>,
) -> Result<Boxed<GroupItem<Expr>>, OutOfMemory>
    ensures { IfOk result (λ node. node ≡ group_items.Expr expr) }
{
    Ok(Boxed::new(
        alloc,
        GroupItem::Expr {
            expr: expr.into_inner(),
        },
    )?)
}

/// `GroupItem::List`: an expression, or a list of them in brackets, which may be empty.
pub fn group_item_list(
    alloc: Global,
    exprs: Items<Expr>,
    place: u64,
) -> Result<Boxed<GroupItem<Expr>>, OutOfMemory>
    ensures { IfOk result (λ node. node ≡ group_items.List exprs place) }
{
    Ok(Boxed::new(alloc, GroupItem::List { exprs, place })?)
}
