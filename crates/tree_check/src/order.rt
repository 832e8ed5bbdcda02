//! What is in order at a node.
ghost use Rattle.std.specs.Prelude.{◌≡◌, ◌&&◌};
ghost use Rattle.resolved_ast.specs.Flaws as flaws;
ghost use Rattle.tree_check.specs.Orders.{order_of};

use resolved_ast::FlawKind;

/// What is in order at a node, in the order of the kinds of flaws.
#[derive(Clone, Copy)]
pub struct Order {
    pub ids: bool,
    pub seen: bool,
    pub outers: bool,
    pub typed: bool,
    pub shaped: bool,
}

/// Whether the columns are in sight, with all else in order.
pub fn by_sight(seen: bool) -> Order
    ensures { order_of result ≡ record flaws.in_order { seen = seen } }
{
    Order {
        ids: true,
        seen,
        outers: true,
        typed: true,
        shaped: true,
    }
}

/// Whether the types are right, with all else in order.
pub fn by_type(typed: bool) -> Order
    ensures { order_of result ≡ record flaws.in_order { typed = typed } }
{
    Order {
        ids: true,
        seen: true,
        outers: true,
        typed,
        shaped: true,
    }
}

/// The first kind of flaw at a node whose columns are new or not.
pub fn first_kind(order: Order, new: bool) -> Option<FlawKind>
    ensures { result ≡ flaws.first_kind (record (order_of order) { ids = order.ids && new }) }
{
    if !(order.ids && new) {
        Some(FlawKind::Id)
    } else if !order.seen {
        Some(FlawKind::Unseen)
    } else if !order.outers {
        Some(FlawKind::Outers)
    } else if !order.typed {
        Some(FlawKind::Typing)
    } else if !order.shaped {
        Some(FlawKind::Shape)
    } else {
        None
    }
}

/// Whether the types and the form are right, with all else in order.
pub fn by_types(typed: bool, shaped: bool) -> Order
    ensures { order_of result ≡ record flaws.in_order { typed = typed; shaped = shaped } }
{
    Order {
        ids: true,
        seen: true,
        outers: true,
        typed,
        shaped,
    }
}
