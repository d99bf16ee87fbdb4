//! Procedures are summed up in order.

ghost use Rattle.std.specs.Prelude.{List, IsPermutation};
ghost use Rattle.page_parts.specs.declared.order.Rank.{Rank};
ghost use Rattle.page_parts.specs.Order.{ordered};
ghost use Rattle.whole_page.specs.Orders.{Falls};

/// The order in which procedures are summed up has each of them once, and each weighs no more than the one before it.
pub fn procedures_are_summed_up_in_order()
    ensures each { (ranks : List Rank) → IsPermutation ranks (ordered ranks) }
    ensures falls { (ranks : List Rank) → Falls (ordered ranks) }
{}
