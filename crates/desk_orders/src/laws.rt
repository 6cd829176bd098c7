//! Theorems about the definitions. Each function does nothing: its contract is the theorem.
ghost use Rattle.std.specs.Prelude.{◌≡◌, ℕ, ◌↔◌, ◌⊎◌, List, Some, Err};
ghost use Rattle.desk_orders.specs.declared.limits.TheConstants.{MAX_LINE};
ghost use Rattle.desk_orders.specs.declared.orders.OrderFault.{OrderFault};
ghost use Rattle.desk_orders.specs.Limits.{max_line};
ghost use Rattle.desk_orders.specs.Orders.{OrdersAreSpelled, order_of};
ghost use Rattle.desk_orders.specs.Words.{SpellsId, id_in};

/// The computed order of a line is the one that the line spells.
pub fn orders_are_spelled()
    ensures { OrdersAreSpelled }
{}

/// A line is rejected only as `Syntax` or as `Range`.
pub fn lines_have_no_other_fault()
    ensures { (line : List ℕ) (fault : OrderFault) → order_of line ≡ Err fault
        → (fault ≡ OrderFault.Syntax) ⊎ (fault ≡ OrderFault.Range) }
{}

/// The computed ID of a text is the one that the text spells.
pub fn ids_are_spelled()
    ensures { (digits : List ℕ) (id : ℕ) → SpellsId digits id ↔ (id_in digits ≡ Some id) }
{}

/// The limit of a line in the code is that of the definitions.
pub fn line_limits_agree()
    ensures { MAX_LINE ≡ max_line }
{}
