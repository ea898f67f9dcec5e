// A row by itself.
ghost use Rattle.std.specs.Prelude.{◌≡◌};
ghost use Rattle.std.specs.List.Sorted.{IsNonDecreasing};
ghost use Rattle.column_order.specs.Orders.{has};

/// Whether an ascending row has a column. The search is binary.
pub fn row_has(row: &[u32], column: u32) -> bool
    requires { IsNonDecreasing row.now }
    ensures { result ≡ has row.now column }
{
    row.binary_search(&column).is_ok()
}
