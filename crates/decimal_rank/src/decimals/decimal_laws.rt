//! The law of the order of decimals.
ghost use Rattle.std.specs.Cmp.{IsTotalOrder};
ghost use Rattle.decimal_rank.specs.Decimals.Decimal.{decimal_cmp};

/// Decimals have one total order.
pub fn decimals_have_an_order()
    ensures { IsTotalOrder decimal_cmp }
{}
