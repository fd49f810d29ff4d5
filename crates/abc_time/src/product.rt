//! Products up to a limit.

ghost use Rattle.std.specs.Prelude.{◌≤◌, All, SomeIff};
ghost use Rattle.abc_time.specs.Product.{product_of};

/// The product of positive numbers, if it is at most `limit`.
pub fn product_within(numbers: &[u64], limit: u64) -> Option<u64>
    requires { All (λ n. 1 ≤ n) numbers.now }
    ensures { SomeIff result (product_of numbers.now ≤ limit) (product_of numbers.now) }
{
    let mut product: u64 = 1;
    for number in numbers {
        product = product.checked_mul(*number)?;
    }
    if product <= limit {
        Some(product)
    } else {
        None
    }
}
