//! What is asked of the facts of a file.

ghost use Rattle.std.specs.Prelude.{◌≡◌};
ghost use Rattle.ffv1_orders.specs.Orders.{informing};

/// What is asked of the facts of a file.
#[derive(Clone, Copy)]
pub struct Informing {
    /// Whether its frames are counted.
    pub count: bool,
    /// Whether it is an object of JSON.
    pub json: bool,
}

impl Informing {
    /// Puts together what an order says of it.
    pub fn new(count: bool, json: bool) -> Informing
        ensures { result ≡ informing count json }
    {
        Informing { count, json }
    }
}
