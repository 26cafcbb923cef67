// What a key is: a value of any kind that has a total order.
ghost use Rattle.std.specs.Prelude.{◌≡◌, Bool};
ghost use Rattle.keys.specs.Total.{Total};

/// A kind of key. Whoever adds one gives `below`, shows that it is a total order, and computes it. It is no `Ord`: keys neither of which is below the
/// other need not be equal, and `Ord` would ask that of every kind.
pub trait Key: Copy {
    ghost below: { Self → Self → Bool };

    fn is_below(self, other: Self) -> bool
        ensures { result ≡ below self other };

    ghost order: { Total below };
}

/// Every kind of key has a total order.
pub fn keys_have_a_total_order<K: Key>() -> u8
    ensures { Total K.Key.below }
{
    0
}
