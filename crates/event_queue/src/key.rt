ghost use Rattle.std.specs.Prelude.{◌≡◌, Bool, true, false, nat_lt};
ghost use Rattle.event_queue.specs.Orders.{sooner};
ghost use Rattle.std.proofs.Common.{rules};

/// A kind of keys: values with a total order. Two keys of which neither is before the other are equal
/// to a queue, whether or not they are the same value.
pub trait Key: Copy {
    ghost before: { Self → Self → Bool };

    /// Whether this key comes before the other.
    fn is_before(&self, other: &Self) -> bool
        ensures { result ≡ before self.now other.now };

    // never is each of two keys before the other
    ghost asymmetric: { (a b : Self) → before a b ≡ true → before b a ≡ false };

    // 'not after' carries from first to second to third
    ghost carries: { (a b c : Self)
        → before b a ≡ false → before c b ≡ false → before c a ≡ false };
}

/// Whole seconds: the earlier comes before the later.
impl Key for u32 {
    ghost before = { nat_lt };

    ghost asymmetric = { Prim.search rules };

    ghost carries = { Prim.search rules };

    fn is_before(&self, other: &u32) -> bool {
        *self < *other
    }
}

/// Whether the first of two keys comes before the second, where no key at all comes last.
pub fn is_sooner<K: Key>(a: Option<K>, b: Option<K>) -> bool
    ensures { result ≡ sooner K.before a b }
{
    match (a, b) {
        (Some(x), Some(y)) => x.is_before(&y),
        (Some(_), None) => true,
        (None, _) => false,
    }
}
