ghost use Rattle.std.specs.Prelude.{◌≡◌, ℕ, ◌<◌, Bool, true, length, IfSome, slice_index_or};
ghost use Rattle.std.specs.List.{position};

// A record that is kept under a number.
pub trait Keyed {
    ghost under: { Self → ℕ → Bool };

    fn is_under(&self, key: usize) -> bool
        ensures { result ≡ under self.now key };
}

// The first place of a record that is kept under the key.
// Kept: records are looked up in order and not by a map, since no call of the machine allocates.
pub fn find<T: Keyed>(records: &[T], key: usize) -> Option<usize>
    ensures value { result ≡ position (λ x. T.under x key) records.now }
    ensures within { IfSome result (λ i. i < length records.now) }
    ensures holds { IfSome result (λ i. (d : T) → T.under (slice_index_or records.now i d) key ≡ true) }
{
    records.iter().position(|record| record.is_under(key))
}
