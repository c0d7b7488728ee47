//! A table of keys and what they stand for.
ghost use Rattle.std.specs.Prelude.{◌≡◌};
ghost use Rattle.spi_flash.specs.Rows.{known_in};

/// What the first row with this key holds.
pub fn known<K: Copy + PartialEq, V: Copy>(rows: &[(K, V)], key: K) -> Option<V>
    ensures { result ≡ known_in K.eq rows.now key }
{
    rows.iter().find(|row| row.0 == key).map(|row| row.1)
}
