//! Which calls of a stream in memory are to fail.
ghost use Rattle.std.specs.Prelude.{◌≡◌};
ghost use Rattle.kw_io.specs.Fakes.{is_listed};

/// Whether this number is in the list. No number of a list is past 2^32, so later calls than that
/// never fail.
pub(crate) fn contains_number(list: &[u32], number: u64) -> bool
    ensures { result ≡ is_listed number list.now }
{
    list.iter().any(|listed| u64::from(*listed) == number)
}
