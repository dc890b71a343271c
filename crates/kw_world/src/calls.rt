//! What a seat's events need of its call.
//!
//! A seat without a call is taken to ask for the value of key 0: no list of events leads to one
//! that acts, and so each of these answers for every local.
ghost use Rattle.std.specs.Prelude.{◌≡◌};
ghost use Rattle.kw_words.specs.Plain.{IsValue};
ghost use Rattle.kw_world.specs.Calls.{first_key, last_key, is_in_range, is_range_empty, put_value, is_pin, is_scan};
ghost use Rattle.kw_world.specs.Sane.{IsCall};

use kw_model::call::Call;

/// The key of a put, a delete or a get, and the first key of a scan, of the map as it stands or as
/// it was pinned.
pub fn first_key(call: Option<Call>) -> u32
    ensures { result ≡ first_key call }
{
    match call {
        Some(Call::Put(key, _)) | Some(Call::Del(key)) | Some(Call::Get(key)) => key,
        Some(Call::Scan(from, _)) | Some(Call::ScanAt(from, _)) => from,
        Some(Call::Pin) | Some(Call::Unpin) | None => 0,
    }
}

/// The key of a put, a delete or a get, and the last key of a scan, of the map as it stands or as
/// it was pinned.
pub fn last_key(call: Option<Call>) -> u32
    ensures { result ≡ last_key call }
{
    match call {
        Some(Call::Put(key, _)) | Some(Call::Del(key)) | Some(Call::Get(key)) => key,
        Some(Call::Scan(_, upto)) | Some(Call::ScanAt(_, upto)) => upto,
        Some(Call::Pin) | Some(Call::Unpin) | None => 0,
    }
}

/// Whether the key is in the range of the call: the one key of a get, the keys of a scan.
pub fn is_in_range(call: Option<Call>, key: u32) -> bool
    ensures { result ≡ is_in_range call key }
{
    first_key(call) <= key && key <= last_key(call)
}

/// Whether the range of the call holds no key.
pub fn is_range_empty(call: Option<Call>) -> bool
    ensures { result ≡ is_range_empty call }
{
    last_key(call) < first_key(call)
}

/// The value that the call puts; none for a delete, which puts a tombstone, and for a call that
/// puts nothing.
pub fn put_value(call: Option<Call>) -> Option<u64>
    requires { IsCall call }
    ensures value { result ≡ put_value call }
    ensures range { IsValue result }
{
    match call {
        Some(Call::Put(_, value)) => Some(value),
        _ => None,
    }
}

/// Whether the call is a scan of the map as it stands.
pub fn is_scan(call: Option<Call>) -> bool
    ensures { result ≡ is_scan call }
{
    match call {
        Some(Call::Scan(_, _)) => true,
        _ => false,
    }
}

/// Whether the call is a pin.
pub fn is_pin(call: Option<Call>) -> bool
    ensures { result ≡ is_pin call }
{
    match call {
        Some(Call::Pin) => true,
        _ => false,
    }
}
