//! What a map of many rows is asked for: which keys, and in which order.
ghost use Rattle.std.specs.Prelude.{◌+◌, ◌≤◌};

/// The rows of the map.
pub const ROWS: u32 = 16_384;

/// The keys that the map holds which calls are timed on: those below this.
pub const KEYS: u32 = 65_536;

/// Over how many keys a sum goes.
pub const SUMMED: u32 = 1_000;

/// A sum takes as long as many puts, so one is made where so many puts are.
pub const PUTS_A_SUM: u32 = 10;

/// A key below `KEYS` for each number, in a scattered order: `KEYS` numbers that follow each other
/// have all keys, each once.
pub fn scattered(number: u32) -> u32 {
    let low = number.wrapping_mul(40_503) % KEYS;
    let folded = low ^ (low >> 8);
    folded.wrapping_mul(25_717) % KEYS
}

/// Where the sum with this number begins, so that its keys are all below `KEYS`.
pub fn sum_start(number: u32) -> u32
    ensures { result + SUMMED ≤ KEYS }
{
    scattered(number) % (KEYS - SUMMED + 1)
}

/// In which order a map is filled.
#[derive(Clone, Copy, Debug, PartialEq, Eq)]
pub enum Order {
    /// Each key is above all before it.
    Rising,
    /// Each key is below all before it.
    Falling,
    /// The keys lie anywhere, and are all different.
    Random,
}

impl Order {
    /// The key with this number.
    pub fn key(self, number: u32) -> u32 {
        match self {
            Order::Rising => number,
            Order::Falling => u32::MAX - number,
            Order::Random => mixed(number),
        }
    }

    /// The word that names it in a figure.
    pub fn word(self) -> &'static str {
        match self {
            Order::Rising => "rising",
            Order::Falling => "falling",
            Order::Random => "random",
        }
    }
}

/// A key for each number, different for different numbers: each of its steps can be undone.
pub fn mixed(number: u32) -> u32 {
    let a = (number ^ (number >> 16)).wrapping_mul(2_246_822_507);
    let b = (a ^ (a >> 13)).wrapping_mul(3_266_489_909);
    b ^ (b >> 16)
}
