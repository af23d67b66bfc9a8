// Pixels of the first pass, biased, beside the ends of their type.
ghost use Rattle.std.specs.Prelude.{◌≡◌, ◌+◌, ◌*◌, ◌^◌, ◌<◌, ◌≤◌, true};
ghost use Rattle.cbf_sums.specs.Passes.{biased_least, Top, Between};
ghost use Rattle.cbf_sums.specs.Far.{Base};

// The least biased pixel of every type.
pub const BIASED_LEAST: u64 = 1099511627776;

// Where two halves of numbers of the type start, biased among them and as far from their ends as can be.
pub fn base_of(biased: u64, top: u64, half: u64) -> u64
    requires { Top top × Between top biased × (0 < half) × (biased_least + 2 * half ≤ top + 1) }
    ensures { Base top biased half result }
{
    (biased - half).clamp(BIASED_LEAST, top + 1 - 2 * half)
}

// Whether both ends of the type are distance away, or more.
pub fn is_far(biased: u64, top: u64, distance: u64) -> bool
    requires { (biased ≤ 2 ^ 42) × (distance ≤ 2 ^ 32) }
    ensures { result ≡ true → (biased_least + distance ≤ biased) × (biased + distance ≤ top) }
{
    BIASED_LEAST + distance <= biased && biased + distance <= top
}
