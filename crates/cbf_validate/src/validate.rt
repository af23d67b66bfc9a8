// The first pass of unpacking: whether octets unpack. It writes nothing.
ghost use Rattle.std.specs.Prelude.{◌≡◌, true, ◌+◌, ◌*◌, ◌%◌, ◌<◌, ◌≤◌, ◌^◌, length, pos, nat_abs, ◌+ℤ◌, IfSome};
ghost use Rattle.std.proofs.Math.IntN.{sub_ℕ};
ghost use Rattle.cbf_pixels.specs.Octets.{signed};
ghost use Rattle.cbf_pixels.specs.Pixels.{within, least, greatest, unpack_byte_offset};
ghost use Rattle.cbf_pixels.specs.PixelCalls.{is_some};
ghost use Rattle.cbf_octets.specs.Plain.{Plain};
ghost use Rattle.cbf_validate.specs.Validate.{Glides, Adds, Summable, ValidPart};
ghost use Rattle.cbf_sums.specs.Passes.{biased_zero, biased_greatest, pixel_at, Top, Between, Passed, Stepped};

use crate::turn;
use crate::turn::Way;
use cbf_octets::{Last, Part, difference, plain};
use cbf_pixels::ElementType;
pub use cbf_sums::State;
use cbf_sums::far::BIASED_LEAST;
use cbf_sums::{far, near};

fn biased_zero(kind: ElementType) -> u64
    ensures { result ≡ biased_zero kind }
{
    match kind {
        ElementType::U8 | ElementType::U16 | ElementType::U32 => BIASED_LEAST,
        ElementType::S8 => BIASED_LEAST + 128,
        ElementType::S16 => BIASED_LEAST + 32768,
        ElementType::S32 => BIASED_LEAST + 2147483648,
    }
}

fn biased_greatest(kind: ElementType) -> u64
    ensures { result ≡ biased_greatest kind }
{
    match kind {
        ElementType::U8 | ElementType::S8 => BIASED_LEAST + 255,
        ElementType::U16 | ElementType::S16 => BIASED_LEAST + 65535,
        ElementType::U32 | ElementType::S32 => BIASED_LEAST + 4294967295,
    }
}

fn sum(biased: u64, d: i64) -> u64
    requires { (2 ^ 39 ≤ biased) × (biased ≤ 2 ^ 42) × (nat_abs d ≤ 2 ^ 36) }
    ensures { pos result ≡ pos biased +ℤ d }
{
    (biased as i64 + d) as u64
}

// Biased pixels summed up: the last one with where the next difference starts, and the bitwise or of all.
#[derive(Clone, Copy)]
pub struct Sums {
    pub to: State,
    pub all: u64,
}

// The 32 plain octets after s.
fn add_block(octets: &[u8], s: Sums) -> Sums
    requires { (s.to.next + 32 ≤ length octets.now) × Plain octets.now s.to.next 32 × Summable 32 s.to.biased }
    ensures { Adds octets.now 32 s.to.biased s.all s.to.next result.to.biased result.all result.to.next
        × (result.to.next ≡ s.to.next + 32) }
{
    let i = s.to.next;
    let mut biased = s.to.biased;
    let mut all = s.all;
    for j in 0..32 {
        biased = sum(biased, difference::extended(u64::from(octets[i + j]), 128));
        all |= biased;
    }
    let next = i + 32;
    Sums {
        to: State { biased, next },
        all,
    }
}

// A plain octet's difference plus 128.
fn raised(o: u8) -> u32
    ensures { (result < 256) × (signed 1 o ≡ sub_ℕ result 128) }
{
    u32::from(o ^ 128)
}

// The differences of n plain octets from i on, summed up, each plus 128. No pixel is looked at: none leaves the type
// where its ends are far.
fn sum_run(octets: &[u8], i: usize, n: usize) -> u32
    requires { (i + n ≤ length octets.now) × Plain octets.now i n × (n ≤ 4096) }
    ensures { Glides octets.now i n result }
{
    let mut total = 0;
    for j in 0..n {
        total += raised(octets[i + j]);
    }
    total
}

// n plain octets after at, each pixel tested.
fn pass_run(octets: &[u8], at: State, n: usize, top: u64) -> Option<State>
    requires { Top top × Between top at.biased × (at.next + n ≤ length octets.now) × Plain octets.now at.next n
        × (n % 32 ≡ 0) }
    ensures stepped { Stepped top octets.now at n result }
    ensures place { IfSome result (λ to. to.next ≡ at.next + n) }
{
    let mut s = Sums {
        to: at,
        all: BIASED_LEAST,
    };
    for _j in 0..n / 32 {
        s = add_block(octets, s);
        if top < s.all {
            return None;
        }
    }
    Some(s.to)
}

// The same, None where it is not known: in each part of the run the pixels have to stay near the one before it.
fn pass_near(octets: &[u8], at: State, n: usize, top: u64) -> Option<State>
    requires { Top top × Between top at.biased × (at.next + n ≤ length octets.now) × Plain octets.now at.next n
        × (n % 32 ≡ 0) × (3 ≤ at.next) }
    ensures passed { IfSome result (λ to. Passed top octets.now at.biased at.next n to.biased to.next) }
    ensures place { IfSome result (λ to. to.next ≡ at.next + n) }
{
    let mut last = at.biased;
    let mut j: usize = 0;
    // Not a for: the last part may be shorter than the others.
    while j < n {
        let m = (n - j).min(1024);
        let base = far::base_of(last, top, 64);
        let above = near::near(octets, at.next + j, m, (last - base) as u8)?;
        last = base + u64::from(above);
        j += m;
    }
    Some(State {
        biased: last,
        next: at.next + n,
    })
}

// The same as pass_run, where the run is at most 4,096 octets long: none of its pixels leaves the type where the ends
// of that are 128 times 4,096 away. pass_near looks back at three octets, and is worth its start in a long run.
pub fn pass_plain(octets: &[u8], at: State, n: usize, top: u64) -> Option<State>
    requires { Top top × Between top at.biased × (at.next + n ≤ length octets.now) × Plain octets.now at.next n
        × (n % 32 ≡ 0) × (n ≤ 4096) }
    ensures stepped { Stepped top octets.now at n result }
    ensures place { IfSome result (λ to. to.next ≡ at.next + n) }
{
    if far::is_far(at.biased, top, 524288) {
        let total = u64::from(sum_run(octets, at.next, n));
        return Some(State {
            biased: at.biased + total - 128 * n as u64,
            next: at.next + n,
        });
    }
    if 192 <= n
        && 3 <= at.next
        && let Some(to) = pass_near(octets, at, n, top)
    {
        return Some(to);
    }
    pass_run(octets, at, n, top)
}

fn add_one(octets: &[u8], s: Sums) -> Sums
    requires { (s.to.next + 15 ≤ length octets.now) × Summable 1 s.to.biased }
    ensures { Adds octets.now 1 s.to.biased s.all s.to.next result.to.biased result.all result.to.next }
{
    let d = difference::read_difference(octets, s.to.next);
    let biased = sum(s.to.biased, d.value);
    let to = State {
        biased,
        next: d.next,
    };
    Sums {
        to,
        all: s.all | biased,
    }
}

fn add_four(octets: &[u8], s: Sums) -> Sums
    requires { (s.to.next + 60 ≤ length octets.now) × Summable 4 s.to.biased }
    ensures { Adds octets.now 4 s.to.biased s.all s.to.next result.to.biased result.all result.to.next }
{
    let a = add_one(octets, s);
    let b = add_one(octets, a);
    let c = add_one(octets, b);
    add_one(octets, c)
}

// 32 pixels, where so many octets are left that none can run out of them.
fn pass_32(octets: &[u8], at: State, top: u64) -> Option<State>
    requires { Top top × Between top at.biased × (at.next + 480 ≤ length octets.now) }
    ensures { Stepped top octets.now at 32 result }
{
    let mut s = Sums {
        to: at,
        all: BIASED_LEAST,
    };
    // Four in each turn: with one, this pass takes 9 to 15 % more instructions for noise.
    for _j in 0..8usize {
        s = add_four(octets, s);
    }
    if top < s.all { None } else { Some(s.to) }
}

// n pixels, at most 32, each tested by itself.
fn pass_each(octets: &[u8], at: State, n: usize, top: u64) -> Option<State>
    requires { Top top × Between top at.biased × (at.next ≤ length octets.now) × (n ≤ 32) }
    ensures { Stepped top octets.now at n result }
{
    let mut to = at;
    for _j in 0..n {
        if !difference::whole(octets, to.next) {
            return None;
        }
        let d = difference::read_difference(octets, to.next);
        let biased = sum(to.biased, d.value);
        if biased < BIASED_LEAST || top < biased {
            return None;
        }
        to = State {
            biased,
            next: d.next,
        };
    }
    Some(to)
}

// n pixels, at most 32.
pub fn pass_few(octets: &[u8], at: State, n: usize, top: u64) -> Option<State>
    requires { Top top × Between top at.biased × (at.next ≤ length octets.now) × (n ≤ 32) }
    ensures { Stepped top octets.now at n result }
{
    if n < 32 || octets.len() - at.next < 480 {
        pass_each(octets, at, n, top)
    } else {
        pass_32(octets, at, top)
    }
}

fn biased_of(kind: ElementType, pixel: i64) -> u64
    requires { within (least kind) (greatest kind) pixel ≡ true }
    ensures { Between (biased_greatest kind) result × (pixel_at kind result ≡ pixel) }
{
    sum(biased_zero(kind), pixel)
}

fn pixel_of(kind: ElementType, biased: u64) -> i64
    requires { Between (biased_greatest kind) biased }
    ensures { result ≡ pixel_at kind biased }
{
    biased as i64 - biased_zero(kind) as i64
}

// Whether octets unpack to count pixels after s: those that are there, and all of them where the octets have ended.
pub fn validate_part(
    kind: ElementType,
    octets: &[u8],
    ended: bool,
    s: Last,
    count: usize,
) -> Option<Part>
    requires { (within (least kind) (greatest kind) s.pixel ≡ true) × (s.next ≤ length octets.now) }
    ensures { ValidPart kind octets.now ended s.pixel s.next count result }
{
    let top = biased_greatest(kind);
    let mut at = State {
        biased: biased_of(kind, s.pixel),
        next: s.next,
    };
    let mut way = Way::Run;
    let mut k: usize = 0;
    // no `for`: how far a turn goes is known when it is over
    while k < count && !plain::waits(ended, octets.len() - at.next) {
        let t = turn::pass_turn(octets, at, top, count - k, way)?;
        at = t.to;
        way = t.way;
        k += t.count;
    }
    let last = Last {
        pixel: pixel_of(kind, at.biased),
        next: at.next,
    };
    Some(Part { count: k, last })
}

// Whether the octets unpack to count pixels.
pub fn validate(kind: ElementType, octets: &[u8], count: usize) -> bool
    ensures { result ≡ is_some (unpack_byte_offset kind count octets.now) }
{
    let start = Last { pixel: 0, next: 0 };
    // a `match`: what the closure of `is_some_and` ensures was out of the proof's reach
    match validate_part(kind, octets, true, start, count) {
        Some(all) => all.last.next == octets.len(),
        None => false,
    }
}
