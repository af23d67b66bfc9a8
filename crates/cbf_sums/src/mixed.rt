// 192 octets at once where some are escapes but none stands within two behind another: each escape is then followed
// by the two octets of its difference. What an octet adds to the pixel before it is a number of 16 bits: a plain
// octet its difference, an octet two behind an escape the difference that ends there, any other octet 0.
ghost use Rattle.std.specs.Prelude.{◌≡◌, ℕ, ◌+◌, ◌-◌, ◌*◌, ◌<◌, ◌≤◌, List, length, bit_xor, slice_index, true, IfSome};
ghost use Rattle.cbf_sums.specs.Passes.{biased_least, Top, Between, Passed};
ghost use Rattle.cbf_sums.specs.Summing.{Written, back_at, Windows, Levels};
ghost use Rattle.cbf_sums.specs.Mixed.{mark_of, mark_at, IsMark, EachMark, Apart, end_mark, ends_to, whole_octets};
ghost use Rattle.cbf_sums.specs.Mixed.{choose, sign_of, low_at, high_at, joined_at, added_at, Addends, raised_to};
ghost use Rattle.cbf_sums.specs.Mixed.{Walk};

use crate::{State, far};

// 255 for the escape, else 0: a mask, by which the loops choose without a test.
#[tactic(auto, unfolding(crate::specs::Mixed::mark_of))]
fn mark(o: u8) -> u8
    ensures { result ≡ mark_of o }
{
    if o == 128 { 255 } else { 0 }
}

// From 16 on, the marks of the octets from i on.
fn mark_each(octets: &[u8], i: usize, marks: &mut [u8; 208])
    requires { (i + 192 ≤ length octets.now) × (length marks.old ≡ 208) }
    ensures { Written (mark_at octets.now i) 192 208 marks.old marks.new }
{
    for j in 0..192 {
        marks[16 + j] = mark(octets[i + j]);
    }
}

// Whether no mark stands within two behind another.
fn apart(marks: &[u8; 208]) -> bool
    ensures { result ≡ true → Apart marks.now }
{
    let mut all = 0;
    for j in 0..192 {
        all |= marks[16 + j] & (marks[15 + j] | marks[14 + j]);
    }
    all == 0
}

// 1 where a difference ends: c is the mark of an octet, b of the one before it.
fn end(b: u8, c: u8) -> u8
    requires { IsMark b × IsMark c }
    ensures { (result ≡ end_mark b c) × (result ≤ 1) }
{
    1 & (255 ^ (b | c))
}

// How many differences end.
fn ends(marks: &[u8; 208]) -> u8
    requires { EachMark marks.now }
    ensures { (result ≡ ends_to marks.now 192) × (result ≤ 192) }
{
    let mut count = 0;
    for j in 0..192 {
        count += end(marks[15 + j], marks[16 + j]);
    }
    count
}

// c is the mark of an octet, b and a of the two before it: x where it is plain, y where it is two behind an escape,
// else 0.
fn chosen(a: u8, b: u8, c: u8, x: u8, y: u8) -> u8
    requires { IsMark a × IsMark b × IsMark c }
    ensures { result ≡ choose a b c x y }
{
    (x & (255 ^ (a | b | c))) | (y & a)
}

// The octet that a plain octet is extended by.
#[tactic(auto, unfolding(crate::specs::Mixed::sign_of))]
fn sign(o: u8) -> u8
    ensures { result ≡ sign_of o }
{
    if o < 128 { 0 } else { 255 }
}

// From 16 on, the low and the high octet of what each octet from i on adds.
fn halves(octets: &[u8], i: usize, marks: &[u8; 208], low: &mut [u8; 208], high: &mut [u8; 208])
    requires { (1 ≤ i) × (i + 192 ≤ length octets.now) × EachMark marks.now × (length low.old ≡ 208)
        × (length high.old ≡ 208) }
    ensures low { Written (low_at octets.now i marks.now) 192 208 low.old low.new }
    ensures high { Written (high_at octets.now i marks.now) 192 208 high.old high.new }
{
    for j in 0..192 {
        let (o, before) = (octets[i + j], octets[i + j - 1]);
        let (a, b, c) = (marks[14 + j], marks[15 + j], marks[16 + j]);
        low[16 + j] = chosen(a, b, c, o, before);
        high[16 + j] = chosen(a, b, c, sign(o), o);
    }
}

fn joined(low: u8, high: u8) -> u16
    ensures { result ≡ low + 256 * high }
{
    u16::from(low) + 256 * u16::from(high)
}

// What each octet adds.
fn differences(low: &[u8; 208], high: &[u8; 208], added: &mut [u16; 208])
    requires { length added.old ≡ 208 }
    ensures { Written (joined_at low.now high.now) 192 208 added.old added.new }
{
    for j in 0..192 {
        added[16 + j] = joined(low[16 + j], high[16 + j]);
    }
}

// From 16 on, the sum of each number and of that back before it.
fn add_back(numbers: &[u16; 208], back: usize, sums: &mut [u16; 208])
    requires { (back ≤ 16) × (length sums.old ≡ 208) }
    ensures { Written (back_at 65536 numbers.now back) 192 208 sums.old sums.new }
{
    for j in 0..192 {
        sums[16 + j] = numbers[16 + j].wrapping_add(numbers[16 + j - back]);
    }
}

// From 16 on, the pixel after each octet, modulo 65,536, by sums of four; the bitwise or of them. near.rt has its own,
// since a pixel there stands 16 behind and takes in four sums of octets, and here 8 and two sums.
fn levels(fours: &[u16; 208], pixels: &mut [u16; 208]) -> u16
    requires { length pixels.old ≡ 208 }
    ensures by_index { (ds : List ℕ) (c : ℕ) → Windows 65536 4 ds 16 192 fours.now
        → Levels 65536 ds 16 c 0 pixels.old → Levels 65536 ds 16 c 192 pixels.new }
    ensures by_index_2 { (k : ℕ) → k < 192 → slice_index pixels.new (16 + k) ≤ result }
{
    let mut all = 0;
    for j in 0..192 {
        let more = fours[16 + j].wrapping_add(fours[12 + j]);
        let level = pixels[8 + j].wrapping_add(more);
        pixels[16 + j] = level;
        all |= level;
    }
    all
}

// A number of 16 bits as a signed one, plus 32,768.
fn raised(n: u16) -> u32
    ensures { (result ≡ bit_xor n 32768) × (result < 65536) }
{
    u32::from(n ^ 32768)
}

// What all octets add, each plus 32,768.
fn total(added: &[u16; 208]) -> u32
    ensures { (result ≡ raised_to added.now 192) × (result ≤ 65535 * 192) }
{
    let mut total = 0;
    for j in 0..192 {
        total += raised(added[16 + j]);
    }
    total
}

// The distance from some number after all octets, where it is c before them; None where one of the pixels is below
// that number, or 32,768 or more above it.
fn near(added: &mut [u16; 208], c: u16) -> Option<u16>
    requires { (c < 32768) × Addends added.old }
    ensures { IfSome result (λ above. (above < 32768)
        × ((base : ℕ) → Walk added.old base (base + 32767) (base + c) (base + above))) }
{
    let mut pairs = [0u16; 208];
    add_back(added, 1, &mut pairs);
    add_back(&pairs, 2, added);
    let mut pixels = [c; 208];
    let all = levels(added, &mut pixels);
    if 32767 < all {
        return None;
    }
    Some(pixels[207])
}

// The marks of the octets from i on are given: what they add. Octets and numbers have a loop each, since one loop for
// both takes a fifth more instructions.
fn differences_of(octets: &[u8], i: usize, marks: &[u8; 208], added: &mut [u16; 208])
    requires { (1 ≤ i) × (i + 192 ≤ length octets.now) × EachMark marks.now × (length added.old ≡ 208) }
    ensures { Written (added_at octets.now i marks.now) 192 208 added.old added.new }
{
    let mut low = [0u8; 208];
    let mut high = [0u8; 208];
    halves(octets, i, marks, &mut low, &mut high);
    differences(&low, &high, added);
}

// The biased pixel after the octets, where it is known. No pixel leaves the type where the ends of that are 32,768
// times 192 away.
fn last_pixel(added: &mut [u16; 208], biased: u64, top: u64) -> Option<u64>
    requires { Top top × Between top biased × (biased_least + 65535 ≤ top) × Addends added.old }
    ensures { IfSome result (λ last. Walk added.old biased_least top biased last) }
{
    if far::is_far(biased, top, 6291456) {
        return Some(biased + u64::from(total(added)) - 6291456);
    }
    let base = far::base_of(biased, top, 16384);
    let above = near(added, (biased - base) as u16)?;
    Some(base + u64::from(above))
}

// How many of the 192 octets are of whole differences.
#[tactic(auto, unfolding(crate::specs::Mixed::whole_octets))]
fn whole_octets(marks: &[u8; 208]) -> usize
    ensures { (result ≡ whole_octets marks.now) × (result ≤ 192) }
{
    if marks[207] != 0 {
        191
    } else if marks[206] != 0 {
        190
    } else {
        192
    }
}

// Where some pixels lead, and how many they are.
#[derive(Clone, Copy, Debug, PartialEq, Eq)]
pub struct Mixed {
    pub to: State,
    pub count: usize,
}

// Pixels after at, None where it is not known how far the octets lead.
pub fn pass_mixed(octets: &[u8], at: State, top: u64) -> Option<Mixed>
    requires { Top top × Between top at.biased × (biased_least + 65535 ≤ top) × (1 ≤ at.next)
        × (at.next + 192 ≤ length octets.now) }
    ensures { IfSome result (λ m. (0 < m.count) × (m.count ≤ 192)
        × Passed top octets.now at.biased at.next m.count m.to.biased m.to.next) }
{
    let mut marks = [0u8; 208];
    mark_each(octets, at.next, &mut marks);
    if !apart(&marks) {
        return None;
    }
    let mut added = [0u16; 208];
    differences_of(octets, at.next, &marks, &mut added);
    let biased = last_pixel(&mut added, at.biased, top)?;
    let next = at.next + whole_octets(&marks);
    Some(Mixed {
        to: State { biased, next },
        count: usize::from(ends(&marks)),
    })
}
