// One turn of the first pass of unpacking: a run of plain octets, octets with some escapes among them, or singles.
ghost use Rattle.std.specs.Prelude.{◌≡◌, true, ◌+◌, ◌<◌, ◌≤◌, length, MatchOption};
ghost use Rattle.cbf_sums.specs.Passes.{biased_least, Top, Between, Failed};
ghost use Rattle.cbf_validate.specs.Turn.{Turned};

use crate::validate;
use cbf_octets::plain;
use cbf_sums::far::BIASED_LEAST;
use cbf_sums::{State, mixed};

// What the next turn tries: a guess from what was met.
#[derive(Clone, Copy)]
pub enum Way {
    // Mixed octets, and else singles.
    Mixed,
    // A run, else mixed octets, and else singles.
    Run,
    // A run, and else singles, until singles were passed in this turn and in so many more.
    Singles(u64),
}

// Where a turn leads, how many pixels it passed, and the way of the next one.
#[derive(Clone, Copy)]
pub struct Turn {
    pub to: State,
    pub count: usize,
    pub way: Way,
}

// The way after mixed octets: mixed ones again where there were four escapes and more.
fn after_mixed(count: usize) -> Way {
    if count < 184 { Way::Mixed } else { Way::Run }
}

// The way after singles: mixed octets are tried again after the next turn where they were met before, else after eight.
fn later(way: Way) -> Way {
    match way {
        Way::Mixed => Way::Singles(0),
        Way::Run => Way::Singles(7),
        Way::Singles(0) => Way::Run,
        Way::Singles(more) => Way::Singles(more - 1),
    }
}

// Whether a run of plain octets may start at i. Where it does not, the call that looks for it is spared.
fn may_run(octets: &[u8], i: usize, way: Way) -> bool
    requires { i ≤ length octets.now }
{
    !matches!(way, Way::Mixed) && 32 <= octets.len() - i && octets[i] != 128
}

// Whether mixed octets are tried: there are octets and pixels enough, and the type is wide enough.
fn may_mix(len: usize, i: usize, top: u64, left: usize, way: Way) -> bool
    requires { i ≤ len }
    ensures { result ≡ true → (biased_least + 65535 ≤ top) × (1 ≤ i) × (i + 192 ≤ len) × (192 ≤ left) }
{
    !matches!(way, Way::Singles(_))
        && 1 <= i
        && BIASED_LEAST + 65535 <= top
        && 192 <= left
        && 192 <= len - i
}

// Whether singles go on after k of them from the octet i on, at next: they took more than two octets each, and octets
// for a part of them are left.
fn go_on(next: usize, i: usize, k: usize, left: usize, len: usize) -> bool
    requires { (i ≤ len) × (next ≤ len) }
    ensures { result ≡ true → (k < left) × (next + 480 ≤ len) }
{
    k < 128 && k < left && i <= next && 2 * k < next - i && 480 <= len - next
}

// One part of singles, or up to four where escapes are many.
fn pass_singles(octets: &[u8], at: State, top: u64, left: usize, way: Way) -> Option<Turn>
    requires { Top top × Between top at.biased × (at.next ≤ length octets.now) × (0 < left) }
    ensures { MatchOption result (Failed top octets.now at.biased at.next left)
        (λ t. Turned top octets.now at.biased at.next left t.count t.to.biased t.to.next) }
{
    let mut to = at;
    let mut k: usize = 0;
    loop {
        let n = plain::part(left - k);
        to = validate::pass_few(octets, to, n, top)?;
        k += n;
        if !go_on(to.next, at.next, k, left, octets.len()) {
            return Some(Turn {
                to,
                count: k,
                way: later(way),
            });
        }
    }
}

// Some of the pixels that are left, after at.
pub fn pass_turn(octets: &[u8], at: State, top: u64, left: usize, way: Way) -> Option<Turn>
    requires { Top top × Between top at.biased × (at.next ≤ length octets.now) × (0 < left) }
    ensures { MatchOption result (Failed top octets.now at.biased at.next left)
        (λ t. Turned top octets.now at.biased at.next left t.count t.to.biased t.to.next) }
{
    if may_run(octets, at.next, way) {
        let n = plain::plain_run(octets, at.next, left);
        if 0 < n {
            let to = validate::pass_plain(octets, at, n, top)?;
            return Some(Turn { to, count: n, way });
        }
    }
    if may_mix(octets.len(), at.next, top, left, way)
        && let Some(m) = mixed::pass_mixed(octets, at, top)
    {
        return Some(Turn {
            to: m.to,
            count: m.count,
            way: after_mixed(m.count),
        });
    }
    pass_singles(octets, at, top, left, way)
}
